// The text of a value, put after what is written already.
ghost use Rattle.std.specs.Prelude.{◌≡◌, ◌++◌, ◌+◌, ◌≤◌, ◌<◌, List, ℕ, OnOk, OnErr, length, vec_len, vec_capacity};
ghost use Rattle.canonical_json.specs.Spelling.{spelling, numeral, integer_spelling, byte_spelling, text_spelling};
ghost use Rattle.canonical_json.specs.Json.{array, object};
ghost use Rattle.canonical_json.specs.View.{view, items_view, members_view};
ghost use Rattle.canonical_json.specs.steps.Writing.{GoesOn, comma_before};

use super::Value;
use std::alloc::AllocError;

// Where memory is wanting, a part of the text stands after what was there.
#[cycle(append)]
pub(crate) fn value(value: &Value, out: &mut Vec<u8>) -> Result<(), AllocError>
    ensures ok { OnOk result (out.new.items ≡ out.old.items ++ spelling (view value.now)) }
    ensures front { GoesOn out.old.items out.new.items }
    ensures room { vec_capacity out.old ≤ vec_capacity out.new }
    ensures short { OnErr result (vec_capacity out.old < vec_len out.old + length (spelling (view value.now))) }
{
    match value {
        Value::Null => out.extend_from_slice(b"null"),
        Value::Bool(true) => out.extend_from_slice(b"true"),
        Value::Bool(false) => out.extend_from_slice(b"false"),
        Value::Int(n) => integer(*n, out),
        Value::Text(found) => text(found.as_str(), out),
        Value::List(values) => list(values, out),
        Value::Object(members) => object(members, out),
    }
}

#[cycle(append)]
fn list(values: &[Value], out: &mut Vec<u8>) -> Result<(), AllocError>
    ensures ok { OnOk result (out.new.items ≡ out.old.items ++ spelling (array (items_view values.now))) }
    ensures front { GoesOn out.old.items out.new.items }
    ensures room { vec_capacity out.old ≤ vec_capacity out.new }
    ensures short { OnErr result (vec_capacity out.old < vec_len out.old + length (spelling (array (items_view values.now)))) }
{
    out.push(b'[')?;
    let mut first = true;
    let mut rest = values;
    'items: while let Some((item, later)) = rest.split_first() {
        comma(first, out)?;
        value(item, out)?;
        first = false;
        rest = later;
    }
    out.push(b']')?;
    Ok(())
}

#[cycle(append)]
fn object(members: &[(String, Value)], out: &mut Vec<u8>) -> Result<(), AllocError>
    ensures ok { OnOk result (out.new.items ≡ out.old.items ++ spelling (object (members_view members.now))) }
    ensures front { GoesOn out.old.items out.new.items }
    ensures room { vec_capacity out.old ≤ vec_capacity out.new }
    ensures short { OnErr result (vec_capacity out.old < vec_len out.old + length (spelling (object (members_view members.now)))) }
{
    out.push(b'{')?;
    let mut first = true;
    let mut rest = members;
    'members: while let Some((member, later)) = rest.split_first() {
        comma(first, out)?;
        text(member.0.as_str(), out)?;
        out.push(b':')?;
        value(&member.1, out)?;
        first = false;
        rest = later;
    }
    out.push(b'}')?;
    Ok(())
}

// What stands before a value of a list or a member of an object.
fn comma(first: bool, out: &mut Vec<u8>) -> Result<(), AllocError>
    ensures ok { OnOk result (out.new.items ≡ out.old.items ++ comma_before first) }
    ensures front { GoesOn out.old.items out.new.items }
    ensures room { vec_capacity out.old ≤ vec_capacity out.new }
    ensures short { OnErr result (vec_capacity out.old < vec_len out.old + length (comma_before first)) }
{
    if !first {
        out.push(b',')?;
    }
    Ok(())
}

// A text with its marks.
fn text(text: &str, out: &mut Vec<u8>) -> Result<(), AllocError>
    ensures ok { OnOk result (out.new.items ≡ out.old.items ++ text_spelling text.now) }
    ensures front { GoesOn out.old.items out.new.items }
    ensures room { vec_capacity out.old ≤ vec_capacity out.new }
    ensures short { OnErr result (vec_capacity out.old < vec_len out.old + length (text_spelling text.now)) }
{
    out.push(b'"')?;
    let mut rest = text.as_bytes();
    'bytes: while let Some((b, later)) = rest.split_first() {
        byte(*b, out)?;
        rest = later;
    }
    out.push(b'"')?;
    Ok(())
}

// A byte of a text, after a backslash where it needs one.
fn byte(b: u8, out: &mut Vec<u8>) -> Result<(), AllocError>
    ensures ok { OnOk result (out.new.items ≡ out.old.items ++ byte_spelling b) }
    ensures front { GoesOn out.old.items out.new.items }
    ensures room { vec_capacity out.old ≤ vec_capacity out.new }
    ensures short { OnErr result (vec_capacity out.old < vec_len out.old + length (byte_spelling b)) }
{
    if b == b'"' || b == b'\\' {
        out.push(b'\\')?;
    }
    out.push(b)?;
    Ok(())
}

fn integer(n: i64, out: &mut Vec<u8>) -> Result<(), AllocError>
    ensures ok { OnOk result (out.new.items ≡ out.old.items ++ integer_spelling n) }
    ensures front { GoesOn out.old.items out.new.items }
    ensures room { vec_capacity out.old ≤ vec_capacity out.new }
    ensures short { OnErr result (vec_capacity out.old < vec_len out.old + length (integer_spelling n)) }
{
    if n < 0 {
        out.push(b'-')?;
    }
    digits(n.unsigned_abs(), out)
}

// The decimal digits of a number, the last of them last.
fn digits(n: u64, out: &mut Vec<u8>) -> Result<(), AllocError>
    ensures ok { OnOk result (out.new.items ≡ out.old.items ++ numeral n) }
    ensures front { GoesOn out.old.items out.new.items }
    ensures room { vec_capacity out.old ≤ vec_capacity out.new }
    ensures short { OnErr result (vec_capacity out.old < vec_len out.old + length (numeral n)) }
{
    if n >= 10 {
        digits(n / 10, out)?;
    }
    out.push(b'0' + (n % 10) as u8)?;
    Ok(())
}
