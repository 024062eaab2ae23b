use canonical_json::{ReadFault, Value, WriteFault, member, read, write};
use std::alloc::{AllocError, Global};
use std::process::Abort;
use std::test::Fail;

fn written(alloc: Global, value: &Value) -> Result<Vec<u8>, WriteFault> {
    let mut out = Vec::new(alloc);
    write(value, &mut out)?;
    Ok(out)
}

fn object(alloc: Global, members: [(&str, Value); 2]) -> Result<Value, AllocError> {
    let mut found = Vec::with_capacity(alloc, 2)?;
    for (name, value) in members {
        found.push((String::from_str(alloc, name)?, value))?;
    }
    Ok(Value::Object(found))
}

// The value inside so many lists and objects.
fn wrapped(alloc: Global, inner: Value, levels: usize) -> Result<Value, AllocError> {
    let mut value = inner;
    for level in 0..levels {
        value = if level % 2 == 0 {
            Value::List(vec![in alloc; value]?)
        } else {
            Value::Object(vec![in alloc; (String::from_str(alloc, "a")?, value)]?)
        };
    }
    Ok(value)
}

#[test]
fn writes_names_in_order(rt: HostRuntime) -> Result<(), Fail> {
    let alloc = rt.alloc();
    let text = Value::Text(String::from_str(alloc, "x\"y")?);
    let out = written(alloc, &object(alloc, [("a", text), ("b", Value::Int(1))])?)?;
    assert!(rt; out.as_slice() == br#"{"a":"x\"y","b":1}"#.as_slice());
    assert_eq!(rt; out.len(), 18);
    for (first, second, fault) in [
        ("a", "b", None),
        ("b", "a", Some(WriteFault::Unordered)),
        ("a", "a", Some(WriteFault::Unordered)),
        ("", "", Some(WriteFault::Unordered)),
        ("", "a", None),
        ("a", "aa", None),
        ("aa", "a", Some(WriteFault::Unordered)),
        ("z", "\u{e9}", None),
        ("\u{e9}", "z", Some(WriteFault::Unordered)),
        ("\u{ffff}", "\u{10000}", None),
        ("!", "\"", None),
        ("[", "\\", None),
        ("\\", "]", None),
    ] {
        let value = object(alloc, [(first, Value::Null), (second, Value::Null)])?;
        assert!(rt; written(alloc, &value).err() == fault, "{first} {second}");
    }
    Ok(())
}

fn unordered(alloc: Global) -> Result<Value, AllocError> {
    object(alloc, [("b", Value::Null), ("a", Value::Null)])
}

fn deep(alloc: Global) -> Result<Value, AllocError> {
    wrapped(alloc, Value::Null, 33)
}

fn refuses(
    rt: &(impl Abort + AllocGlobal),
    value: Result<Value, AllocError>,
    fault: WriteFault,
) -> Result<(), Fail> {
    let value = value?;
    let mut out = Vec::new(rt.alloc());
    out.push(b'>')?;
    assert!(rt; write(&value, &mut out) == Err(fault));
    assert!(rt; out.as_slice() == b">".as_slice());
    Ok(())
}

fn two_items(alloc: Global, first: Value, second: Value) -> Result<Value, AllocError> {
    Ok(Value::List(vec![in alloc; first, second]?))
}

// Each value has a fault, or two, of which the one that stands first in the text decides.
#[test]
fn refuses_before_it_writes(rt: HostRuntime) -> Result<(), Fail> {
    let alloc = rt.alloc();
    refuses(&rt, deep(alloc), WriteFault::TooDeep)?;
    refuses(
        &rt,
        wrapped(alloc, unordered(alloc)?, 31),
        WriteFault::Unordered,
    )?;
    refuses(
        &rt,
        wrapped(alloc, unordered(alloc)?, 32),
        WriteFault::TooDeep,
    )?;
    let deep_first = object(alloc, [("b", deep(alloc)?), ("a", Value::Null)]);
    refuses(&rt, deep_first, WriteFault::TooDeep)?;
    let deep_last = object(alloc, [("b", Value::Null), ("a", deep(alloc)?)]);
    refuses(&rt, deep_last, WriteFault::Unordered)
}

#[test]
fn refuses_the_first_fault_of_a_list(rt: HostRuntime) -> Result<(), Fail> {
    let alloc = rt.alloc();
    let deep_first = two_items(alloc, deep(alloc)?, unordered(alloc)?);
    refuses(&rt, deep_first, WriteFault::TooDeep)?;
    let deep_last = two_items(alloc, unordered(alloc)?, deep(alloc)?);
    refuses(&rt, deep_last, WriteFault::Unordered)
}

#[test]
fn lends_the_member(rt: HostRuntime) {
    let text = r#"{"":[{"b":1},",}"],"a":-12,"b":{"a":[]},"b\"":"b","c":null}"#;
    for (name, from, to) in [
        ("", 4, 18),
        ("a", 23, 26),
        ("b", 31, 39),
        ("b\"", 46, 49),
        ("c", 54, 58),
    ] {
        let place = &text.as_bytes()[from..to];
        assert!(rt; member(text.as_bytes(), name) == Some(place), "{name}");
    }
    for name in ["d", "b\\", "1", "bb", "\"", "B"] {
        assert!(rt; member(text.as_bytes(), name).is_none(), "{name}");
    }
    for text in [
        "{}",
        "[]",
        "1",
        r#""a""#,
        r#"[{"a":1}]"#,
        r#"{"b":{"a":1}}"#,
    ] {
        assert!(rt; member(text.as_bytes(), "a").is_none(), "{text}");
    }
}

#[test]
fn has_messages(rt: HostRuntime) -> Result<(), Fail> {
    for (fault, message) in [
        (ReadFault::NotCanonical, "not canonical JSON"),
        (ReadFault::TooDeep, "more than 32 levels of nesting"),
        (ReadFault::IntegerRange, "integer out of range"),
        (ReadFault::OutOfMemory, "out of memory"),
    ] {
        assert!(rt; fault.to_string(rt.alloc())?.as_str() == message);
    }
    for (fault, message) in [
        (WriteFault::TooDeep, "more than 32 levels of nesting"),
        (WriteFault::Unordered, "member names out of order"),
        (WriteFault::OutOfMemory, "out of memory"),
    ] {
        assert!(rt; fault.to_string(rt.alloc())?.as_str() == message);
    }
    Ok(())
}
