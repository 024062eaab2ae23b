//! Canonical JSON (OLPC wiki, "Canonical JSON"; TUF 1.0, section 4.1, names it): a value has one spelling, and only
//! that is read.
//!
//! Values are those of RFC 8259, section 3, without fractions and exponents. Their spelling:
//!
//! - No white space stands outside texts, and nothing stands before or after the value.
//! - An integer has no plus sign, no leading zero and no minus zero.
//! - A text is UTF-8 between quotation marks. A quotation mark and a backslash stand after a backslash. Every other
//!   character stands for itself, line feeds and other control characters too (RFC 8259, section 7, would escape them).
//!   There is no other escape.
//! - The names of an object rise strictly in the order of their UTF-8 bytes, so no name stands twice.
//!
//! Limits: an integer is one of 64 bits with a sign (`i64`), and at most 32 lists and objects stand inside one another.
#![tactic(auto)]

ghost use Rattle.std.specs.Prelude.{◌≡◌, ◌⊎◌, ◌+◌, ◌≤◌, ◌<◌, ◌++◌, ℕ, List, [], length, None, Some, Option, IfOk, IfErr, IfSome, IsSome, OnOk, OnErr, vec_len, vec_capacity};
ghost use Rattle.canonical_json.specs.Json.{Json, HasMember, Everywhere, depth};
ghost use Rattle.canonical_json.specs.Spelling.{spelling, member_front, max_depth, IsCanonical, IsProper, IsOfCode};
ghost use Rattle.canonical_json.specs.Faults.{IsLongestBeginning, IsReadFault, GoesOnInDigits, write_fault};
ghost use Rattle.canonical_json.specs.View.{view};
ghost use Rattle.canonical_json.specs.declared.ReadFault.{ReadFault};

// So many lists and objects may stand inside one another.
const MAX_DEPTH: usize = 32;

mod members;
mod reader;
mod texts;
mod write_faults;
mod writer;

use std::alloc::{AllocError, AllocFailed, Global};
use thiserror::Error;

/// A JSON value (RFC 8259, section 3), which owns its texts. Not every one can be written: see `WriteFault`.
#[derive(Debug, Drop)]
pub enum Value {
    /// `null`
    Null,
    /// `true` or `false`
    Bool(bool),
    /// A number (RFC 8259, section 6) with no fraction and no exponent.
    Int(i64),
    /// A string (RFC 8259, section 7), without its marks and escapes.
    Text(String),
    /// The values of an array (RFC 8259, section 5), in order.
    List(Vec<Value>),
    /// The members of an object (RFC 8259, section 4), each a name and a value, in the order in which they are spelled.
    Object(Vec<(String, Value)>),
}

/// Why bytes are not read. Where they have several faults, the first one from left to right decides.
#[derive(Debug, Clone, Copy, PartialEq, Eq, Error)]
pub enum ReadFault {
    /// The bytes so far begin no spelling, whatever the limits, or they end too early.
    #[error("not canonical JSON")]
    NotCanonical,
    /// A bracket or a brace opens a list or an object inside 32 others.
    #[error("more than 32 levels of nesting")]
    TooDeep,
    /// A digit takes an integer out of the range of `i64`.
    #[error("integer out of range")]
    IntegerRange,
    /// Memory was refused. It says nothing of the bytes.
    #[error("out of memory")]
    OutOfMemory,
}

/// Refused memory is `OutOfMemory`, and what could not be stored is dropped.
impl From<AllocError> for ReadFault {
    ghost use Rattle.std.specs.Prelude.{◌≡◌};
    ghost use Rattle.canonical_json.specs.declared.ReadFault.TheVariants.{OutOfMemory};

    ghost from_gives = { λ _ e. e ≡ OutOfMemory };

    fn from(_: AllocError) -> Self {
        ReadFault::OutOfMemory
    }
}

impl<T: Drop> From<AllocFailed<T>> for ReadFault {
    ghost use Rattle.std.specs.Prelude.{◌≡◌};
    ghost use Rattle.canonical_json.specs.declared.ReadFault.TheVariants.{OutOfMemory};

    ghost from_gives = { λ _ e. e ≡ OutOfMemory };

    fn from(_: AllocFailed<T>) -> Self {
        ReadFault::OutOfMemory
    }
}

/// Why a value is not written. Where it has several faults, the first one in the order of its text decides.
#[derive(Debug, Clone, Copy, PartialEq, Eq, Error)]
pub enum WriteFault {
    /// A list or an object stands inside 32 others.
    #[error("more than 32 levels of nesting")]
    TooDeep,
    /// The name of a member does not stand after the name before it, in the order of their UTF-8 bytes: it is the same
    /// or a lesser one.
    #[error("member names out of order")]
    Unordered,
    /// Memory was refused. The value could be written otherwise.
    #[error("out of memory")]
    OutOfMemory,
}

/// The value of which the bytes are the one spelling.
///
/// It takes time linear in the number of bytes, memory linear in it, and a stack for 32 levels.
pub fn read(alloc: Global, bytes: &[u8]) -> Result<Value, ReadFault>
    ensures value { IfOk result (λ v. IsCanonical (view v) bytes.now) }
    ensures fault { IfErr result (λ e. (e ≡ ReadFault.OutOfMemory) ⊎ IsReadFault bytes.now e) }
{
    reader::whole(alloc, bytes)
}

/// Appends the spelling of the value. On an error the output is as it was: a value that has no spelling is refused before
/// anything is written, and where memory is refused in the middle, the output is cut back. `OutOfMemory`: the output had no
/// room for the spelling and could not grow, so with room enough the one error is the value's own.
///
/// It takes time linear in the length of the spelling. The one memory that it asks for is room in the output.
pub fn write(value: &Value, out: &mut Vec<u8>) -> Result<(), WriteFault>
    ensures ok { OnOk result (IsCanonical (view value.now) (spelling (view value.now))
        × (out.new.items ≡ out.old.items ++ spelling (view value.now))) }
    ensures fault { IfErr result (λ e. ((e ≡ WriteFault.OutOfMemory) × ((write_fault (view value.now) ≡ None)
        × (vec_capacity out.old < vec_len out.old + length (spelling (view value.now)))))
        ⊎ (write_fault (view value.now) ≡ Some e)) }
    ensures unchanged { OnErr result (out.new.items ≡ out.old.items) }
{
    if let Some(fault) = write_faults::value_fault(value, 0) {
        return Err(fault);
    }
    let before = out.len();
    match writer::value(value, out) {
        Ok(()) => Ok(()),
        Err(_) => {
            out.truncate(before);
            Err(WriteFault::OutOfMemory)
        }
    }
}

/// The slice of the bytes that spells the value of the named member of the outermost object, for bytes that `read`
/// accepts, and `None` where there is no such member or the outermost value is no object. Members of objects further
/// inside do not count. The name is given without marks and escapes.
///
/// Bytes that `read` refuses may be asked too: the answer is then `None` or some part that stands after such a name.
///
/// It takes no memory, and time linear in the number of bytes.
pub fn member<'a>(bytes: &'a [u8], name: &str) -> Option<&'a [u8]>
    ensures found { (v : Json) → IsCanonical v bytes.now
        → IfSome result (λ s. (x : Json) × HasMember v name.now x × (s.now ≡ spelling x)) }
    ensures none { (v x : Json) → IsCanonical v bytes.now → HasMember v name.now x → IsSome result }
    ensures place { IfSome result (λ s. (front back : List ℕ)
        × (bytes.now ≡ front ++ (member_front name.now ++ (s.now ++ back)))) }
{
    members::find(bytes, name)
}

/// A law, which does nothing: some beginning of the bytes is the longest that a canonical text begins with.
pub fn longest_beginning()
    ensures { (bytes : List ℕ) → (place : ℕ) × IsLongestBeginning bytes place }
{}

/// A law, which does nothing: bytes are a canonical text, or they have exactly one fault.
pub fn one_fault()
    ensures one { (bytes : List ℕ) (e f : ReadFault) → IsReadFault bytes e → IsReadFault bytes f → e ≡ f }
    ensures some { (bytes : List ℕ) → ((v : Json) × IsCanonical v bytes) ⊎ ((e : ReadFault) × IsReadFault bytes e) }
{}

/// A law, which does nothing: a canonical text has one value, and a value one canonical text. A value of the code has
/// one exactly where `write` finds no fault; it is then what `read` answers for that text. Nothing may be put after a
/// canonical text but further digits after an integer.
pub fn one_spelling()
    ensures one_value { (v w : Json) (bytes : List ℕ) → IsCanonical v bytes → IsCanonical w bytes → v ≡ w }
    ensures one_text { (v : Json) (a b : List ℕ) → IsCanonical v a → IsCanonical v b → a ≡ b }
    ensures written { (v : Json) → Everywhere IsOfCode v → write_fault v ≡ None → IsCanonical v (spelling v) }
    ensures writable { (v : Json) → IsProper v → depth v ≤ max_depth → write_fault v ≡ None }
    ensures appended { (v w : Json) (bytes more : List ℕ) → IsCanonical v bytes → IsCanonical w (bytes ++ more)
        → (more ≡ []) ⊎ GoesOnInDigits v more }
{}
