//! The canonical form of any JSON, as `serde_json` reads it.
#![tactic(auto)]

ghost use Rattle.std.specs.Prelude.{◌≡◌, ◌⊎◌, ◌<◌, None, Some, IfOk, IfErr};
ghost use Rattle.canonical_json.specs.Json.{EachItem, depth};
ghost use Rattle.canonical_json.specs.Spelling.{IsProper, IsSound, IsCanonical, max_depth};
ghost use Rattle.canonical_json.specs.View.{view, items_view, members_view};
ghost use Rattle.serde_json.specs.Find.{as_i64};
ghost use Rattle.serde_json.specs.View.{number_view, view as loose_view, items_view as loose_items, members_view as loose_members};
ghost use Rattle.serde_json.specs.Data.{Data};
ghost use Rattle.loose_json.specs.Canon.{Reads, plain, plain_items, plain_members, IsProperObject, IsCanonicalForm, HasNoCanonicalForm};

use canonical_json::{Value, WriteFault, one_spelling, write};
use serde_json::{Map, Number};
use std::alloc::{AllocError, AllocFailed, Global};
use thiserror::Error;

/// Why input has no canonical form.
#[derive(Debug, Clone, Copy, PartialEq, Eq, Error)]
pub enum CanonFault {
    #[error("no canonical form")]
    NotCanonical,
    #[error("out of memory")]
    OutOfMemory,
}

impl<T: Drop> From<AllocFailed<T>> for CanonFault {
    ghost use Rattle.std.specs.Prelude.{◌≡◌};
    ghost use Rattle.loose_json.specs.declared.CanonFault.TheVariants.{OutOfMemory};

    ghost from_gives = { λ _ e. e ≡ OutOfMemory };

    fn from(_: AllocFailed<T>) -> CanonFault {
        CanonFault::OutOfMemory
    }
}

impl From<AllocError> for CanonFault {
    ghost use Rattle.std.specs.Prelude.{◌≡◌};
    ghost use Rattle.loose_json.specs.declared.CanonFault.TheVariants.{OutOfMemory};

    ghost from_gives = { λ _ e. e ≡ OutOfMemory };

    fn from(_: AllocError) -> CanonFault {
        CanonFault::OutOfMemory
    }
}

/// The canonical form of the JSON that `serde_json` reads from the bytes, names in order. `NotCanonical` is answered
/// where `serde_json` reads nothing, where it gives a number that is no `i64`, and where more than 32 lists and objects
/// stand inside one another. Of two members of one name it gives the later.
pub fn canon(alloc: Global, bytes: &[u8]) -> Result<Vec<u8>, CanonFault>
    ensures form { IfOk result (λ out. IsCanonicalForm bytes.now out.items) }
    ensures fault { IfErr result (λ e. (e ≡ CanonFault.OutOfMemory)
        ⊎ ((e ≡ CanonFault.NotCanonical) × HasNoCanonicalForm bytes.now)) }
{
    let loose = loose_value(alloc, bytes)?;
    let value = plain_value(alloc, &loose)?;
    spelled(alloc, &value)
}

// What `serde_json` reads.
fn loose_value(alloc: Global, bytes: &[u8]) -> Result<serde_json::Value, CanonFault>
    ensures value { IfOk result (λ v. Reads bytes.now (loose_view v)) }
    ensures fault { IfErr result (λ e. (e ≡ CanonFault.OutOfMemory)
        ⊎ ((e ≡ CanonFault.NotCanonical) × ((given : Data) → Reads bytes.now given → ⊥))) }
{
    match serde_json::Value::from_slice(alloc, bytes) {
        Ok(loose) => Ok(loose),
        Err(e) => {
            if e.is_memory() {
                Err(CanonFault::OutOfMemory)
            } else {
                Err(CanonFault::NotCanonical)
            }
        }
    }
}

// The canonical text of a value whose names are in order: only nesting can forbid it.
fn spelled(alloc: Global, value: &Value) -> Result<Vec<u8>, CanonFault>
    ensures text { IfOk result (λ out. IsCanonical (view value.now) out.items) }
    ensures fault { IfErr result (λ e. (e ≡ CanonFault.OutOfMemory)
        ⊎ ((e ≡ CanonFault.NotCanonical) × (IsProper (view value.now) → max_depth < depth (view value.now)))) }
{
    one_spelling();
    let mut out = Vec::new(alloc);
    match write(value, &mut out) {
        Ok(()) => Ok(out),
        Err(WriteFault::OutOfMemory) => Err(CanonFault::OutOfMemory),
        Err(WriteFault::TooDeep | WriteFault::Unordered) => Err(CanonFault::NotCanonical),
    }
}

// The same value without fractions.
#[cycle(plain)]
fn plain_value(alloc: Global, loose: &serde_json::Value) -> Result<Value, CanonFault>
    ensures value { IfOk result (λ v. plain (loose_view loose.now) ≡ Some (view v)) }
    ensures proper { IfOk result (λ v. IsProper (view v)) }
    ensures fault { IfErr result (λ e. (e ≡ CanonFault.OutOfMemory)
        ⊎ ((e ≡ CanonFault.NotCanonical) × (plain (loose_view loose.now) ≡ None))) }
{
    match loose {
        serde_json::Value::Null => Ok(Value::Null),
        serde_json::Value::Bool(b) => Ok(Value::Bool(*b)),
        serde_json::Value::Number(n) => Ok(Value::Int(integer_of(n)?)),
        serde_json::Value::String(text) => Ok(Value::Text(text.clone()?)),
        serde_json::Value::Array(items) => Ok(Value::List(list(alloc, items)?)),
        serde_json::Value::Object(members) => Ok(Value::Object(object(alloc, members)?)),
    }
}

fn integer_of(n: &Number) -> Result<i64, CanonFault>
    ensures value { IfOk result (λ i. as_i64 (number_view n.now) ≡ Some i) }
    ensures fault { IfErr result (λ e. (e ≡ CanonFault.NotCanonical) × (as_i64 (number_view n.now) ≡ None)) }
{
    match n.as_i64() {
        Some(i) => Ok(i),
        None => Err(CanonFault::NotCanonical),
    }
}

#[cycle(plain)]
fn list(alloc: Global, items: &[serde_json::Value]) -> Result<Vec<Value>, CanonFault>
    ensures value { IfOk result (λ vs. plain_items (loose_items items.now) ≡ Some (items_view vs.items)) }
    ensures proper { IfOk result (λ vs. EachItem IsSound (items_view vs.items)) }
    ensures fault { IfErr result (λ e. (e ≡ CanonFault.OutOfMemory)
        ⊎ ((e ≡ CanonFault.NotCanonical) × (plain_items (loose_items items.now) ≡ None))) }
{
    let mut found = Vec::new(alloc);
    let mut rest = items;
    'items: while let Some((item, later)) = rest.split_first() {
        let value = plain_value(alloc, item)?;
        found.push(value)?;
        rest = later;
    }
    Ok(found)
}

#[cycle(plain)]
fn object(
    alloc: Global,
    members: &Map<String, serde_json::Value>,
) -> Result<Vec<(String, Value)>, CanonFault>
    ensures value { IfOk result (λ ms. plain_members (loose_members members.now.entries) ≡ Some (members_view ms.items)) }
    ensures proper { IfOk result (λ ms. IsProperObject (members_view ms.items)) }
    ensures fault { IfErr result (λ e. (e ≡ CanonFault.OutOfMemory)
        ⊎ ((e ≡ CanonFault.NotCanonical) × (plain_members (loose_members members.now.entries) ≡ None))) }
{
    let mut found = Vec::new(alloc);
    for (name, member) in members.iter() {
        let value = plain_value(alloc, member)?;
        let name = name.clone()?;
        found.push((name, value))?;
    }
    Ok(found)
}
