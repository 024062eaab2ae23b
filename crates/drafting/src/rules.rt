//! Rules of roles that a description says, and their keys.
ghost use Rattle.std.specs.Prelude.{◌≡◌, IfOk, OnOk, string_bytes};
ghost use Rattle.canonical_json.specs.Json.{array};
ghost use Rattle.canonical_json.specs.View.{view, items_of};
ghost use Rattle.keys_roles.specs.Keys.{id_of, key_object as key_json};
ghost use Rattle.keys_roles.specs.Views.{key_view};
ghost use Rattle.drafting.specs.Roots.{ids_of, rule_object};
ghost use Rattle.drafting.specs.steps.Rules.{keyed, keys_view, keyval, rule_view};

use crate::members::{number_value, text_value};
use canonical_json::Value;
use keys_roles::{Key, key_id};
use metadata::Digest;
use std::alloc::{AllocError, Global};

/// A key, with a name of it for people: `names` has it, and it decides nothing.
#[derive(Drop)]
pub struct NamedKey {
    pub key: Key,
    pub name: String,
}

/// How many of which keys must sign (TUF 1.0, section 4.3, KEYID and THRESHOLD).
#[derive(Clone, Copy)]
pub struct Rule<'a> {
    pub threshold: u8,
    pub keys: &'a [NamedKey],
}

/// The id of a key, as 64 hex digits.
pub(crate) fn id_text(alloc: Global, key: &Key) -> Result<String, AllocError>
    ensures { IfOk result (λ t. string_bytes t ≡ id_of (key_view key.now)) }
{
    let id = key_id(alloc, key)?;
    Digest::new(id.0).text(alloc)
}

/// {"keyids":[..],"threshold":..}
pub(crate) fn rule_value(alloc: Global, rule: &Rule<'_>) -> Result<Value, AllocError>
    ensures { IfOk result (λ v. view v ≡ rule_object (rule_view rule.now)) }
{
    let mut members = Vec::new(alloc);
    let name = String::from_str(alloc, "keyids")?;
    let ids = ids_value(alloc, rule.keys)?;
    members.push((name, ids))?;
    let name = String::from_str(alloc, "threshold")?;
    members.push((name, number_value(u32::from(rule.threshold))))?;
    Ok(Value::Object(members))
}

/// The ids of the keys.
pub fn ids_value(alloc: Global, keys: &[NamedKey]) -> Result<Value, AllocError>
    ensures { IfOk result (λ v. view v ≡ array (items_of (ids_of (keys_view keys.now)))) }
{
    let mut ids = Vec::new(alloc);
    let mut rest = keys;
    'keys: while let Some((key, later)) = rest.split_first() {
        let id = id_text(alloc, &key.key)?;
        ids.push(Value::Text(id))?;
        rest = later;
    }
    Ok(Value::List(ids))
}

/// The key as it stands in a key table.
pub(crate) fn key_value(alloc: Global, key: &Key) -> Result<Value, AllocError>
    ensures { IfOk result (λ v. view v ≡ key_json (key_view key.now)) }
{
    match key {
        Key::Lms(public) => key_of(alloc, public, "lms-sha256"),
        Key::Hss(public) => key_of(alloc, public, "hss-sha256"),
    }
}

// {"keytype":"lms","keyval":{"public":..},"scheme":..}
fn key_of(alloc: Global, public: &[u8], scheme: &str) -> Result<Value, AllocError>
    ensures { IfOk result (λ v. view v ≡ keyed public.now scheme.now) }
{
    let mut members = Vec::new(alloc);
    let name = String::from_str(alloc, "keytype")?;
    let value = text_value(alloc, "lms")?;
    members.push((name, value))?;
    let name = String::from_str(alloc, "keyval")?;
    let value = keyval_of(alloc, public)?;
    members.push((name, value))?;
    let name = String::from_str(alloc, "scheme")?;
    let value = text_value(alloc, scheme)?;
    members.push((name, value))?;
    Ok(Value::Object(members))
}

// {"public":..}
fn keyval_of(alloc: Global, public: &[u8]) -> Result<Value, AllocError>
    ensures { IfOk result (λ v. view v ≡ keyval public.now) }
{
    let mut members = Vec::new(alloc);
    let name = String::from_str(alloc, "public")?;
    let digits = hex::encode(alloc, public)?;
    members.push((name, Value::Text(digits)))?;
    Ok(Value::Object(members))
}
