// Keys, key tables and rules as a file spells them (TUF 1.0, section 4.2).
ghost use Rattle.std.specs.Prelude.{◌≡◌, ◌≢◌, ◌↔◌, ℕ, List, length, map, option_map, codes, IsTrue, IfOk, IfErr, IfSome, IfNone, MatchOption, Contains, Some};
ghost use Rattle.std.specs.List.{AllByRecursion};
ghost use Rattle.hex.specs.Hex.{encode_lower};
ghost use Rattle.canonical_json.specs.Spelling.{IsProper};
ghost use Rattle.canonical_json.specs.View.{view, items_view, members_view};
ghost use Rattle.keys_roles.specs.Plain as plain;
ghost use Rattle.keys_roles.specs.Plain.{look_up, lms, hss};
ghost use Rattle.keys_roles.specs.Rules.{AreDistinct};
ghost use Rattle.keys_roles.specs.steps.Counting.{IsIn};
ghost use Rattle.keys_roles.specs.Keys.{id_of};
ghost use Rattle.keys_roles.specs.Views.{id_text, ids_view, key_view, rows_view, rule_view, table_view};
ghost use Rattle.path_patterns.specs.Grammar.{IsHex};
ghost use Rattle.document_parts.specs.steps.Faults.{IsIll, IsMisnamed};
ghost use Rattle.document_parts.specs.Members.{Has, IsArray, IsText, IsNumber, ItemsAre, MembersAre};
ghost use Rattle.document_parts.specs.Parts.{IsKey, AreBytes, IsRow, IsTable, NamesAreIds, NamesAreHex, IsRuleOver, HasRule, top_at, tops_of};
ghost use Rattle.document_parts.specs.steps.Tables.{keyval_object, texts_view, spelled_rows, spelled_table, spelled_rule};

use crate::distinct::are_distinct;
use crate::documents::ShapeFault;
use crate::members::{
    is_text, items_of, member_of, members_of, number_at, one_member, text_of, three_members,
};
use crate::trail::Trail;
use canonical_json::Value;
use keys_roles::{Key, KeyId, KeyTable, NoMemory, RoleRule, key_id, read_digits, top_key};
use path_patterns::{Digest, one_digest};
use std::alloc::Global;

// The most keys of a table.
const MOST_KEYS: usize = 256;

// The most ids of a rule, and the highest threshold.
const MOST_IDS: usize = 16;

/// A key table as a file spells it: its names need not be ids.
#[derive(Drop)]
pub struct SpelledTable {
    pub rows: Vec<(String, Key)>,
}

/// A rule as a file spells it: its ids need not be ids of keys.
#[derive(Drop)]
pub struct SpelledRule {
    pub ids: Vec<String>,
    pub threshold: u8,
}

/// The key that the value is.
pub fn read_key(value: &Value, trail: &mut Trail) -> Option<Key>
    ensures { MatchOption result ((k : plain.Key) → IsKey (view value.now) k → ⊥) (λ k. IsKey (view value.now) (key_view k)) }
{
    let Some((kind, keyval, scheme)) = three_members(value, "keytype", "keyval", "scheme") else {
        return None;
    };
    trail.enter("keytype");
    if !is_text(kind, "lms") {
        return None;
    }
    trail.turn("keyval");
    let digits = read_keyval(keyval)?;
    if is_text(scheme, "lms-sha256") {
        let key = read_lms(digits)?;
        trail.leave();
        return Some(key);
    }
    if is_text(scheme, "hss-sha256") {
        let key = read_hss(digits)?;
        trail.leave();
        return Some(key);
    }
    trail.turn("scheme");
    None
}

// The text that `keyval` holds.
fn read_keyval(value: &Value) -> Option<&str>
    ensures { MatchOption result ((t : List ℕ) → view value.now ≡ keyval_object t → ⊥) (λ t. view value.now ≡ keyval_object t.now) }
{
    let public = one_member(value, "public")?;
    text_of(public)
}

// The LMS key whose 56 bytes the text spells in hex digits of lower case.
fn read_lms(text: &str) -> Option<Key>
    ensures { MatchOption result ((p : List ℕ) → AreBytes 56 p → text.now ≡ encode_lower p → ⊥)
        (λ k. (p : List ℕ) × (key_view k ≡ lms p) × AreBytes 56 p × (text.now ≡ encode_lower p)) }
{
    if text.len() != 112 {
        return None;
    }
    let mut public = [0; 56];
    if read_digits(text.as_bytes(), &mut public) {
        Some(Key::Lms(public))
    } else {
        None
    }
}

// The HSS key whose 60 bytes the text spells in hex digits of lower case.
fn read_hss(text: &str) -> Option<Key>
    ensures { MatchOption result ((p : List ℕ) → AreBytes 60 p → text.now ≡ encode_lower p → ⊥)
        (λ k. (p : List ℕ) × (key_view k ≡ hss p) × AreBytes 60 p × (text.now ≡ encode_lower p)) }
{
    if text.len() != 120 {
        return None;
    }
    let mut public = [0; 60];
    if read_digits(text.as_bytes(), &mut public) {
        Some(Key::Hss(public))
    } else {
        None
    }
}

/// The key table that the value is, whatever its names.
pub fn read_table(
    alloc: Global,
    value: &Value,
    trail: &mut Trail,
) -> Result<SpelledTable, ShapeFault>
    ensures ok { IfOk result (λ t. IsTable (view value.now) (spelled_table t)) }
    ensures err { IfErr result (IsIll ((t : plain.Table) × IsTable (view value.now) t)) }
{
    let Some(members) = members_of(value) else {
        return Err(ShapeFault::WrongShape);
    };
    if members.len() > MOST_KEYS {
        return Err(ShapeFault::WrongShape);
    }
    trail.enter_entries();
    let rows = read_rows(alloc, members, trail)?;
    trail.leave();
    Ok(SpelledTable { rows })
}

fn read_rows(
    alloc: Global,
    members: &[(String, Value)],
    trail: &mut Trail,
) -> Result<Vec<(String, Key)>, ShapeFault>
    ensures ok { IfOk result (λ rows. MembersAre IsRow (members_view members.now) (spelled_rows rows.items)) }
    ensures err { IfErr result (IsIll ((rows : plain.Table) × MembersAre IsRow (members_view members.now) rows)) }
{
    let mut rows = Vec::new(alloc);
    let mut rest = members;
    'members: while let Some((member, later)) = rest.split_first() {
        let Some(key) = read_key(&member.1, trail) else {
            return Err(ShapeFault::WrongShape);
        };
        let name = member.0.clone()?;
        rows.push((name, key))?;
        trail.next();
        rest = later;
    }
    Ok(rows)
}

/// The rule over the table that the object has, its ids under this name.
pub fn read_role_rule(
    alloc: Global,
    value: &Value,
    name: &'static str,
    table: &SpelledTable,
    trail: &mut Trail,
) -> Result<SpelledRule, ShapeFault>
    requires { IsProper (view value.now) }
    ensures ok { IfOk result (λ r. HasRule name.now (view value.now) (spelled_table table.now) (spelled_rule r)) }
    ensures err { IfErr result (IsIll ((r : plain.RoleRule) × HasRule name.now (view value.now) (spelled_table table.now) r)) }
{
    trail.enter("threshold");
    let Some(threshold) = threshold_of(value) else {
        return Err(ShapeFault::WrongShape);
    };
    trail.turn(name);
    let Some(list) = member_of(value, name) else {
        return Err(ShapeFault::WrongShape);
    };
    let ids = read_texts(alloc, list, trail)?;
    let rule = SpelledRule { ids, threshold };
    if is_over(table, &rule) {
        trail.leave();
        Ok(rule)
    } else {
        Err(ShapeFault::WrongShape)
    }
}

// The threshold that the object has.
fn threshold_of(value: &Value) -> Option<u8>
    requires { IsProper (view value.now) }
    ensures { MatchOption result ((n : ℕ) → Has (view value.now) (codes "threshold") (λ x. IsNumber 1 16 x n) → ⊥)
        (λ n. Has (view value.now) (codes "threshold") (λ x. IsNumber 1 16 x n)) }
{
    let number = number_at(value, "threshold", 1, 16)?;
    u8::try_from(number).ok()
}

/// The texts of the list that the value is.
///
/// Errors: `WrongShape` where it is no list of texts, and `OutOfMemory`.
pub fn read_texts(
    alloc: Global,
    value: &Value,
    trail: &mut Trail,
) -> Result<Vec<String>, ShapeFault>
    ensures ok { IfOk result (λ texts. IsArray IsText (view value.now) (texts_view texts.items)) }
    ensures err { IfErr result (IsIll ((texts : List (List ℕ)) × IsArray IsText (view value.now) texts)) }
{
    let Some(items) = items_of(value) else {
        return Err(ShapeFault::WrongShape);
    };
    trail.enter_items();
    let texts = texts_of(alloc, items, trail)?;
    trail.leave();
    Ok(texts)
}

fn texts_of(alloc: Global, items: &[Value], trail: &mut Trail) -> Result<Vec<String>, ShapeFault>
    ensures ok { IfOk result (λ texts. ItemsAre IsText (items_view items.now) (texts_view texts.items)) }
    ensures err { IfErr result (IsIll ((texts : List (List ℕ)) × ItemsAre IsText (items_view items.now) texts)) }
{
    let mut texts = Vec::new(alloc);
    let mut rest = items;
    'items: while let Some((item, later)) = rest.split_first() {
        let Some(text) = text_of(item) else {
            return Err(ShapeFault::WrongShape);
        };
        let text = String::from_str(alloc, text)?;
        texts.push(text)?;
        trail.next();
        rest = later;
    }
    Ok(texts)
}

// Whether the rule is one over the table: some ids, none twice, each a name of the table, no fewer than the threshold, and no two
// that name keys with one top key.
fn is_over(table: &SpelledTable, rule: &SpelledRule) -> bool
    ensures { IsTrue result ↔ (IsRuleOver (spelled_table table.now) (spelled_rule rule.now)) }
{
    let count = rule.ids.len();
    if count == 0 || count > MOST_IDS || usize::from(rule.threshold) > count {
        return false;
    }
    are_distinct(&rule.ids)
        && are_known(&table.rows, &rule.ids)
        && are_apart(&table.rows, &rule.ids)
}

// Whether no two ids name keys with one top key.
fn are_apart(rows: &[(String, Key)], ids: &[String]) -> bool
    ensures { IsTrue result ↔ (AreDistinct (tops_of (spelled_rows rows.now) (texts_view ids.now))) }
{
    let mut rest = ids;
    'ids: while let Some((id, later)) = rest.split_first() {
        if shares_top(rows, id.as_str(), later) {
            return false;
        }
        rest = later;
    }
    true
}

// Whether the text names a key with the top key of one that the ids name.
fn shares_top(rows: &[(String, Key)], text: &str, ids: &[String]) -> bool
    ensures { IsTrue result ↔ ((top : List ℕ) × (top_at (spelled_rows rows.now) text.now ≡ Some top) × IsIn (tops_of (spelled_rows rows.now) (texts_view ids.now)) top) }
{
    match key_named(rows, text) {
        Some(key) => is_top_among(rows, top_key(key), ids),
        None => false,
    }
}

// Whether one of the ids names a key with this top key.
fn is_top_among(rows: &[(String, Key)], top: &[u8; 56], ids: &[String]) -> bool
    ensures { IsTrue result ↔ (IsIn (tops_of (spelled_rows rows.now) (texts_view ids.now)) top.now) }
{
    let mut rest = ids;
    'ids: while let Some((id, later)) = rest.split_first() {
        if names_top(rows, id.as_str(), top) {
            return true;
        }
        rest = later;
    }
    false
}

// Whether the text names a key with this top key.
fn names_top(rows: &[(String, Key)], text: &str, top: &[u8; 56]) -> bool
    ensures { IsTrue result ↔ (top_at (spelled_rows rows.now) text.now ≡ Some top.now) }
{
    match key_named(rows, text) {
        Some(key) => *top_key(key) == *top,
        None => false,
    }
}

// The key that stands first beside the text.
fn key_named<'a>(rows: &'a [(String, Key)], text: &str) -> Option<&'a Key>
    ensures { option_map (λ k. key_view k.now) result ≡ look_up (spelled_rows rows.now) text.now }
{
    let mut rest = rows;
    'rows: while let Some((row, later)) = rest.split_first() {
        if row.0.as_str() == text {
            return Some(&row.1);
        }
        rest = later;
    }
    None
}

// Whether each id is a name of the table.
fn are_known(rows: &[(String, Key)], ids: &[String]) -> bool
    ensures { IsTrue result ↔ (AllByRecursion (Contains (map (λ e. e.0) (spelled_rows rows.now))) (texts_view ids.now)) }
{
    let mut rest = ids;
    'ids: while let Some((id, later)) = rest.split_first() {
        if !is_name(rows, id.as_str()) {
            return false;
        }
        rest = later;
    }
    true
}

// Whether the text is a name of the table.
#[tactic(auto, using(crate::proofs::Elements::contains_in, crate::proofs::Elements::in_contains))]
fn is_name(rows: &[(String, Key)], text: &str) -> bool
    ensures { IsTrue result ↔ (Contains (map (λ e. e.0) (spelled_rows rows.now)) text.now) }
{
    names_row(rows, text)
}

// Whether a row has this name.
fn names_row(rows: &[(String, Key)], text: &str) -> bool
    ensures { IsTrue result ↔ (IsIn (map (λ e. e.0) (spelled_rows rows.now)) text.now) }
{
    let mut rest = rows;
    'rows: while let Some((row, later)) = rest.split_first() {
        if row.0.as_str() == text {
            return true;
        }
        rest = later;
    }
    false
}

/// The key table that an object has under `keys`, where each name is its key's id.
pub fn name_table(
    alloc: Global,
    table: &SpelledTable,
    trail: &mut Trail,
) -> Result<KeyTable, ShapeFault>
    ensures ok { IfOk result (λ t. (table_view t ≡ spelled_table table.now) × NamesAreIds (spelled_table table.now) × NamesAreHex (spelled_table table.now)) }
    ensures err { IfErr result (IsMisnamed (NamesAreIds (spelled_table table.now))) }
{
    trail.enter("keys");
    trail.enter_entries();
    let entries = name_rows(alloc, &table.rows, trail)?;
    trail.leave();
    trail.leave();
    Ok(KeyTable { entries })
}

fn name_rows(
    alloc: Global,
    rows: &[(String, Key)],
    trail: &mut Trail,
) -> Result<Vec<(KeyId, Key)>, ShapeFault>
    ensures ok { IfOk result (λ es. (rows_view es.items ≡ spelled_rows rows.now) × NamesAreIds (spelled_rows rows.now) × NamesAreHex (spelled_rows rows.now)) }
    ensures err { IfErr result (IsMisnamed (NamesAreIds (spelled_rows rows.now))) }
{
    let mut entries = Vec::new(alloc);
    let mut rest = rows;
    'rows: while let Some((row, later)) = rest.split_first() {
        let Some(id) = id_named(alloc, row.0.as_str(), &row.1)? else {
            return Err(ShapeFault::BadKeyId);
        };
        entries.push((id, row.1))?;
        trail.next();
        rest = later;
    }
    Ok(entries)
}

// The id of the key, where the name is its text.
fn id_named(alloc: Global, name: &str, key: &Key) -> Result<Option<KeyId>, NoMemory>
    ensures some { IfOk result (λ o. IfSome o (λ id. (name.now ≡ id_of (key_view key.now)) × (id_text id ≡ name.now) × IsHex 64 name.now)) }
    ensures none { IfOk result (λ o. IfNone o (name.now ≢ id_of (key_view key.now))) }
{
    let id = key_id(alloc, key)?;
    one_digest();
    let digits = Digest(id.0).digits();
    if are_same(name.as_bytes(), &digits) {
        Ok(Some(id))
    } else {
        Ok(None)
    }
}

fn are_same(a: &[u8], b: &[u8]) -> bool
    ensures { IsTrue result ↔ a.now ≡ b.now }
{
    *a == *b
}

/// The rule, where each id is 64 hex digits.
pub fn name_rule(alloc: Global, rule: &SpelledRule) -> Result<RoleRule, ShapeFault>
    ensures ok { IfOk result (λ r. rule_view r ≡ spelled_rule rule.now) }
    ensures err { IfErr result (IsMisnamed (AllByRecursion (IsHex 64) (spelled_rule rule.now).keyids)) }
{
    let keyids = name_ids(alloc, &rule.ids)?;
    Ok(RoleRule {
        keyids,
        threshold: rule.threshold,
    })
}

fn name_ids(alloc: Global, ids: &[String]) -> Result<Vec<KeyId>, ShapeFault>
    ensures ok { IfOk result (λ named. ids_view named.items ≡ texts_view ids.now) }
    ensures err { IfErr result (IsMisnamed (AllByRecursion (IsHex 64) (texts_view ids.now))) }
{
    let mut named = Vec::new(alloc);
    let mut rest = ids;
    'ids: while let Some((id, later)) = rest.split_first() {
        let Some(digest) = Digest::read(id.as_str()) else {
            return Err(ShapeFault::BadKeyId);
        };
        named.push(KeyId(digest.0))?;
        rest = later;
    }
    Ok(named)
}

/// The key table that the object has under `keys`.
pub fn keys_of(alloc: Global, signed: &Value, trail: &mut Trail) -> Result<SpelledTable, ShapeFault>
    requires { IsProper (view signed.now) }
    ensures ok { IfOk result (λ t. Has (view signed.now) (codes "keys") (λ x. IsTable x (spelled_table t))) }
    ensures err { IfErr result (IsIll ((t : plain.Table) × Has (view signed.now) (codes "keys") (λ x. IsTable x t))) }
{
    trail.enter("keys");
    let Some(keys) = member_of(signed, "keys") else {
        return Err(ShapeFault::WrongShape);
    };
    let table = read_table(alloc, keys, trail)?;
    trail.leave();
    Ok(table)
}
