// What is known of a file's signatures, and what is found out of them.
ghost use Rattle.std.specs.Prelude.{◌≡◌, ◌↔◌, ◌⊎◌, ◌+◌, ◌-◌, ◌<◌, ◌≤◌, ◌^◌, cond, find, map, option_map, Contains, IfOk, IsTrue};
ghost use Rattle.keys_roles.specs.Rules.{AreDistinct, SpellsSignature};
ghost use Rattle.keys_roles.specs.Verdicts.{AreVerdicts, Pair, TakesPair, is_known, named_key, pairs, same_key, same_pair, unknown};
ghost use Rattle.keys_roles.specs.steps.Counting.{TellOf};
ghost use Rattle.keys_roles.specs.Views.{entries_view, entry_view, id_text, key_view, rule_view, table_view, verdict_view, verdict_views};

use crate::digits::digits_verify;
use crate::ids::{is_listed, key_of};
use crate::{Key, KeyId, KeyTable, RoleRule, Signature, Verdict};
use lms::Steps;
use std::alloc::AllocError;

/// Verdicts on a file with those under one more rule: one on each listed signature whose id stands in the rule and names a key
/// in the table, where they have none on it yet. What is known already is not checked again: one tick for each signature check,
/// at most one for each such signature of which nothing is known.
///
/// Errors: no memory, where it is refused for a verdict.
pub fn with_verdicts(
    verdicts: Vec<Verdict>,
    rule: &RoleRule,
    table: &KeyTable,
    signed: &[u8],
    signatures: &[Signature],
    known: &[Verdict],
    steps: &mut Steps,
) -> Result<Vec<Verdict>, AllocError>
    requires room { steps.old < 2 ^ 63 }
    requires known { AreVerdicts signed.now (entries_view signatures.now) (verdict_views known.now) }
    requires sound { AreVerdicts signed.now (entries_view signatures.now) (verdict_views verdicts.items) }
    requires distinct { AreDistinct (map (λ v. v.pair) (verdict_views verdicts.items)) }
    ensures all { IfOk result (λ vs. (p : Pair) → IsTrue (is_known (verdict_views vs.items) p) ↔ (IsTrue (is_known (verdict_views verdicts.items) p) ⊎ (Contains (pairs (rule_view rule.now) (table_view table.now) (entries_view signatures.now)) p))) }
    ensures sound { IfOk result (λ vs. AreVerdicts signed.now (entries_view signatures.now) (verdict_views vs.items)) }
    ensures distinct { IfOk result (λ vs. AreDistinct (map (λ v. v.pair) (verdict_views vs.items))) }
    ensures grows { steps.old ≤ steps.new }
    ensures unknown { steps.new ≤ steps.old + unknown (verdict_views known.now) (pairs (rule_view rule.now) (table_view table.now) (entries_view signatures.now)) }
{
    let mut verdicts = verdicts;
    let mut place = 0usize;
    let mut rest = signatures;
    'entries: while let Some((entry, later)) = rest.split_first() {
        if let Some(key) = named(rule, table, &entry.keyid) {
            if !is_held(&verdicts, place, key) {
                let verifies = verdict(key, signed, place, entry, known, steps);
                verdicts.push(Verdict {
                    place,
                    key: *key,
                    verifies,
                })?;
            }
        }
        rest = later;
        place += 1;
    }
    Ok(verdicts)
}

// Whether something is known of the signature at this place with the key.
fn is_held(verdicts: &[Verdict], place: usize, key: &Key) -> bool
    ensures { result ≡ is_known (verdict_views verdicts.now) (place, key_view key.now) }
{
    match held(verdicts, place, key) {
        Some(_) => true,
        None => false,
    }
}

/// The key that an id of the rule names in the table.
pub(crate) fn named<'a>(rule: &RoleRule, table: &'a KeyTable, id: &KeyId) -> Option<&'a Key>
    ensures { option_map (λ k. key_view k.now) result ≡ named_key (rule_view rule.now) (table_view table.now) (id_text id.now) }
{
    if is_listed(&rule.keyids, id) {
        key_of(&table.entries, id)
    } else {
        None
    }
}

/// Whether the signature at this place verifies under the key: as it is known, or by a check, with one tick.
pub(crate) fn verdict(
    key: &Key,
    signed: &[u8],
    place: usize,
    entry: &Signature,
    known: &[Verdict],
    steps: &mut Steps,
) -> bool
    requires sound { TellOf signed.now place (entry_view entry.now) (verdict_views known.now) }
    requires room { steps.old + 1 < 2 ^ 64 }
    ensures told { IsTrue result ↔ (SpellsSignature (key_view key.now) signed.now (entry_view entry.now).sig) }
    ensures counted { TakesPair (is_known (verdict_views known.now) (place, key_view key.now)) (entry_view entry.now).sig (steps.new - steps.old) }
    ensures grows { steps.old ≤ steps.new }
    ensures most { steps.new ≤ steps.old + cond (is_known (verdict_views known.now) (place, key_view key.now)) 0 1 }
{
    match held(known, place, key) {
        Some(known) => known.verifies,
        None => digits_verify(key, signed, entry.sig.as_bytes(), steps),
    }
}

// What is known of the signature at this place with the key.
fn held<'a>(known: &'a [Verdict], place: usize, key: &Key) -> Option<&'a Verdict>
    ensures { option_map (λ v. verdict_view v.now) result ≡ find (λ v. same_pair v.pair (place, key_view key.now)) (verdict_views known.now) }
{
    let mut rest = known;
    'known: while let Some((first, later)) = rest.split_first() {
        if is_of(first, place, key) {
            return Some(first);
        }
        rest = later;
    }
    None
}

// Whether the verdict is one on the signature at this place with the key.
fn is_of(verdict: &Verdict, place: usize, key: &Key) -> bool
    ensures { result ≡ same_pair (verdict_view verdict.now).pair (place, key_view key.now) }
{
    verdict.place == place && same_public(&verdict.key, key)
}

// Whether the public keys are one.
fn same_public(a: &Key, b: &Key) -> bool
    ensures { result ≡ same_key (key_view a.now) (key_view b.now) }
{
    match (a, b) {
        (Key::Lms(a), Key::Lms(b)) => *a == *b,
        (Key::Hss(a), Key::Hss(b)) => *a == *b,
        (Key::Lms(_), Key::Hss(_)) | (Key::Hss(_), Key::Lms(_)) => false,
    }
}
