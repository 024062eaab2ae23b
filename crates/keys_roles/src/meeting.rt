// When a rule of keys and a threshold is met (TUF 1.0, sections 4.2 and 5).
ghost use Rattle.std.specs.Prelude.{◌≡◌, ◌↔◌, ◌⊎◌, ◌∷◌, [], ◌++◌, ◌+◌, ◌-◌, ◌<◌, ◌≤◌, ◌^◌, List, ℕ, Some, length, take, IsTrue, IfOk, IfSome, OnErr};
ghost use Rattle.keys_roles.specs.Rules.{HaveSigned, Meets};
ghost use Rattle.keys_roles.specs.Verdicts.{AreVerdicts, TakesChecks, TakesEntry, named_key, pairs, unknown, with_pair};
ghost use Rattle.keys_roles.specs.steps.Counting.{AreChecked, AreCounted, IsIn, CountsBy, IsTaken, TellOf};
ghost use Rattle.keys_roles.specs.Views.{rule_view, table_view, entry_view, entries_view, verdict_views};

use crate::ids::top_key;
use crate::verdicts::{named, verdict};
use crate::{KeyTable, NoMemory, RoleRule, Signature, Verdict};
use lms::Steps;
use std::alloc::Global;

// The most keys that a document's threshold asks for, which is the most signatures that a document has, and the most keys that any
// threshold does.
const USUAL: usize = 16;

const MOST: usize = 255;

/// Whether the rule is met: as many distinct public keys as its threshold, each the table's key of an id of the rule,
/// have a listed signature by that id that verifies over the signed bytes (TUF 1.0, sections 4.2 and 5). It takes no
/// memory.
pub fn meets(rule: &RoleRule, table: &KeyTable, signed: &[u8], signatures: &[Signature]) -> bool
    ensures { IsTrue result ↔ (Meets (rule_view rule.now) (table_view table.now) signed.now (entries_view signatures.now)) }
{
    meets_counted(rule, table, signed, signatures, &mut Steps::new())
}

/// The same, with one tick for each signature check.
pub fn meets_counted(
    rule: &RoleRule,
    table: &KeyTable,
    signed: &[u8],
    signatures: &[Signature],
    steps: &mut Steps,
) -> bool
    requires { steps.old < 2 ^ 63 }
    ensures met { IsTrue result ↔ (Meets (rule_view rule.now) (table_view table.now) signed.now (entries_view signatures.now)) }
    ensures grows { steps.old ≤ steps.new }
    ensures checked { (n : ℕ) × (TakesChecks (rule_view rule.now) (table_view table.now) [] 0 (take n (entries_view signatures.now)) (steps.new - steps.old))
        × ((length signatures.now ≤ n) ⊎ (Meets (rule_view rule.now) (table_view table.now) signed.now (take n (entries_view signatures.now)))) }
    ensures most { steps.new ≤ steps.old + length signatures.now }
{
    meets_with_counted(rule, table, signed, signatures, &[], steps)
}

/// How many keys of the rule have signed: the public keys that `meets` compares with the threshold, each once.
///
/// Errors: `NoMemory`, where it is refused for a public key a signature. Up to 16 signatures take none.
pub fn signed_count(
    alloc: Global,
    rule: &RoleRule,
    table: &KeyTable,
    signed: &[u8],
    signatures: &[Signature],
) -> Result<usize, NoMemory>
    ensures signed { IfOk result (λ count. HaveSigned (rule_view rule.now) (table_view table.now) signed.now (entries_view signatures.now) count) }
    ensures memory { OnErr result (16 < length signatures.now) }
{
    let most = signatures.len();
    if most <= USUAL {
        return Ok(count_in(
            rule,
            table,
            signed,
            signatures,
            &[],
            &mut [[0; 56]; USUAL],
            most,
            &mut Steps::new(),
        ));
    }
    let mut tops = vec![in alloc; [0; 56]; most]?;
    Ok(count_in(
        rule,
        table,
        signed,
        signatures,
        &[],
        &mut tops,
        most,
        &mut Steps::new(),
    ))
}

/// The same as `meets`, where something is known of some of the signatures: what a verdict says of one is not checked again. It
/// takes no memory.
pub fn meets_with(
    rule: &RoleRule,
    table: &KeyTable,
    signed: &[u8],
    signatures: &[Signature],
    known: &[Verdict],
) -> bool
    requires { AreVerdicts signed.now (entries_view signatures.now) (verdict_views known.now) }
    ensures { IsTrue result ↔ (Meets (rule_view rule.now) (table_view table.now) signed.now (entries_view signatures.now)) }
{
    meets_with_counted(rule, table, signed, signatures, known, &mut Steps::new())
}

/// The same, with one tick for each signature check: one for each listed signature whose id names a key in the rule, of which
/// nothing is known with this key, and whose digits are those of bytes that may be a signature, and none for any other. It ends
/// with the listed signatures, or where those before meet the rule already.
pub fn meets_with_counted(
    rule: &RoleRule,
    table: &KeyTable,
    signed: &[u8],
    signatures: &[Signature],
    known: &[Verdict],
    steps: &mut Steps,
) -> bool
    requires sound { AreVerdicts signed.now (entries_view signatures.now) (verdict_views known.now) }
    requires room { steps.old < 2 ^ 63 }
    ensures met { IsTrue result ↔ (Meets (rule_view rule.now) (table_view table.now) signed.now (entries_view signatures.now)) }
    ensures grows { steps.old ≤ steps.new }
    ensures checked { (n : ℕ) × (TakesChecks (rule_view rule.now) (table_view table.now) (verdict_views known.now) 0 (take n (entries_view signatures.now)) (steps.new - steps.old))
        × ((length signatures.now ≤ n) ⊎ (Meets (rule_view rule.now) (table_view table.now) signed.now (take n (entries_view signatures.now)))) }
    ensures most { steps.new ≤ steps.old + length signatures.now }
    ensures unknown { steps.new ≤ steps.old + unknown (verdict_views known.now) (pairs (rule_view rule.now) (table_view table.now) (entries_view signatures.now)) }
{
    let threshold = usize::from(rule.threshold);
    let count = if threshold <= USUAL {
        count_in(
            rule,
            table,
            signed,
            signatures,
            known,
            &mut [[0; 56]; USUAL],
            threshold,
            steps,
        )
    } else {
        count_in(
            rule,
            table,
            signed,
            signatures,
            known,
            &mut [[0; 56]; MOST],
            threshold,
            steps,
        )
    };
    count >= threshold
}

// How many of the public keys count, up to as many as these.
fn count_in(
    rule: &RoleRule,
    table: &KeyTable,
    signed: &[u8],
    signatures: &[Signature],
    known: &[Verdict],
    tops: &mut [[u8; 56]],
    most: usize,
    steps: &mut Steps,
) -> usize
    requires sound { AreVerdicts signed.now (entries_view signatures.now) (verdict_views known.now) }
    requires room { steps.old < 2 ^ 63 }
    requires places { most ≤ length tops.old }
    ensures counted { AreCounted (rule_view rule.now) (table_view table.now) signed.now (entries_view signatures.now) most result }
    ensures checked { AreChecked (rule_view rule.now) (table_view table.now) signed.now (verdict_views known.now) (entries_view signatures.now) most result (steps.new - steps.old) }
    ensures grows { steps.old ≤ steps.new }
    ensures most { steps.new ≤ steps.old + length signatures.now }
    ensures unknown { steps.new ≤ steps.old + unknown (verdict_views known.now) (pairs (rule_view rule.now) (table_view table.now) (entries_view signatures.now)) }
{
    let mut count = 0usize;
    let mut place = 0usize;
    let mut rest = signatures;
    'entries: while let Some((entry, later)) = rest.split_first() {
        if count >= most {
            return count;
        }
        let next = place + 1;
        if let Some(top) = counted(rule, table, signed, (place, entry), known, steps) {
            count = take_in(&mut *tops, count, &top);
        }
        rest = later;
        place = next;
    }
    count
}

// The public key that the entry at this place makes count.
fn counted(
    rule: &RoleRule,
    table: &KeyTable,
    signed: &[u8],
    entry: (usize, &Signature),
    known: &[Verdict],
    steps: &mut Steps,
) -> Option<[u8; 56]>
    requires sound { TellOf signed.now entry.0 (entry_view entry.1.now) (verdict_views known.now) }
    requires room { steps.old + 1 < 2 ^ 64 }
    ensures found { IfSome result (λ top. CountsBy (rule_view rule.now) (table_view table.now) signed.now (entry_view entry.entry.1.now) top) }
    ensures all { (top : List ℕ) → CountsBy (rule_view rule.now) (table_view table.now) signed.now (entry_view entry.entry.1.now) top → result ≡ Some top }
    ensures checked { TakesEntry (verdict_views known.now) entry.entry.0 (named_key (rule_view rule.now) (table_view table.now) (entry_view entry.entry.1.now).keyid) (entry_view entry.entry.1.now).sig (steps.new - steps.old) }
    ensures grows { steps.old ≤ steps.new }
    ensures most { steps.new ≤ steps.old + 1 }
    ensures unknown { steps.new ≤ steps.old + unknown (verdict_views known.now) (with_pair entry.entry.0 (named_key (rule_view rule.now) (table_view table.now) (entry_view entry.entry.1.now).keyid) []) }
{
    let (place, entry) = entry;
    let key = named(rule, table, &entry.keyid)?;
    if verdict(key, signed, place, entry, known, steps) {
        Some(*top_key(key))
    } else {
        None
    }
}

// Puts the key after the first `count` of the list, where it is none of them. How many they are then.
fn take_in(tops: &mut [[u8; 56]], count: usize, top: &[u8; 56]) -> usize
    requires { count < length tops.old }
    ensures taken { IsTaken top.now (take count tops.old) (take result tops.new) }
    ensures grows { count ≤ result }
    ensures most { result ≤ count + 1 }
    ensures same_length { length tops.new ≡ length tops.old }
{
    if is_among(&tops[..count], top) {
        return count;
    }
    tops[count] = *top;
    count + 1
}

// Whether the key is one of them.
fn is_among(tops: &[[u8; 56]], top: &[u8; 56]) -> bool
    ensures { IsTrue result ↔ (IsIn tops.now top.now) }
{
    tops.contains(top)
}
