//! The visit of a role (TUF 1.0, section 5.6.7).
ghost use Rattle.std.specs.Prelude.{◌↔◌, ◌+◌, ◌<◌, ◌≤◌, ◌^◌, IsTrue};
ghost use Rattle.keys_roles.specs.Rules.{Meets};
ghost use Rattle.keys_roles.specs.Verdicts.{AreVerdicts, pairs, unknown};
ghost use Rattle.keys_roles.specs.Views.{verdict_views};
ghost use Rattle.metadata.specs.FileViews.{targets_file};
ghost use Rattle.document_parts.specs.Views.{meta_view};
ghost use Rattle.delegations.specs.Search.{visit};
ghost use Rattle.delegations.specs.Rows.{HasLength, HasHash};
ghost use Rattle.delegations.specs.Verdicts.{AreTrue, lacking};
ghost use Rattle.delegations.specs.Views.{shelf_view, edge_view, answer_view, table_view};

use crate::shelf::{Edge, SearchDenial, Shelf};
use crate::verdicts::{RowVerdicts, of_row};
use keys_roles::{Steps, Verdict, meets_with_counted};
use metadata::{File, Meta, Moment, Source, Targets, live};

/// Whether the file has the length that is said of it, where one is (TUF 1.0, section 4.4, LENGTH). It takes no memory.
pub fn has_length(meta: &Meta, source: &Source) -> bool
    ensures { IsTrue result ↔ (HasLength (meta_view meta.now) source.now.bytes) }
{
    match meta.length {
        None => true,
        Some(length) => source.bytes().len() == length as usize,
    }
}

/// Whether the file has the digest that is said of it, where one is (TUF 1.0, section 4.4, HASHES). It takes no memory and
/// computes no digest.
pub fn has_hash(meta: &Meta, source: &Source) -> bool
    ensures { IsTrue result ↔ (HasHash (meta_view meta.now) source.now.bytes) }
{
    match meta.digest {
        None => true,
        Some(digest) => source.digest().0 == digest.0,
    }
}

// The document of the role at the end of the edge, or the first check of it that fails, with one tick for each signature
// check, at most 16.
pub(crate) fn visit<'a>(
    shelf: &Shelf<'a>,
    edge: &Edge<'a>,
    known: &[RowVerdicts],
    now: Moment,
    checks: &mut Steps,
) -> Result<&'a File<Targets>, SearchDenial<'a>>
    requires sound { AreTrue (shelf_view shelf.now).rows (table_view known.now) }
    requires room { checks.old < 2 ^ 63 }
    ensures grows { checks.old ≤ checks.new }
    ensures most { checks.new ≤ checks.old + 16 }
    ensures lacking { checks.new ≤ checks.old + lacking (shelf_view shelf.now) (table_view known.now) (edge_view edge.now) }
    ensures answer { visit (shelf_view shelf.now) (edge_view edge.now) now (answer_view (λ f. targets_file f.now) result) }
{
    let Some(entry) = shelf.snapshot.entry(edge.role) else {
        return Err(SearchDenial::RoleUnlisted);
    };
    let Some(file) = shelf.rows.row_at(edge.role, entry.version) else {
        return Err(SearchDenial::RoleMissing {
            role: edge.role,
            version: entry.version,
        });
    };
    if !has_length(entry, &file.source) {
        return Err(SearchDenial::RoleLength);
    }
    if !has_hash(entry, &file.source) {
        return Err(SearchDenial::RoleHash);
    }
    let known = of_row(known, edge.role, entry.version);
    if !meets_edge(edge, file, known, checks) {
        return Err(SearchDenial::RoleThreshold);
    }
    if live(file.body.expires, now) {
        Ok(file)
    } else {
        Err(SearchDenial::RoleExpired)
    }
}

// Whether the document meets the edge's rule, with one tick for each signature that is checked.
pub(crate) fn meets_edge(
    edge: &Edge,
    file: &File<Targets>,
    known: &[Verdict],
    checks: &mut Steps,
) -> bool
    requires sound { AreVerdicts (targets_file file.now).signed (targets_file file.now).entries (verdict_views known.now) }
    requires room { checks.old < 2 ^ 63 }
    ensures met { IsTrue result ↔ (Meets (edge_view edge.now).rule (edge_view edge.now).table (targets_file file.now).signed (targets_file file.now).entries) }
    ensures grows { checks.old ≤ checks.new }
    ensures most { checks.new ≤ checks.old + 16 }
    ensures unknown { checks.new ≤ checks.old + unknown (verdict_views known.now) (pairs (edge_view edge.now).rule (edge_view edge.now).table (targets_file file.now).entries) }
{
    meets_with_counted(
        edge.rule,
        edge.keys,
        file.source.signed(),
        file.source.signatures(),
        known,
        checks,
    )
}
