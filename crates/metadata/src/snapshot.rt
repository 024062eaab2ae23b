// Snapshot metadata (TUF 1.0, section 4.4).
ghost use Rattle.std.specs.Prelude.{◌≡◌, ◌≢◌, ◌↔◌, ◌++◌, ℕ, List, codes, map, MatchOption, IsTrue, IfOk, IfErr, Contains};
ghost use Rattle.std.specs.List.{AllByRecursion};
ghost use Rattle.canonical_json.specs.Json.{EachMember};
ghost use Rattle.canonical_json.specs.Spelling.{IsProper, IsSound};
ghost use Rattle.canonical_json.specs.View.{view, members_view};
ghost use Rattle.keys_roles.specs.steps.Counting.{IsIn};
ghost use Rattle.document_parts.specs.Bodies.{IsMetaRow, AreMetaRows, IsListable, IsSnapshot};
ghost use Rattle.document_parts.specs.Documents as plain;
ghost use Rattle.document_parts.specs.steps.Faults.{IsIll};
ghost use Rattle.document_parts.specs.Members.{Has, MembersAre};
ghost use Rattle.metadata.specs.steps.Entries.{rows_view};
ghost use Rattle.document_parts.specs.Views.{meta_view, snapshot_view};

use canonical_json::Value;
use document_parts::documents::{Meta, ShapeFault, Snapshot};
use document_parts::head::read_head;
use document_parts::members::{member_of, members_of};
use document_parts::parts::read_meta;
use document_parts::trail::Trail;
use path_patterns::RoleName;
use std::alloc::Global;

// The most roles of a snapshot.
const MOST_ROLES: usize = 128;

/// What the signed part of a snapshot says.
pub(crate) fn read_snapshot(
    alloc: Global,
    signed: &Value,
    trail: &mut Trail,
) -> Result<Snapshot, ShapeFault>
    requires { IsProper (view signed.now) }
    ensures ok { IfOk result (λ s. IsSnapshot (view signed.now) (snapshot_view s)) }
    ensures err { IfErr result (IsIll ((s : plain.Snapshot) × IsSnapshot (view signed.now) s)) }
{
    let Some((version, expires)) = read_head(signed, trail) else {
        return Err(ShapeFault::WrongShape);
    };
    trail.enter("meta");
    let Some(found) = member_of(signed, "meta") else {
        return Err(ShapeFault::WrongShape);
    };
    let meta = read_table(alloc, found, trail)?;
    trail.leave();
    Ok(Snapshot {
        version,
        expires,
        meta,
    })
}

// The roles of a snapshot, with what is said of their documents.
fn read_table(
    alloc: Global,
    value: &Value,
    trail: &mut Trail,
) -> Result<Vec<(RoleName, Meta)>, ShapeFault>
    requires { IsProper (view value.now) }
    ensures ok { IfOk result (λ rows. AreMetaRows (view value.now) (rows_view rows.items)) }
    ensures err { IfErr result (IsIll ((rows : List (List ℕ × plain.MetaFile)) × AreMetaRows (view value.now) rows)) }
{
    let Some(members) = members_of(value) else {
        return Err(ShapeFault::WrongShape);
    };
    if members.len() > MOST_ROLES {
        return Err(ShapeFault::WrongShape);
    }
    trail.enter_entries();
    let rows = read_rows(alloc, members, trail)?;
    trail.leave();
    if !is_listed(&rows, "targets") {
        return Err(ShapeFault::WrongShape);
    }
    if are_listable(&rows) {
        Ok(rows)
    } else {
        Err(ShapeFault::WrongShape)
    }
}

fn read_rows(
    alloc: Global,
    members: &[(String, Value)],
    trail: &mut Trail,
) -> Result<Vec<(RoleName, Meta)>, ShapeFault>
    requires { EachMember IsSound (members_view members.now) }
    ensures ok { IfOk result (λ rows. MembersAre IsMetaRow (members_view members.now) (rows_view rows.items)) }
    ensures err { IfErr result (IsIll ((rows : List (List ℕ × plain.MetaFile)) × MembersAre IsMetaRow (members_view members.now) rows)) }
{
    let mut rows = Vec::new(alloc);
    let mut rest = members;
    'members: while let Some((member, later)) = rest.split_first() {
        let row = read_row(alloc, member.0.as_str(), &member.1, trail)?;
        rows.push(row)?;
        trail.next();
        rest = later;
    }
    Ok(rows)
}

// The role whose file this is, with what the value says of it.
fn read_row(
    alloc: Global,
    name: &str,
    value: &Value,
    trail: &mut Trail,
) -> Result<(RoleName, Meta), ShapeFault>
    requires { IsProper (view value.now) }
    ensures ok { IfOk result (λ e. IsMetaRow name.now (view value.now) (e.0, meta_view e.1)) }
    ensures err { IfErr result (IsIll ((e : List ℕ × plain.MetaFile) × IsMetaRow name.now (view value.now) e)) }
{
    let Some(text) = role_of(name) else {
        return Err(ShapeFault::WrongShape);
    };
    let Some(meta) = read_meta(value, trail) else {
        return Err(ShapeFault::WrongShape);
    };
    let Some(role) = RoleName::read(alloc, text)? else {
        return Err(ShapeFault::WrongShape);
    };
    Ok((role, meta))
}

// What stands before `.json`.
fn role_of(name: &str) -> Option<&str>
    ensures { MatchOption result ((role : List ℕ) → name.now ≢ role ++ codes ".json") (λ role. name.now ≡ role.now ++ codes ".json") }
{
    name.strip_suffix(".json")
}

// Whether the rows list this role.
#[tactic(auto, using(document_parts::proofs::Elements::contains_in, document_parts::proofs::Elements::in_contains))]
fn is_listed(rows: &[(RoleName, Meta)], name: &str) -> bool
    ensures { IsTrue result ↔ (Contains (map (λ e. e.0) (rows_view rows.now)) name.now) }
{
    names_row(rows, name)
}

// Whether a row has this name.
fn names_row(rows: &[(RoleName, Meta)], name: &str) -> bool
    ensures { IsTrue result ↔ (IsIn (map (λ e. e.0) (rows_view rows.now)) name.now) }
{
    let mut rest = rows;
    'rows: while let Some((row, later)) = rest.split_first() {
        if row.0.as_str() == name {
            return true;
        }
        rest = later;
    }
    false
}

// Whether a snapshot may list each of the roles.
fn are_listable(rows: &[(RoleName, Meta)]) -> bool
    ensures { IsTrue result ↔ (AllByRecursion (λ e. IsListable e.0) (rows_view rows.now)) }
{
    let mut rest = rows;
    'rows: while let Some((row, later)) = rest.split_first() {
        if !is_listable(row.0.as_str()) {
            return false;
        }
        rest = later;
    }
    true
}

/// Whether a snapshot lists the document of a role of this name, which has targets metadata: every name but `root`, `timestamp` and
/// `snapshot`. It takes no memory.
pub fn is_listable(role: &str) -> bool
    ensures { IsTrue result ↔ (IsListable role.now) }
{
    role != "root" && role != "timestamp" && role != "snapshot"
}
