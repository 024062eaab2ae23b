//! What is known of the signatures on a shelf, so that each is checked once.
ghost use Rattle.std.specs.Prelude.{◌≡◌, ◌≤◌, [], Some, None, IfOk, IfSome, IfNone, length, map, option_map, string_bytes};
ghost use Rattle.keys_roles.specs.Verdicts.{AreVerdicts};
ghost use Rattle.keys_roles.specs.Plain.{look_up};
ghost use Rattle.keys_roles.specs.Views.{verdict_views};
ghost use Rattle.document_parts.specs.Documents as plain;
ghost use Rattle.metadata.specs.File as files;
ghost use Rattle.metadata.specs.FileViews.{targets_file};
ghost use Rattle.delegations.specs.Rows.{AllFiles, Rows as Shelved, row_at, same_place, value_at};
ghost use Rattle.delegations.specs.Search.{doc};
ghost use Rattle.delegations.specs.Verdicts.{AreFoundOut, AreListed, AreOfRows, AreTrue, IsComplete, known_at, most_verdicts, verdict_count};
ghost use Rattle.delegations.specs.Views.{edge_view, held_rows, known_row, row_views, rows_view, shelf_view, table_view};
ghost use Rattle.delegations.specs.steps.Gathering.{AreEdges, IsRow};

use crate::gathering::{all_edges, gather};
use crate::rows::Rows;
use crate::shelf::{Edge, Shelf};
use crate::visiting::{has_hash, has_length};
use keys_roles::{Steps, Verdict, with_verdicts};
use metadata::{File, Targets};
use std::alloc::{AllocError, Global};
use std::marker::Model;

// The most verdicts of a table.
const MOST_VERDICTS: usize = 2_048;

/// What is known of the signatures of shelf rows: at most 2,048 verdicts.
#[derive(Drop)]
pub struct Verdicts {
    rows: Vec<RowVerdicts>,
}

/// What is known of the signatures of one row.
#[derive(Drop)]
pub(crate) struct RowVerdicts {
    role: String,
    version: u32,
    verdicts: Vec<Verdict>,
}

impl Model for Verdicts {
    ghost use Rattle.std.specs.Prelude.{◌≤◌};
    ghost use Rattle.delegations.specs.Verdicts.{Table, most_verdicts, verdict_count};
    ghost use Rattle.delegations.specs.Views.{table_view};

    ghost Value = { Table };

    ghost view = { λ v. table_view v.rows.items };

    ghost invariant = { λ v. verdict_count (table_view v.rows.items) ≤ most_verdicts };
}

impl Verdicts {
    /// Nothing is known. It takes no memory.
    pub fn new(alloc: Global) -> Verdicts
        ensures { result ≡ [] }
    {
        Verdicts {
            rows: Vec::new(alloc),
        }
    }

    /// Of how many pairs of a signature and a key it is known whether the one verifies under the other, at most 2,048.
    pub fn count(&self) -> usize
        ensures { result ≡ verdict_count self.now }
    {
        count_of(&self.rows)
    }

    /// Nothing is known any more.
    pub fn forget(&mut self)
        ensures { self.new ≡ [] }
    {
        self.rows.clear();
    }

    // Finds out what is not known yet of the document of the row at the end of an edge: the verdicts under the edge's rule, where nothing is
    // known of the row and there is room.
    pub(crate) fn learn(
        &mut self,
        alloc: Global,
        edge: &Edge,
        version: u32,
        file: &File<Targets>,
    ) -> Result<(), AllocError>
        ensures { (rows : Shelved) → row_at rows edge.now.role.now version ≡ Some (targets_file file.now) → AreFoundOut rows self.old → AreFoundOut rows self.new }
    {
        if first_of(&self.rows, edge.role, version).is_some() {
            return Ok(());
        }
        let row = learnt(alloc, edge, version, file)?;
        if self.count() + row.verdicts.len() > MOST_VERDICTS {
            return Ok(());
        }
        self.rows.push(row)?;
        Ok(())
    }

    pub(crate) fn rows(&self) -> &[RowVerdicts]
        ensures { table_view result.now ≡ self.now }
    {
        &self.rows
    }
}

// The verdicts on the document of a row under the rule of an edge into its role.
fn learnt(
    alloc: Global,
    edge: &Edge,
    version: u32,
    file: &File<Targets>,
) -> Result<RowVerdicts, AllocError>
    ensures place { IfOk result (λ r. (known_row r).0 ≡ (edge.now.role.now, version)) }
    ensures sound { IfOk result (λ r. AreVerdicts (targets_file file.now).signed (targets_file file.now).entries (known_row r).1) }
{
    let verdicts = with_verdicts(
        Vec::new(alloc),
        edge.rule,
        edge.keys,
        file.source.signed(),
        file.source.signatures(),
        &[],
        &mut Steps::new(),
    )?;
    let role = String::from_str(alloc, edge.role)?;
    Ok(RowVerdicts {
        role,
        version,
        verdicts,
    })
}

// How many verdicts the rows have.
fn count_of(rows: &[RowVerdicts]) -> usize
    requires { verdict_count (table_view rows.now) ≤ most_verdicts }
    ensures { result ≡ verdict_count (table_view rows.now) }
{
    let mut count = 0usize;
    let mut rest = rows;
    'rows: while let Some((row, later)) = rest.split_first() {
        count += row.verdicts.len();
        rest = later;
    }
    count
}

/// What is known of the row of the role with this version.
pub(crate) fn of_row<'a>(rows: &'a [RowVerdicts], role: &str, version: u32) -> &'a [Verdict]
    ensures { verdict_views result.now ≡ known_at (table_view rows.now) (role.now, version) }
{
    match first_of(rows, role, version) {
        Some(row) => &row.verdicts,
        None => &[],
    }
}

// The first of the rows that is that of the role with this version.
fn first_of<'a>(rows: &'a [RowVerdicts], role: &str, version: u32) -> Option<&'a RowVerdicts>
    ensures { option_map (λ r. verdict_views r.now.verdicts.items) result ≡ value_at same_place (table_view rows.now) (role.now, version) }
{
    let mut rest = rows;
    'rows: while let Some((row, later)) = rest.split_first() {
        if is_of(row, role, version) {
            return Some(row);
        }
        rest = later;
    }
    None
}

// Whether this is known of the row of the role with this version.
fn is_of(row: &RowVerdicts, role: &str, version: u32) -> bool
    ensures { result ≡ same_place (string_bytes row.now.role, row.now.version) (role.now, version) }
{
    *row.role.as_str() == *role && row.version == version
}

/// The verdicts on a shelf: one on each signature of a role's document and each key that its id names in the rule of an edge into
/// the role, from the root or from a document on the shelf; where these are more than 2,048, on some of them. What is known of a row that is
/// held is not checked again.
pub fn all_verdicts(alloc: Global, shelf: &Shelf, held: &Verdicts) -> Result<Verdicts, AllocError>
    requires sound { AreTrue (held_rows shelf.now) held.now }
    requires few { AllFiles (λ f. length f.entries ≤ 16) (shelf_view shelf.now).rows }
    ensures sound { IfOk result (λ t. AreTrue (shelf_view shelf.now).rows t) }
    ensures rows { IfOk result (λ t. AreOfRows (shelf_view shelf.now).rows t) }
    ensures listed { IfOk result (λ t. AreListed (shelf_view shelf.now).listing t) }
    ensures complete { IfOk result (λ t. IsComplete (shelf_view shelf.now) t) }
{
    let edges = all_edges(alloc, shelf)?;
    let mut rows = Vec::new(alloc);
    let mut room = MOST_VERDICTS;
    let mut rest = shelf.snapshot.meta.as_slice();
    'roles: while let Some((entry, later)) = rest.split_first() {
        if let Some(row) = row_of(alloc, shelf, &edges, held, entry.0.as_str())? {
            let count = row.verdicts.len();
            if count > room {
                return Ok(Verdicts { rows });
            }
            room -= count;
            rows.push(row)?;
        }
        rest = later;
    }
    Ok(Verdicts { rows })
}

// What is known of the document of a role, if there is one.
fn row_of(
    alloc: Global,
    shelf: &Shelf,
    edges: &[Edge],
    held: &Verdicts,
    role: &str,
) -> Result<Option<RowVerdicts>, AllocError>
    requires edges { AreEdges (shelf_view shelf.now) [] (map edge_view edges.now) }
    requires sound { AreTrue (held_rows shelf.now) held.now }
    ensures row { IfOk result (λ o. IfSome o (λ r. IsRow (shelf_view shelf.now) (known_row r))) }
    ensures named { IfOk result (λ o. IfSome o (λ r. string_bytes r.role ≡ role.now)) }
    ensures none { IfOk result (λ o. IfNone o (doc (shelf_view shelf.now) role.now ≡ None)) }
{
    let Some((version, file)) = document(shelf, role) else {
        return Ok(None);
    };
    let known = known_of(&shelf.rows, held, role, version);
    let verdicts = gather(alloc, edges, role, file, known)?;
    let role = String::from_str(alloc, role)?;
    Ok(Some(RowVerdicts {
        role,
        version,
        verdicts,
    }))
}

// What is known of the row of a role, if it is held.
fn known_of<'a>(rows: &Rows<'_>, held: &'a Verdicts, role: &str, version: u32) -> &'a [Verdict]
    requires { AreTrue (row_views rows.now.held.now) held.now }
    ensures { (file : files.File plain.Targets) → row_at (rows_view rows.now) role.now version ≡ Some file → AreVerdicts file.signed file.entries (verdict_views result.now) }
{
    match rows.held_at(role, version) {
        Some(_) => of_row(held.rows(), role, version),
        None => &[],
    }
}

// The document of a role, with its version.
pub(crate) fn document<'a>(shelf: &Shelf<'a>, role: &str) -> Option<(u32, &'a File<Targets>)>
    ensures some { IfSome result (λ d. doc (shelf_view shelf.now) role.now ≡ Some (targets_file d.1.now)) }
    ensures listed { IfSome result (λ d. option_map (λ e. e.version) (look_up (shelf_view shelf.now).listing role.now) ≡ Some d.0) }
    ensures there { IfSome result (λ d. row_at (shelf_view shelf.now).rows role.now d.0 ≡ Some (targets_file d.1.now)) }
    ensures none { IfNone result (doc (shelf_view shelf.now) role.now ≡ None) }
{
    let entry = shelf.snapshot.entry(role)?;
    let file = shelf.rows.row_at(role, entry.version)?;
    if has_length(entry, &file.source) && has_hash(entry, &file.source) {
        Some((entry.version, file))
    } else {
        None
    }
}
