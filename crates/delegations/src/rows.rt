//! The shelf of targets documents.
ghost use Rattle.std.specs.Prelude.{◌≡◌, ◌↔◌, ◌<◌, ◌^◌, Some, IfSome, IsTrue, length, option_map, true, false};
ghost use Rattle.std.specs.List.Sorted.{IsPartitionPoint};
ghost use Rattle.metadata.specs.FileViews.{targets_file};
ghost use Rattle.delegations.specs.Delegation.{before};
ghost use Rattle.delegations.specs.Rows.{Rises, row_at, same_place, place_before};
ghost use Rattle.delegations.specs.RowViews.{row_views};
ghost use Rattle.delegations.specs.steps.Rising.{comes_first, rises};

use metadata::{File, Targets};
use path_patterns::RoleName;

/// A targets document at its place on the shelf.
#[derive(Drop)]
pub struct Row {
    pub role: RoleName,
    pub version: u32,
    pub file: File<Targets>,
}

/// The rows of a shelf, in the order of their roles by their bytes and then of their versions, and those that were put on it later.
#[derive(Clone, Copy)]
pub struct Rows<'a> {
    pub held: &'a [Row],
    pub added: &'a [Row],
    pub ghost in_order: { Rises place_before (row_views held.now) },
}

impl<'a> Rows<'a> {
    ghost use Rattle.delegations.specs.Views.{rows_view};

    /// How many rows these are.
    pub fn len(&self) -> usize
        requires { length (rows_view self.now) < 2 ^ 64 }
        ensures { result ≡ length (rows_view self.now) }
    {
        self.held.len() + self.added.len()
    }

    /// The document of the role with this version. It takes no memory, and looks among the rows that are held by halves.
    pub fn row_at(&self, role: &str, version: u32) -> Option<&'a File<Targets>>
        ensures { option_map (λ f. targets_file f.now) result ≡ row_at (rows_view self.now) role.now version }
    {
        match file_at(self.held, role, version) {
            Some(file) => Some(file),
            None => first_at(self.added, role, version),
        }
    }

    /// The document of the role with this version, where it stands among the rows that are held.
    pub(crate) fn held_at(&self, role: &str, version: u32) -> Option<&'a File<Targets>>
        ensures held { IfSome result (λ f. row_at (row_views self.now.held.now) role.now version ≡ Some (targets_file f.now)) }
        ensures there { IfSome result (λ f. row_at (rows_view self.now) role.now version ≡ Some (targets_file f.now)) }
    {
        file_at(self.held, role, version)
    }
}

/// Whether rows are in the order of their roles by their bytes and then of their versions, none at the place of another.
pub fn are_in_order(rows: &[Row]) -> bool
    ensures { IsTrue result ↔ (Rises place_before (row_views rows.now)) }
{
    rows_rise(rows)
}

// Whether each row stands before the next.
fn rows_rise(rows: &[Row]) -> bool
    ensures { result ≡ rises place_before (row_views rows.now) }
{
    let mut rest = rows;
    'rows: while let Some((row, later)) = rest.split_first() {
        if !is_before_rows(row, later) {
            return false;
        }
        rest = later;
    }
    true
}

// Whether a row stands before the first of these.
fn is_before_rows(row: &Row, later: &[Row]) -> bool
    ensures { result ≡ comes_first place_before (row.now.role, row.now.version) (row_views later.now) }
{
    match later.first() {
        Some(next) => is_before(row, next.role.as_str(), next.version),
        None => true,
    }
}

// The document at the place, among rows in order.
fn file_at<'a>(rows: &'a [Row], role: &str, version: u32) -> Option<&'a File<Targets>>
    requires { Rises place_before (row_views rows.now) }
    ensures { option_map (λ f. targets_file f.now) result ≡ row_at (row_views rows.now) role.now version }
{
    let Some(row) = rows.get(count_before(rows, role, version)) else {
        return None;
    };
    if !is_at(row, role, version) {
        return None;
    }
    Some(&row.file)
}

// How many of the rows stand before the place.
fn count_before(rows: &[Row], role: &str, version: u32) -> usize
    requires { Rises place_before (row_views rows.now) }
    ensures { IsPartitionPoint (λ r. place_before (r.role, r.version) (role.now, version) ≡ true) (λ r. place_before (r.role, r.version) (role.now, version) ≡ false) rows.now result }
{
    rows.partition_point(
        |row: &Row| -> bool
            ensures { result ≡ place_before (row.now.role, row.now.version) (role.entry.now, version) }
        { is_before(row, role, version) },
    )
}

// The document of the first of the rows that stands at the place.
fn first_at<'a>(rows: &'a [Row], role: &str, version: u32) -> Option<&'a File<Targets>>
    ensures { option_map (λ f. targets_file f.now) result ≡ row_at (row_views rows.now) role.now version }
{
    let mut rest = rows;
    'rows: while let Some((row, later)) = rest.split_first() {
        if is_at(row, role, version) {
            return Some(&row.file);
        }
        rest = later;
    }
    None
}

// Whether the row stands at the place.
fn is_at(row: &Row, role: &str, version: u32) -> bool
    ensures { result ≡ same_place (row.now.role, row.now.version) (role.now, version) }
{
    *row.role.as_str() == *role && row.version == version
}

// Whether the row stands before the place.
fn is_before(row: &Row, role: &str, version: u32) -> bool
    ensures { result ≡ place_before (row.now.role, row.now.version) (role.now, version) }
{
    let name = row.role.as_str();
    precedes(name, role) || (*name == *role && row.version < version)
}

// Whether the text stands before the other in dictionary order.
fn precedes(text: &str, other: &str) -> bool
    ensures { result ≡ before text.now other.now }
{
    *text < *other
}
