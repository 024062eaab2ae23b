//! The lines of all changes.
ghost use Rattle.std.specs.Prelude.{◌≡◌, ◌<◌, ◌≤◌, length, map, take, option_map, true, IfOk, IfErr};
ghost use Rattle.std.specs.List.{AllByRecursion};
ghost use Rattle.value_changes.specs.Views.{change_view, step_view};
ghost use Rattle.change_lines.specs.Told.{AreTogether, InPieces, IsPiece, IsUntold, TellsAll, part_of};

use crate::keys::Names;
use crate::listings::{put_listing, put_named};
use crate::places::{Group, at, group_at, label};
use crate::rules::{put_delegations, put_rule};
use crate::spelling::{read_alike, spelled};
use canonical_json::{ReadFault, Value, read};
use std::alloc::{AllocError, Global};
use value_changes::{Change, CompareFault, Step, changes};

/// Why there are no lines.
#[derive(Clone, Copy)]
pub enum LinesFault {
    /// A part is no canonical JSON.
    NotCanonical,
    OutOfMemory,
}

/// What is compared: the signed part that is held, if one is, and that of the draft; and whether all digits of digests and ids stand, which
/// they do too where two of them begin alike.
#[derive(Clone, Copy)]
pub struct Compared<'a> {
    pub held: Option<&'a [u8]>,
    pub draft: &'a [u8],
    pub whole: bool,
}

/// What the draft changes, in the order of its members: `+` what is new, `-` what is gone, `~` what is another. Each change that
/// `value_changes::changes` finds has a line, of its own or with others of the same target, named document or rule, or of the
/// delegations, and where nothing is changed there is none. Where nothing is held, all is new.
///
/// Errors: `NotCanonical` where a part is no canonical JSON, and `OutOfMemory`.
pub fn lines_of(alloc: Global, compared: Compared<'_>) -> Result<Vec<String>, LinesFault>
    ensures told { IfOk result (λ lines. TellsAll (option_map (λ f. f.now) compared.entry.held) compared.entry.draft.now lines.items) }
    ensures fault { IfErr result (IsUntold (option_map (λ f. f.now) compared.entry.held) compared.entry.draft.now) }
{
    let before = read(alloc, held_part(compared.held))?;
    let after = read(alloc, compared.draft)?;
    let found = changes(alloc, &before, &after)?;
    let telling = Telling {
        alloc,
        names: Names {
            held: compared.held,
            draft: compared.draft,
        },
        whole: compared.whole || read_alike(alloc, compared.held, compared.draft)?,
    };
    Ok(told(telling, &before, &after, &found)?)
}

// The signed part that is held, and an empty one where none is.
fn held_part(held: Option<&[u8]>) -> &[u8]
    ensures { result.now ≡ part_of (option_map (λ f. f.now) held.entry) }
{
    match held {
        Some(held) => held,
        None => b"{}",
    }
}

/// What every line is told with.
#[derive(Clone, Copy)]
struct Telling<'n> {
    alloc: Global,
    names: Names<'n>,
    whole: bool,
}

// The lines of all changes. Those of one group stand beside one another, since they stand in the order of the members.
fn told(
    telling: Telling<'_>,
    before: &Value,
    after: &Value,
    found: &[Change<'_>],
) -> Result<Vec<String>, AllocError>
    ensures { IfOk result (λ lines. InPieces (map change_view found.now) lines.items) }
{
    let mut lines = Vec::new(telling.alloc);
    let mut count = 0usize;
    'changes: while count < found.len() {
        let piece = piece_of(telling, before, after, &found[count..])?;
        count += piece.count;
        let mut more = piece.lines;
        lines.append(&mut more)?;
    }
    Ok(lines)
}

/// So many changes, which are told together, and their lines.
#[derive(Drop)]
struct Piece {
    count: usize,
    lines: Vec<String>,
}

// The lines of the first change, and of those beside it where the group is told as a whole. Where that says nothing the change has
// lines of its own.
fn piece_of(
    telling: Telling<'_>,
    before: &Value,
    after: &Value,
    found: &[Change<'_>],
) -> Result<Piece, AllocError>
    requires { 0 < length found.now }
    ensures count { IfOk result (λ p. (0 < p.count) × (p.count ≤ length found.now)) }
    ensures piece { IfOk result (λ p. IsPiece (map change_view (take p.count found.now)) p.lines.items) }
{
    let first = &found[0];
    let group = group_of(&first.place);
    let lines = group_lines(telling, group, at(before, group), at(after, group))?;
    if !lines.is_empty() {
        let count = 1 + count_beside(first, &found[1..]);
        return Ok(Piece { count, lines });
    }
    let lines = own_lines(telling, first)?;
    Ok(Piece { count: 1, lines })
}

// How many of the changes stand in the group of this one, up to the first that does not.
fn count_beside(first: &Change<'_>, rest: &[Change<'_>]) -> usize
    ensures bound { result ≤ length rest.now }
    ensures beside { AllByRecursion (AreTogether (change_view first.now)) (map change_view (take result rest.now)) }
{
    'changes: for index in 0..rest.len() {
        if !are_beside(&first.place, &rest[index].place) {
            return index;
        }
    }
    rest.len()
}

// Whether the two places begin with the same two steps.
fn are_beside(one: &[Step<'_>], other: &[Step<'_>]) -> bool
    ensures { result ≡ true → take 2 (map step_view other.now) ≡ take 2 (map step_view one.now) }
{
    match (one, other) {
        ([first, second, ..], [third, fourth, ..]) => {
            are_same(first, third) && are_same(second, fourth)
        }
        _ => false,
    }
}

fn are_same(one: &Step<'_>, other: &Step<'_>) -> bool
    ensures { result ≡ true → step_view other.now ≡ step_view one.now }
{
    match (one, other) {
        (Step::Member(one), Step::Member(other)) => *one == *other,
        (Step::Item(one), Step::Item(other)) => one == other,
        _ => false,
    }
}

// The beginning of a place that may stand for a target, a document that is named, a rule or the delegations.
fn group_of<'p, 'v>(place: &'p [Step<'v>]) -> &'p [Step<'v>] {
    place.get(..2).unwrap_or(place)
}

// The lines of a group that both sides have and that is read as a whole. Of another there are none.
fn group_lines(
    telling: Telling<'_>,
    group: &[Step<'_>],
    before: Option<&Value>,
    after: Option<&Value>,
) -> Result<Vec<String>, AllocError> {
    let mut lines = Lines::new(telling);
    lines.put_group(group, before, after)?;
    Ok(lines.lines)
}

// The lines of one change, at least one.
fn own_lines(telling: Telling<'_>, change: &Change<'_>) -> Result<Vec<String>, AllocError>
    ensures { IfOk result (λ lines. 0 < length lines.items) }
{
    let mut lines = Lines::new(telling);
    lines.put_change("", change)?;
    if lines.lines.is_empty() {
        let line = one_line(telling, change)?;
        lines.lines.push(line)?;
    }
    Ok(lines.lines)
}

// One line of a change, whatever it is.
fn one_line(telling: Telling<'_>, change: &Change<'_>) -> Result<String, AllocError> {
    let alloc = telling.alloc;
    let label = label(alloc, "", &change.place, telling.whole)?;
    match (change.before, change.after) {
        (Some(before), Some(after)) => {
            let before = spelled(alloc, before, telling.whole)?;
            let after = spelled(alloc, after, telling.whole)?;
            format!(in alloc; "~ {label}: {before}, now {after}")
        }
        (None, Some(after)) => {
            let after = spelled(alloc, after, telling.whole)?;
            format!(in alloc; "+ {label}: {after}")
        }
        (Some(before), None) => {
            let before = spelled(alloc, before, telling.whole)?;
            format!(in alloc; "- {label}: {before}")
        }
        (None, None) => format!(in alloc; "~ {label}"),
    }
}

/// All changes between two values, and none where names do not rise, which is so in no value that is read.
pub(crate) fn changes_in<'v>(
    alloc: Global,
    before: &'v Value,
    after: &'v Value,
) -> Result<Vec<Change<'v>>, AllocError> {
    match changes(alloc, before, after) {
        Ok(found) => Ok(found),
        Err(CompareFault::Unordered) => Ok(Vec::new(alloc)),
        Err(CompareFault::OutOfMemory) => Err(AllocError),
    }
}

/// The lines so far, and what is compared.
#[derive(Drop)]
pub(crate) struct Lines<'n> {
    pub alloc: Global,
    pub names: Names<'n>,
    pub whole: bool,
    lines: Vec<String>,
}

impl<'n> Lines<'n> {
    fn new(telling: Telling<'n>) -> Lines<'n> {
        Lines {
            alloc: telling.alloc,
            names: telling.names,
            whole: telling.whole,
            lines: Vec::new(telling.alloc),
        }
    }

    fn put_group(
        &mut self,
        group: &[Step<'_>],
        before: Option<&Value>,
        after: Option<&Value>,
    ) -> Result<(), AllocError> {
        let (Some(before), Some(after)) = (before, after) else {
            return Ok(());
        };
        match (group_at(group), before, after) {
            (Group::Listing(path), _, _) => put_listing(self, path, before, after),
            (Group::Named(file), _, _) => put_named(self, file, before, after),
            (Group::Rule(role), _, _) => put_rule(self, role, before, after),
            (Group::Delegations, Value::List(before), Value::List(after)) => {
                put_delegations(self, before, after)
            }
            _ => Ok(()),
        }
    }

    /// The lines of one change, whose place stands after these words.
    pub(crate) fn put_change<'v>(
        &mut self,
        head: &str,
        change: &Change<'v>,
    ) -> Result<(), AllocError> {
        match (change.before, change.after) {
            (Some(before), Some(after)) => {
                let label = label(self.alloc, head, &change.place, self.whole)?;
                let before = spelled(self.alloc, before, self.whole)?;
                let after = spelled(self.alloc, after, self.whole)?;
                self.put(format!(in self.alloc; "~ {label}: {before}, now {after}"))
            }
            (None, Some(after)) => self.put_one('+', head, &change.place, after),
            (Some(before), None) => self.put_one('-', head, &change.place, before),
            (None, None) => Ok(()),
        }
    }

    // What one side has alone, at a place of the document or after these words.
    fn put_one<'v>(
        &mut self,
        mark: char,
        head: &str,
        place: &[Step<'v>],
        value: &'v Value,
    ) -> Result<(), AllocError> {
        if head.is_empty() {
            return self.put_side(mark, place, value);
        }
        self.put_parts(mark, head, place, value)
    }

    /// A line.
    pub(crate) fn put(&mut self, line: Result<String, AllocError>) -> Result<(), AllocError> {
        self.lines.push(line?)?;
        Ok(())
    }
}

impl From<AllocError> for LinesFault {
    ghost use Rattle.std.specs.Prelude.{◌≡◌};
    ghost use Rattle.change_lines.specs.declared.lines.LinesFault.TheVariants.{OutOfMemory};

    ghost from_gives = { λ _ e. e ≡ OutOfMemory };

    fn from(_: AllocError) -> LinesFault {
        LinesFault::OutOfMemory
    }
}

impl From<ReadFault> for LinesFault {
    ghost use Rattle.std.specs.Prelude.{◌≡◌};
    ghost use Rattle.change_lines.specs.Faults.{of_read};

    ghost from_gives = { λ fault e. e ≡ of_read fault };

    fn from(fault: ReadFault) -> LinesFault {
        match fault {
            ReadFault::OutOfMemory => LinesFault::OutOfMemory,
            ReadFault::NotCanonical | ReadFault::TooDeep | ReadFault::IntegerRange => {
                LinesFault::NotCanonical
            }
        }
    }
}

impl From<CompareFault> for LinesFault {
    ghost use Rattle.std.specs.Prelude.{◌≡◌};
    ghost use Rattle.change_lines.specs.Faults.{of_compare};

    ghost from_gives = { λ fault e. e ≡ of_compare fault };

    fn from(fault: CompareFault) -> LinesFault {
        match fault {
            CompareFault::OutOfMemory => LinesFault::OutOfMemory,
            CompareFault::Unordered => LinesFault::NotCanonical,
        }
    }
}
