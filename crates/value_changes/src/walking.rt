//! The walk through two values.
ghost use Rattle.std.specs.Prelude.{◌≡◌, ◌⊎◌, [], Some, map, IfErr, OnOk};
ghost use Rattle.canonical_json.specs.Json.{array, object};
ghost use Rattle.canonical_json.specs.View.{items_view, members_view};
ghost use Rattle.value_changes.specs.Changes.{DifferAsWhole, HasUnordered, item_at};
ghost use Rattle.value_changes.specs.Views.{step_view, side_view, change_view};
ghost use Rattle.value_changes.specs.steps.Walking.{Told};

use crate::changed::{Change, Step};
use crate::faults::CompareFault;
use crate::merging::{are_rising, next};
use crate::pairs::{Pair, pair_of};
use canonical_json::Value;
use std::alloc::Global;

/// The place at which two values are compared, and the changes so far.
#[derive(Drop)]
pub(crate) struct Walk<'v> {
    alloc: Global,
    place: Vec<Step<'v>>,
    found: Vec<Change<'v>>,
}

impl<'v> Walk<'v> {
    /// At the outermost values, before the first change.
    pub(crate) fn new(alloc: Global) -> Walk<'v>
        ensures place { result.place.items ≡ [] }
        ensures found { result.found.items ≡ [] }
    {
        Walk {
            alloc,
            place: Vec::new(alloc),
            found: Vec::new(alloc),
        }
    }

    /// The changes.
    pub(crate) fn into_found(self) -> Vec<Change<'v>>
        ensures { result ≡ self.entry.found }
    {
        let Walk {
            alloc: _,
            place: _,
            found,
        } = self;
        found
    }

    /// Adds the changes between what stands at the place.
    #[cycle(walking)]
    pub(crate) fn compare(
        &mut self,
        before: Option<&'v Value>,
        after: Option<&'v Value>,
    ) -> Result<(), CompareFault>
        ensures place { OnOk result (self.new.place.items ≡ self.old.place.items) }
        ensures told { OnOk result (Told (side_view before.entry) (side_view after.entry)
            (map step_view self.old.place.items) (map change_view self.old.found.items) (map change_view self.new.found.items)) }
        ensures unordered { IfErr result (λ e. e ≡ CompareFault.Unordered → HasUnordered (side_view before.entry) ⊎ HasUnordered (side_view after.entry)) }
    {
        match pair_of(before, after) {
            Pair::Objects(members, others) => self.compare_members(members, others),
            Pair::Arrays(items, others) => self.compare_items(items, others),
            Pair::Same => Ok(()),
            Pair::Changed => self.add(before, after),
        }
    }

    // Adds the changes between the members of two objects.
    #[cycle(walking)]
    fn compare_members(
        &mut self,
        before: &'v [(String, Value)],
        after: &'v [(String, Value)],
    ) -> Result<(), CompareFault>
        ensures place { OnOk result (self.new.place.items ≡ self.old.place.items) }
        ensures told { OnOk result (Told (Some (object (members_view before.now))) (Some (object (members_view after.now)))
            (map step_view self.old.place.items) (map change_view self.old.found.items) (map change_view self.new.found.items)) }
        ensures unordered { IfErr result (λ e. e ≡ CompareFault.Unordered → HasUnordered (Some (object (members_view before.now))) ⊎ HasUnordered (Some (object (members_view after.now)))) }
    {
        if !are_rising(before) || !are_rising(after) {
            return Err(CompareFault::Unordered);
        }
        let mut left = before;
        let mut right = after;
        'members: while let Some(turn) = next(left, right) {
            self.place.push(Step::Member(turn.name))?;
            self.compare(turn.before, turn.after)?;
            self.place.pop();
            left = turn.left;
            right = turn.right;
        }
        Ok(())
    }

    // Adds the changes between the items of two arrays.
    #[cycle(walking)]
    fn compare_items(&mut self, before: &'v [Value], after: &'v [Value]) -> Result<(), CompareFault>
        ensures place { OnOk result (self.new.place.items ≡ self.old.place.items) }
        ensures told { OnOk result (Told (Some (array (items_view before.now))) (Some (array (items_view after.now)))
            (map step_view self.old.place.items) (map change_view self.old.found.items) (map change_view self.new.found.items)) }
        ensures unordered { IfErr result (λ e. e ≡ CompareFault.Unordered → HasUnordered (Some (array (items_view before.now))) ⊎ HasUnordered (Some (array (items_view after.now)))) }
    {
        'items: for index in 0..before.len().max(after.len()) {
            self.place.push(Step::Item(index))?;
            self.compare(item_of(before, index), item_of(after, index))?;
            self.place.pop();
        }
        Ok(())
    }

    // Adds a change at the place.
    fn add(
        &mut self,
        before: Option<&'v Value>,
        after: Option<&'v Value>,
    ) -> Result<(), CompareFault>
        requires { DifferAsWhole (side_view before) (side_view after) }
        ensures place { OnOk result (self.new.place.items ≡ self.old.place.items) }
        ensures told { OnOk result (Told (side_view before.entry) (side_view after.entry)
            (map step_view self.old.place.items) (map change_view self.old.found.items) (map change_view self.new.found.items)) }
        ensures fault { IfErr result (λ e. e ≡ CompareFault.OutOfMemory) }
    {
        let place = Vec::from_slice(self.alloc, self.place.as_slice())?;
        self.found.push(Change {
            place,
            before,
            after,
        })?;
        Ok(())
    }
}

// The item of an array at an index.
fn item_of<'v>(items: &'v [Value], index: usize) -> Option<&'v Value>
    ensures { side_view result ≡ item_at index (items_view items.now) }
{
    items.get(index)
}
