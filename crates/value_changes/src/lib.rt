//! In what two JSON values differ (RFC 8259, section 3): at which places, and what stands there on either side.
#![tactic(auto)]

ghost use Rattle.std.specs.Prelude.{◌≡◌, ◌⊎◌, Some, map, IfOk, IfErr};
ghost use Rattle.canonical_json.specs.Spelling.{IsProper};
ghost use Rattle.canonical_json.specs.View.{view};
ghost use Rattle.value_changes.specs.Changes.{AreChanges, HasUnordered};
ghost use Rattle.value_changes.specs.Views.{change_view};

mod changed;
mod faults;
mod merging;
mod pairs;
mod walking;

use canonical_json::Value;
pub use changed::{Change, Step};
pub use faults::CompareFault;
use std::alloc::Global;
use walking::Walk;

/// All changes between the two values, and no other: each place at which they differ, once, with what stands there on
/// either side. There is none exactly where the values are equal.
///
/// Two objects are compared member by member, two arrays item by item, and where anything else differs, the two sides
/// are one change. `Unordered` is answered only where one of the values has an object whose names do not rise in the
/// order of their bytes, so never for values that are read by `canonical_json`.
///
/// It takes time linear in the size of the two values, and besides what it answers memory for the steps to one place.
/// The stack holds as many levels as the values have.
pub fn changes<'v>(
    alloc: Global,
    before: &'v Value,
    after: &'v Value,
) -> Result<Vec<Change<'v>>, CompareFault>
    ensures list { IfOk result (λ list. AreChanges (Some (view before.now)) (Some (view after.now)) (map change_view list.items)) }
    ensures unordered { IfErr result (λ e. e ≡ CompareFault.Unordered → HasUnordered (Some (view before.now)) ⊎ HasUnordered (Some (view after.now))) }
    ensures proper { IsProper (view before.now) → IsProper (view after.now) → IfErr result (λ e. e ≡ CompareFault.OutOfMemory) }
{
    let mut walk = Walk::new(alloc);
    walk.compare(Some(before), Some(after))?;
    Ok(walk.into_found())
}
