//! The members that each draft changes.
ghost use Rattle.std.specs.Prelude.{◌≡◌, ◌⊎◌, [], OnOk, IfErr};
ghost use Rattle.canonical_json.specs.Json.{object};
ghost use Rattle.canonical_json.specs.View.{members_view};
ghost use Rattle.drafting.specs.Drafts.{Follows, IsTooLate};
ghost use Rattle.drafting.specs.steps.Rows.{PutsTerms};

use crate::dates::date_text;
use crate::faults::DraftFault;
use crate::members::{integer_value, number_value, put, string_value};
use crate::terms::Terms;
use canonical_json::Value;
use std::alloc::Global;

// The last integer of canonical JSON.
const MOST: u64 = 9_223_372_036_854_775_807;

/// Puts the version, and what the terms say.
pub fn put_head(
    alloc: Global,
    members: &mut Vec<(String, Value)>,
    version: u32,
    terms: Terms,
) -> Result<(), DraftFault>
    ensures ok { OnOk result (Follows version terms [] (object (members_view members.old.items)) (object (members_view members.new.items))) }
    ensures err { IfErr result (λ e. (e ≡ DraftFault.OutOfMemory) ⊎ ((e ≡ DraftFault.TooLate) × IsTooLate terms)) }
{
    put_terms(alloc, members, terms)?;
    put(alloc, members, "version", number_value(version))?;
    Ok(())
}

/// Puts the moment and the seconds that the terms say.
pub fn put_terms(
    alloc: Global,
    members: &mut Vec<(String, Value)>,
    terms: Terms,
) -> Result<(), DraftFault>
    ensures ok { OnOk result (PutsTerms terms (object (members_view members.old.items)) (object (members_view members.new.items))) }
    ensures err { IfErr result (λ e. (e ≡ DraftFault.OutOfMemory) ⊎ ((e ≡ DraftFault.TooLate) × IsTooLate terms)) }
{
    if terms.seconds > MOST {
        return Err(DraftFault::TooLate);
    }
    let text = date_text(alloc, terms.expires)?;
    put(alloc, members, "expires", string_value(text))?;
    put(alloc, members, "term", integer_value(terms.seconds as i64))?;
    Ok(())
}
