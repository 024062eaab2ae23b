//! Drafts of layouts (in-toto 1.0, section 4.3).
ghost use Rattle.std.specs.Prelude.{◌≡◌, ◌⊎◌, codes, option_map, None, IfOk, IfErr, OnOk};
ghost use Rattle.canonical_json.specs.Json.{Json, object, array, no_items};
ghost use Rattle.canonical_json.specs.View.{members_view};
ghost use Rattle.document_parts.specs.declared.documents.Kind.TheVariants as kinds;
ghost use Rattle.drafting.specs.Drafts.{IsDraft, IsUndrafted, nothing_else};
ghost use Rattle.drafting.specs.Members.{Puts, PutsAll};
ghost use Rattle.chain_drafting.specs.Layouts.{DraftsLayout, chain};
ghost use Rattle.chain_drafting.specs.steps.Recorded.{PutsSteps};
ghost use Rattle.chain_drafting.specs.steps.Said.{steps_view};

use crate::bases::layout_members;
use crate::keys::{put_keys, put_names};
use crate::steps::steps_value;
use canonical_json::Value;
use drafting::{DraftFault, Rule, Terms, finish, put, put_terms};
use metadata::Kind;
use std::alloc::{AllocError, Global};

/// A step (in-toto 1.0, section 4.3.1): its name, whose links count for it and from how many keys there must be one, and the patterns
/// of what it makes, at most 31. Its artifact rules (section 4.3.3) say that it may use what the step before it left, and leaves that
/// and what it makes; where rules are given, each as its words, these stand in their place, at most 64.
#[derive(Clone, Copy)]
pub struct StepDraft<'a> {
    pub name: &'a str,
    pub rule: Rule<'a>,
    pub products: &'a [String],
    pub material_rules: Option<&'a [Vec<String>]>,
    pub product_rules: Option<&'a [Vec<String>]>,
}

/// The layout of these steps, 1 to 16 in their order, which expires as the terms say; its keys are those that the rules of the steps
/// name, and `names` says what they are called.
///
/// `begun` is a layout whose further members it keeps, with signatures or without. Errors: `Begun` where that is none, `TooLate`,
/// `Unfit` where the layout would be denied, as where a name, a pattern or a given rule is none, and `OutOfMemory`.
pub fn draft_layout(
    alloc: Global,
    begun: Option<&[u8]>,
    terms: Terms,
    steps: &[StepDraft<'_>],
) -> Result<Vec<u8>, DraftFault>
    ensures draft { IfOk result (λ out. (part : Json) × DraftsLayout (option_map (λ f. f.now) begun.entry) terms (steps_view steps.now) part
        × IsDraft kinds.Layout part out.items) }
    ensures fault { IfErr result (IsUndrafted kinds.Layout None (option_map (λ f. f.now) begun.entry) terms
        (DraftsLayout (option_map (λ f. f.now) begun.entry) terms (steps_view steps.now)) nothing_else) }
{
    let mut members = layout_members(alloc, begun)?;
    put_steps(alloc, &mut members, steps)?;
    put_terms(alloc, &mut members, terms)?;
    finish(alloc, Kind::Layout, members)
}

// Puts the keys, their names and the steps, and that there is no inspection.
fn put_steps(
    alloc: Global,
    members: &mut Vec<(String, Value)>,
    steps: &[StepDraft<'_>],
) -> Result<(), AllocError>
    ensures { OnOk result (PutsSteps (steps_view steps.now) (object (members_view members.old.items)) (object (members_view members.new.items))) }
{
    put_keys(alloc, members, steps)?;
    put_names(alloc, members, steps)?;
    put_chain(alloc, members, steps)?;
    put_no_inspection(alloc, members)
}

fn put_chain(
    alloc: Global,
    members: &mut Vec<(String, Value)>,
    steps: &[StepDraft<'_>],
) -> Result<(), AllocError>
    ensures { OnOk result (Puts (codes "steps") (chain (steps_view steps.now)) (object (members_view members.old.items)) (object (members_view members.new.items))) }
{
    let value = steps_value(alloc, steps)?;
    put(alloc, members, "steps", value)
}

fn put_no_inspection(alloc: Global, members: &mut Vec<(String, Value)>) -> Result<(), AllocError>
    ensures { OnOk result (Puts (codes "inspect") (array no_items) (object (members_view members.old.items)) (object (members_view members.new.items))) }
{
    put(alloc, members, "inspect", Value::List(Vec::new(alloc)))
}
