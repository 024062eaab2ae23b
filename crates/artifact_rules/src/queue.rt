//! How far each path of a side gets.
ghost use Rattle.std.specs.Prelude.{◌≡◌, ◌<◌, ◌≤◌, ℕ, length, map, IfOk, MatchBool, MatchOption};
ghost use Rattle.document_parts.specs.Links.{side_of};
ghost use Rattle.document_parts.specs.RuleViews.{artifacts_view, link_view, rule_view, side_view};
ghost use Rattle.artifact_rules.specs.Views.{links_view};
ghost use Rattle.artifact_rules.specs.steps.Queue.{FirstLeft, IsAsked, IsQueue, IsTaken, NoneLeft, queue_view};

use crate::taking::Judged;
use metadata::{Rule, TargetPath};
use path_patterns::matches_flat;
use std::alloc::{AllocError, Global};

/// A path of the side, and the place of the first rule that takes it; past the last one where none does.
#[derive(Drop)]
pub(crate) struct Queued<'a> {
    pub path: &'a TargetPath,
    pub taken: usize,
}

/// The paths of the side in order, each with the place of the first rule that takes it.
pub(crate) fn queue_of<'a>(
    alloc: Global,
    judged: &Judged<'a>,
    rules: &[Rule],
) -> Result<Vec<Queued<'a>>, AllocError>
    ensures { IfOk result (λ q. IsQueue (side_view judged.now.side) (link_view judged.now.link.now) (links_view judged.now.links.now) (map rule_view rules.now) (side_of (side_view judged.now.side) (link_view judged.now.link.now)) (queue_view q.items)) }
{
    let mut queue = Vec::new(alloc);
    let mut rest = judged.artifacts().rows();
    'rows: while let Some((row, later)) = rest.split_first() {
        let taken = taken_by(judged, rules, &row.0);
        queue.push(Queued {
            path: &row.0,
            taken,
        })?;
        rest = later;
    }
    Ok(queue)
}

// The place of the first rule that takes the path, or the number of rules.
fn taken_by(judged: &Judged<'_>, rules: &[Rule], path: &TargetPath) -> usize
    ensures { IsTaken (side_view judged.now.side) (link_view judged.now.link.now) (links_view judged.now.links.now) (map rule_view rules.now) path.now result }
{
    let mut at = 0;
    'rules: while at < rules.len() {
        if judged.takes(&rules[at], path) {
            return at;
        }
        at += 1;
    }
    at
}

/// The place in the queue of the first path that reaches the rule of this place and that the rule asks for: one that a DISALLOW matches, or
/// the one that a REQUIRE names.
pub(crate) fn first_left(queue: &[Queued<'_>], at: usize, rule: &Rule) -> Option<usize>
    ensures { MatchOption result (NoneLeft (queue_view queue.now) at (rule_view rule.now)) (λ i. FirstLeft (queue_view queue.now) at (rule_view rule.now) i) }
{
    let mut place = 0;
    'queue: while place < queue.len() {
        let queued = &queue[place];
        if at <= queued.taken && is_asked(rule, queued.path) {
            return Some(place);
        }
        place += 1;
    }
    None
}

// Whether the rule forbids the path or requires it.
fn is_asked(rule: &Rule, path: &TargetPath) -> bool
    ensures { MatchBool result (IsAsked (rule_view rule.now) path.now) (IsAsked (rule_view rule.now) path.now → ⊥) }
{
    match rule {
        Rule::Disallow(pattern) => matches_flat(pattern, path),
        Rule::Require(required) => required.as_str() == path.as_str(),
        Rule::Create(_) | Rule::Delete(_) | Rule::Modify(_) | Rule::Allow(_) | Rule::Match(_) =>
            false,
    }
}
