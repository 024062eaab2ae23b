//! What a rule takes.
ghost use Rattle.std.specs.Prelude.{◌≡◌, ◌∷◌, ℕ, List, [], Option, MatchBool, MatchOption, map, option_map, find, bytes_eq};
ghost use Rattle.path_patterns.specs.Matching.{MatchesFlat};
ghost use Rattle.metadata.specs.File.{look_up};
ghost use Rattle.document_parts.specs.Links as links;
ghost use Rattle.document_parts.specs.Links.{HasDigest, Lists, side_of};
ghost use Rattle.document_parts.specs.RuleViews.{artifacts_view, link_view, match_view, rule_view, side_view};
ghost use Rattle.document_parts.specs.declared.links.Link.{Link as LinkHeld};
ghost use Rattle.artifact_rules.specs.Rules.{Takes, TakesMatch, link_of, path_in};
ghost use Rattle.artifact_rules.specs.Views.{links_view};
ghost use Rattle.artifact_rules.specs.steps.Taking.{Concerns, IsChanged, IsCreated, IsDeleted, TakesWith};

use metadata::{Artifacts, Digest, Link, Match, Rule, Side, TargetPath};
use path_patterns::{matches_flat, matches_flat_text};

/// What rules are judged on: a side of a link, and the links of the other steps.
#[derive(Clone, Copy)]
pub(crate) struct Judged<'a> {
    pub side: Side,
    pub link: &'a Link,
    pub links: &'a [&'a Link],
}

impl<'a> Judged<'a> {
    /// The artifacts of the side.
    pub(crate) fn artifacts(&self) -> &'a Artifacts
        ensures { artifacts_view result.now ≡ side_of (side_view self.now.side) (link_view self.now.link.now) }
    {
        artifacts_of(self.side, self.link)
    }

    /// Whether the rule takes the path, if it is still there.
    pub(crate) fn takes(&self, rule: &Rule, path: &TargetPath) -> bool
        ensures { MatchBool result (Takes (side_view self.now.side) (link_view self.now.link.now) (links_view self.now.links.now) (rule_view rule.now) path.now)
            (Takes (side_view self.now.side) (link_view self.now.link.now) (links_view self.now.links.now) (rule_view rule.now) path.now → ⊥) }
    {
        match rule {
            Rule::Create(pattern) => matches_flat(pattern, path) && is_created(self.link, path),
            Rule::Delete(pattern) => matches_flat(pattern, path) && is_deleted(self.link, path),
            Rule::Modify(pattern) => matches_flat(pattern, path) && is_changed(self.link, path),
            Rule::Allow(pattern) => matches_flat(pattern, path),
            Rule::Disallow(_) | Rule::Require(_) => false,
            Rule::Match(rule) => self.takes_match(rule, path),
        }
    }

    // Whether a rule of MATCH takes the path.
    fn takes_match(&self, rule: &Match, path: &TargetPath) -> bool
        ensures { MatchBool result (TakesMatch (match_view rule.now) (side_of (side_view self.now.side) (link_view self.now.link.now)) (links_view self.now.links.now) path.now)
            (TakesMatch (match_view rule.now) (side_of (side_view self.now.side) (link_view self.now.link.now)) (links_view self.now.links.now) path.now → ⊥) }
    {
        if !concerns(rule, path) {
            return false;
        }
        match self.artifacts().digest_of(path.as_str()) {
            Some(digest) => takes_with(rule, self.links, path, digest),
            None => false,
        }
    }
}

// Whether the pattern matches what stands after the folder in the path.
fn concerns(rule: &Match, path: &TargetPath) -> bool
    ensures { MatchBool result (Concerns (match_view rule.now) path.now) (Concerns (match_view rule.now) path.now → ⊥) }
{
    match rest_of(rule.from.as_ref(), path.as_str()) {
        Some(rest) => matches_flat_text(&rule.pattern, rest),
        None => false,
    }
}

// The artifacts of a side of a link.
fn artifacts_of(side: Side, link: &Link) -> &Artifacts
    ensures { artifacts_view result.now ≡ side_of (side_view side) (link_view link.now) }
{
    match side {
        Side::Materials => &link.materials,
        Side::Products => &link.products,
    }
}

// Whether the path is among the artifacts.
fn lists(artifacts: &Artifacts, path: &TargetPath) -> bool
    ensures { MatchBool result (Lists (artifacts_view artifacts.now) path.now) (Lists (artifacts_view artifacts.now) path.now → ⊥) }
{
    match artifacts.digest_of(path.as_str()) {
        Some(_) => true,
        None => false,
    }
}

// Whether the path is among the products alone.
fn is_created(link: &Link, path: &TargetPath) -> bool
    ensures { MatchBool result (IsCreated (link_view link.now) path.now) (IsCreated (link_view link.now) path.now → ⊥) }
{
    lists(&link.products, path) && !lists(&link.materials, path)
}

// Whether the path is among the materials alone.
fn is_deleted(link: &Link, path: &TargetPath) -> bool
    ensures { MatchBool result (IsDeleted (link_view link.now) path.now) (IsDeleted (link_view link.now) path.now → ⊥) }
{
    lists(&link.materials, path) && !lists(&link.products, path)
}

// Whether the path is on both sides of the link, with two digests.
fn is_changed(link: &Link, path: &TargetPath) -> bool
    ensures { MatchBool result (IsChanged (link_view link.now) path.now) (IsChanged (link_view link.now) path.now → ⊥) }
{
    let Some(before) = link.materials.digest_of(path.as_str()) else {
        return false;
    };
    let Some(after) = link.products.digest_of(path.as_str()) else {
        return false;
    };
    !is_same(before, after)
}

// Whether the digests are the same.
fn is_same(a: &Digest, b: &Digest) -> bool
    ensures { MatchBool result (a.now.0 ≡ b.now.0) (a.now.0 ≡ b.now.0 → ⊥) }
{
    a == b
}

// Whether the rule takes a path of this digest.
fn takes_with(rule: &Match, links: &[&Link], path: &TargetPath, digest: &Digest) -> bool
    ensures { MatchBool result (TakesWith (match_view rule.now) (links_view links.now) path.now digest.now.0) (TakesWith (match_view rule.now) (links_view links.now) path.now digest.now.0 → ⊥) }
{
    let Some(rest) = rest_of(rule.from.as_ref(), path.as_str()) else {
        return false;
    };
    if !matches_flat_text(&rule.pattern, rest) {
        return false;
    }
    let Some(link) = link_by(links, rule.step.as_str()) else {
        return false;
    };
    match digest_at(artifacts_of(rule.side, link), rule.to.as_ref(), rest) {
        Some(other) => is_same(other, digest),
        None => false,
    }
}

// What stands after the folder in the path; the path itself where there is no folder.
fn rest_of<'a>(folder: Option<&TargetPath>, path: &'a str) -> Option<&'a str>
    ensures { MatchOption result ((rest : List ℕ) → path.now ≡ path_in (option_map (λ f. f.now) folder.entry) rest → ⊥) (λ rest. path.now ≡ path_in (option_map (λ f. f.now) folder.entry) rest.now) }
{
    match folder {
        None => Some(path),
        Some(folder) => path.strip_prefix(folder.as_str())?.strip_prefix("/"),
    }
}

// The digest of the artifact of this rest in the folder.
fn digest_at<'a>(
    artifacts: &'a Artifacts,
    folder: Option<&TargetPath>,
    rest: &str,
) -> Option<&'a Digest>
    ensures { option_map (λ d. d.now.0) result ≡ look_up (artifacts_view artifacts.now) (path_in (option_map (λ f. f.now) folder.entry) rest.now) }
{
    match folder {
        None => artifacts.digest_of(rest),
        Some(folder) => artifacts.digest_in(folder.as_str(), rest),
    }
}

// The link of the step: the first of its name.
fn link_by<'a>(links: &[&'a Link], step: &str) -> Option<&'a Link>
    ensures { option_map (λ l. link_view l.now) result ≡ link_of (links_view links.now) step.now }
{
    let (link, later) = links.split_first()?;
    if link.name.as_str() == step {
        return Some(*link);
    }
    link_by(later, step)
}
