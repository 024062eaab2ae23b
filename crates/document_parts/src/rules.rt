//! Artifact rules (in-toto 1.0, section 4.3.3).
use path_patterns::{Pattern, RoleName, TargetPath};

/// The artifacts of a link that a list of rules is about, or that a rule looks for: those from before the step, or those from after it.
#[derive(Debug, Clone, Copy, PartialEq, Eq)]
pub enum Side {
    Materials,
    Products,
}

/// A rule that takes what stands in the link of another step, too: with the same digest, at the same path but for the two folders.
#[derive(Drop)]
pub struct Match {
    pub pattern: Pattern,
    /// The folder in which the paths lie, if one is named.
    pub from: Option<TargetPath>,
    /// The side of the other link, and the folder there.
    pub side: Side,
    pub to: Option<TargetPath>,
    pub step: RoleName,
}

/// An artifact rule. Its patterns match flat: their wildcards stand for slashes too.
#[derive(Drop)]
pub enum Rule {
    Create(Pattern),
    Delete(Pattern),
    Modify(Pattern),
    Allow(Pattern),
    Disallow(Pattern),
    Require(TargetPath),
    Match(Match),
}
