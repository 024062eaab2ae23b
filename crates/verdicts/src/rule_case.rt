// A case of artifact rules.
ghost use Rattle.std.specs.Prelude.{◌<◌, length};
ghost use Rattle.std.proofs.Props.{props};

use metadata::{Link, Side};

/// Artifact rules, by their words, and what they are judged on.
#[derive(Drop)]
pub struct RuleCase {
    /// The links of some steps.
    pub links: Vec<Link>,
    /// The place of the link that the rules are about.
    pub own: usize,
    pub rules: Vec<Vec<String>>,
    pub side: Side,
    ghost inside: { own < length links.items } by { Prim.hlevel props },
}
