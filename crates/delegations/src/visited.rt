//! The roles that a search has visited.
ghost use Rattle.std.specs.Prelude.{◌≡◌, ◌+◌, ◌<◌, [], ◌∷◌, length, map, bytes_eq};
ghost use Rattle.std.specs.List.{list_any};
ghost use Rattle.metadata.specs.File.{has_name};

use std::marker::Model;

// How many roles a search visits at most.
const MOST_VISITS: usize = 32;

/// At most 32 roles, the last one first. They fill the places from the end.
#[derive(Drop)]
pub struct Visited<'a> {
    names: [&'a str; 32],
    first: usize,
}

impl<'a> Model for Visited<'a> {
    ghost use Rattle.std.specs.Prelude.{◌≤◌, drop, map};
    ghost use Rattle.metadata.specs.File.{Names};

    ghost Value = { Names };

    ghost view = { λ v. map (λ n. n.now) (drop v.first v.names) };

    ghost invariant = { λ v. v.first ≤ 32 };
}

impl<'a> Visited<'a> {
    /// No roles.
    pub(crate) fn new() -> Visited<'a>
        ensures { result ≡ [] }
    {
        Visited {
            names: [""; 32],
            first: MOST_VISITS,
        }
    }

    /// These roles, the last one first.
    pub fn roles(&self) -> &[&'a str]
        ensures { map (λ n. n.now) result.now ≡ self.now }
    {
        &self.names[self.first..]
    }

    /// How many more roles there is room for.
    pub(crate) fn room(&self) -> usize
        ensures { result + length self.now ≡ 32 }
    {
        self.first
    }

    /// How many roles these are.
    pub(crate) fn count(&self) -> u64
        ensures { result ≡ length self.now }
    {
        (MOST_VISITS - self.first) as u64
    }

    /// Whether the role is one of them.
    pub(crate) fn has(&self, role: &str) -> bool
        ensures { result ≡ has_name self.now role.now }
    {
        is_among(&self.names[self.first..], role)
    }

    /// The role in front of the others.
    pub(crate) fn add(&mut self, role: &'a str)
        requires { length self.old < 32 }
        ensures { self.new ≡ role.now ∷ self.old }
    {
        self.first -= 1;
        self.names[self.first] = role;
    }
}

// Whether the name is one of them.
pub(crate) fn is_among(names: &[&str], name: &str) -> bool
    ensures { result ≡ list_any (λ n. bytes_eq n.now name.now) names.now }
{
    names.iter().any(|n| **n == *name)
}
