ghost use Rattle.std.specs.Prelude.{◌≡◌, ◌+◌, ◌<◌, ◌^◌};

use std::marker::Model;

/// How many steps were taken: contracts see the number. What a step is, the call that takes one says; in this crate it
/// is a finished SHA-256.
#[derive(Drop)]
pub struct Steps {
    taken: u64,
}

impl Model for Steps {
    ghost use Rattle.std.specs.Prelude.{ℕ};

    ghost Value = { ℕ };

    ghost view = { λ s. s.taken };
}

impl Steps {
    /// A counter of no steps.
    pub fn new() -> Steps
        ensures { result ≡ 0 }
    {
        Steps { taken: 0 }
    }

    /// The steps so far.
    pub fn count(&self) -> u64
        ensures { result ≡ self.now }
    {
        self.taken
    }

    /// One step more.
    pub fn tick(&mut self)
        requires { self.old + 1 < 2 ^ 64 }
        ensures { self.new ≡ self.old + 1 }
    {
        self.taken += 1;
    }

    /// The steps of another counter besides.
    pub(crate) fn add(&mut self, more: &Steps)
        requires { self.old + more.now < 2 ^ 64 }
        ensures { self.new ≡ self.old + more.now }
    {
        self.taken += more.taken;
    }
}
