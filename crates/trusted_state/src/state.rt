//! A state of the trust machine.
ghost use Rattle.std.specs.Prelude.{◌≡◌, ◌≤◌, ◌<◌, IfOk, OnOk};
ghost use Rattle.trust_rules.specs.State.{IsState, nothing};
ghost use Rattle.trust_rules.specs.Effects.{applied};
ghost use Rattle.trust_rules.specs.Held.{IsHeld, held_of};
ghost use Rattle.repository_rows.specs.Contents.{lengths_of};
ghost use Rattle.trusted_state.specs.Knowing.{IsKnown};
ghost use Rattle.state_parts.specs.Views.{blob_views, effects_view, length_views, parts_view};
ghost use Rattle.trusted_state.specs.Room.{places};

use crate::held::{Held, most_places};
use delegations::Verdicts;
use state_parts::effects::{Blob, Effects};
use state_parts::parts::{BlobLength, Parts};
use state_parts::taking::{drop_blobs, take_blobs};
use std::alloc::{AllocError, Global};
use std::marker::Model;
use trust_rules::nothing_is_valid;

/// What a repository trusts, and the blobs that it holds. A clause sees that, how much more can be kept without memory, and what is
/// known of the signatures on the shelf: the truth, of each that a search may meet where these are at most 2,048.
#[derive(Drop)]
pub struct State {
    held: Held,
    blobs: Vec<Blob>,
}

impl Model for State {
    ghost use Rattle.std.specs.Prelude.{◌≡◌};
    ghost use Rattle.repository_rows.specs.Contents.{lengths_of};
    ghost use Rattle.trusted_state.specs.Knowing.{IsKnown};
    ghost use Rattle.trust_rules.specs.State.{IsState};
    ghost use Rattle.state_parts.specs.Views.{blob_views};
    ghost use Rattle.trusted_state.specs.Room.{WithRoom, state_with, with_room};

    ghost Value = { WithRoom };

    ghost view = { λ s. with_room s.held s.blobs };

    ghost invariant = { λ s. (IsState (state_with s.held s.blobs)) × (lengths_of (blob_views s.blobs.items) ≡ s.held.held.blobs) };
}

impl State {
    /// A state in which nothing is trusted and no blob is held. It takes no memory.
    pub fn new(alloc: Global) -> State
        ensures { result.state ≡ nothing }
    {
        nothing_is_valid();
        State {
            held: Held::new(alloc),
            blobs: Vec::new(alloc),
        }
    }

    /// The state of these parts, whose blobs have these lengths, and of whose signatures this is known.
    pub fn of(parts: Parts, lengths: Vec<BlobLength>, verdicts: Verdicts) -> State
        requires valid { IsState (parts_view parts) }
        requires lengths { length_views lengths.items ≡ lengths_of (parts_view parts).blobs }
        requires known { IsKnown (parts_view parts).trusted verdicts }
        ensures { result.state ≡ parts_view parts }
    {
        let Parts { trusted, blobs } = parts;
        State {
            held: Held::of(trusted, lengths, verdicts),
            blobs,
        }
    }

    /// What the state holds, with these blobs in place of its own.
    pub fn with_lengths(self, lengths: Vec<BlobLength>) -> Held
        requires { IsHeld (record { trusted = self.state.trusted; blobs = length_views lengths.items }) }
        ensures { result.held ≡ record { trusted = self.state.trusted; blobs = length_views lengths.items } }
    {
        let State { held, blobs: _ } = self;
        held.with_lengths(lengths)
    }

    /// Makes room for these changes. If memory is refused, the state is as before.
    pub fn room(&mut self, effects: &Effects) -> Result<(), AllocError>
        ensures kept { self.new.state ≡ self.old.state }
        ensures room { IfOk result (λ _. places (effects_view effects.now) ≤ self.new.room) }
    {
        self.held.room(effects)?;
        self.blobs.reserve(most_places(effects))?;
        Ok(())
    }

    /// Makes these changes, for which there is room. It takes no memory.
    pub fn take(&mut self, effects: Effects)
        requires valid { IsState (applied self.old.state (effects_view effects)) }
        requires known { IsKnown (applied self.old.state (effects_view effects)).trusted effects.verdicts }
        requires room { places (effects_view effects) ≤ self.old.room }
        ensures state { self.new.state ≡ applied self.old.state (effects_view effects) }
        ensures verdicts { self.new.verdicts ≡ effects.verdicts }
    {
        let Effects {
            changes,
            blobs,
            gone,
            verdicts,
        } = effects;
        self.held.take_beside(changes, &blobs, &gone, verdicts);
        drop_blobs(&mut self.blobs, &gone.blobs);
        take_blobs(&mut self.blobs, blobs);
    }

    /// What the state holds beside the bytes of its blobs.
    pub fn held(&self) -> &Held
        ensures held { result.now.held ≡ held_of self.now.state }
        ensures verdicts { result.now.verdicts ≡ self.now.verdicts }
    {
        &self.held
    }

    /// A law, which does nothing: what a state holds is valid.
    pub fn is_valid(&self)
        ensures { IsState self.now.state }
    {
        self.blobs();
    }

    /// A law, which does nothing: what is known of the signatures on the shelf is true, and is all that a search may meet.
    pub fn is_known(&self)
        ensures { IsKnown self.now.state.trusted self.now.verdicts }
    {
        self.held.verdicts();
    }

    pub fn blobs(&self) -> &[Blob]
        ensures view { blob_views result.now ≡ self.now.state.blobs }
        ensures valid { IsState self.now.state }
    {
        &self.blobs
    }
}
