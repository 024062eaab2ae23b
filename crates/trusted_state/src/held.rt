//! What a state holds beside the bytes of its blobs.
ghost use Rattle.std.specs.Prelude.{◌≡◌, ◌≤◌, ◌<◌, IfOk};
ghost use Rattle.delegations.specs.Verdicts.{verdict_count};
ghost use Rattle.trust_rules.specs.Held.{IsHeld, held_with, nothing_held};
ghost use Rattle.trusted_state.specs.Knowing.{IsKnown};
ghost use Rattle.state_parts.specs.Views.{effects_view, held_view, length_views, made_view, trusted_view};
ghost use Rattle.trusted_state.specs.Room.{places, places_in};

use delegations::Verdicts;
use state_parts::effects::{Blob, Changes, Effects, Gone};
use state_parts::parts::{BlobLength, Trusted};
use state_parts::taking::{drop_lengths, drop_rows, take_changes, take_lengths};
use std::alloc::{AllocError, Global};
use std::marker::Model;
use trust_rules::nothing_is_valid;

/// What a repository trusts, and digest and length of each blob, whose bytes are elsewhere. A clause sees that, how much more can
/// be kept without memory, and what is known of the signatures on the shelf, as of a `State`.
#[derive(Drop)]
pub struct Held {
    trusted: Trusted,
    blobs: Vec<BlobLength>,
    verdicts: Verdicts,
}

impl Model for Held {
    ghost use Rattle.trust_rules.specs.Held.{IsHeld};
    ghost use Rattle.trusted_state.specs.Knowing.{IsKnown};
    ghost use Rattle.state_parts.specs.Views.{held_view, trusted_view};
    ghost use Rattle.trusted_state.specs.Room.{WithPlaces, with_places};

    ghost Value = { WithPlaces };

    ghost view = { λ s. with_places s.trusted s.blobs s.verdicts };

    ghost invariant = { λ s. (IsHeld (held_view s.trusted s.blobs.items)) × (IsKnown (trusted_view s.trusted) s.verdicts) };
}

impl Held {
    /// Nothing is trusted, and there is no blob. It takes no memory.
    pub fn new(alloc: Global) -> Held
        ensures { result.held ≡ nothing_held }
    {
        nothing_is_valid();
        Held {
            trusted: no_trusted(alloc),
            blobs: Vec::new(alloc),
            verdicts: Verdicts::new(alloc),
        }
    }

    /// What is trusted, and the blobs, where this is known of the signatures.
    pub fn of(trusted: Trusted, blobs: Vec<BlobLength>, verdicts: Verdicts) -> Held
        requires valid { IsHeld (held_view trusted blobs.items) }
        requires known { IsKnown (trusted_view trusted) verdicts }
        ensures { result.held ≡ held_view trusted blobs.items }
    {
        Held {
            trusted,
            blobs,
            verdicts,
        }
    }

    /// The same with these blobs.
    pub fn with_lengths(self, blobs: Vec<BlobLength>) -> Held
        requires { IsHeld (record { trusted = self.held.trusted; blobs = length_views blobs.items }) }
        ensures { result.held ≡ record { trusted = self.held.trusted; blobs = length_views blobs.items } }
    {
        let Held {
            trusted,
            blobs: _,
            verdicts,
        } = self;
        Held::of(trusted, blobs, verdicts)
    }

    /// Of how many pairs of a signature and a key it is known whether the one verifies under the other, at most 2,048. After an
    /// opening these are the signatures that it checked.
    pub fn known_signatures(&self) -> usize
        ensures { result ≡ verdict_count self.now.verdicts }
    {
        self.verdicts.count()
    }

    /// Makes room for these changes. If memory is refused, all is as before.
    pub fn room(&mut self, effects: &Effects) -> Result<(), AllocError>
        ensures kept { self.new.held ≡ self.old.held }
        ensures verdicts { self.new.verdicts ≡ self.old.verdicts }
        ensures room { IfOk result (λ _. places (effects_view effects.now) ≤ self.new.room) }
    {
        reserve(&mut self.trusted, &mut self.blobs, most_places(effects))
    }

    /// Makes these changes, for which there is room. It takes no memory, and the bytes of new blobs are dropped.
    pub fn take(&mut self, effects: Effects)
        requires valid { IsHeld (held_with self.old.held (effects_view effects)) }
        requires known { IsKnown (held_with self.old.held (effects_view effects)).trusted effects.verdicts }
        requires room { places (effects_view effects) ≤ self.old.room }
        ensures held { self.new.held ≡ held_with self.old.held (effects_view effects) }
        ensures verdicts { self.new.verdicts ≡ effects.verdicts }
    {
        let Effects {
            changes,
            blobs,
            gone,
            verdicts,
        } = effects;
        self.take_beside(changes, &blobs, &gone, verdicts);
    }

    /// Takes away what goes, makes changes of what is trusted, and puts digest and length of new blobs there.
    pub fn take_beside(&mut self, changes: Changes, blobs: &[Blob], gone: &Gone, verdicts: Verdicts)
        requires valid { IsHeld (held_with self.old.held (made_view changes blobs.now gone.now)) }
        requires known { IsKnown (held_with self.old.held (made_view changes blobs.now gone.now)).trusted verdicts }
        requires room { places (made_view changes blobs.now gone.now) ≤ self.old.room }
        ensures held { self.new.held ≡ held_with self.old.held (made_view changes blobs.now gone.now) }
        ensures verdicts { self.new.verdicts ≡ verdicts }
    {
        drop_rows(&mut self.trusted.shelf, &gone.rows);
        drop_lengths(&mut self.blobs, &gone.blobs);
        take_changes(&mut self.trusted, changes);
        take_lengths(&mut self.blobs, blobs);
        self.verdicts = verdicts;
    }

    /// A law, which does nothing: what is held is valid.
    pub fn is_valid(&self)
        ensures { IsHeld self.now.held }
    {
        self.trusted();
    }

    /// A law, which does nothing: what is known of the signatures on the shelf is true, and is all that a search may meet.
    pub fn is_known(&self)
        ensures { IsKnown self.now.held.trusted self.now.verdicts }
    {
        self.verdicts();
    }

    pub fn verdicts(&self) -> &Verdicts
        ensures view { result.now ≡ self.now.verdicts }
        ensures known { IsKnown self.now.held.trusted self.now.verdicts }
    {
        &self.verdicts
    }

    pub fn trusted(&self) -> &Trusted
        ensures view { trusted_view result.now ≡ self.now.held.trusted }
        ensures valid { IsHeld self.now.held }
    {
        &self.trusted
    }

    pub fn lengths(&self) -> &[BlobLength]
        ensures view { length_views result.now ≡ self.now.held.blobs }
        ensures valid { IsHeld self.now.held }
    {
        &self.blobs
    }
}

fn no_trusted(alloc: Global) -> Trusted
    ensures { trusted_view result ≡ nothing_held.trusted }
{
    Trusted {
        earlier: Vec::new(alloc),
        root: None,
        timestamp: None,
        snapshot: None,
        shelf: Vec::new(alloc),
    }
}

/// The most places that changes need: for roots, for shelf rows, for blobs.
pub fn most_places(effects: &Effects) -> usize
    ensures { result ≡ places (effects_view effects.now) }
{
    let roots = effects.changes.roots.len();
    let rows = effects.changes.rows.len();
    let blobs = effects.blobs.len();
    roots.max(rows).max(blobs)
}

// Makes so many places.
fn reserve(
    trusted: &mut Trusted,
    blobs: &mut Vec<BlobLength>,
    most: usize,
) -> Result<(), AllocError>
    ensures kept { held_view trusted.new blobs.new.items ≡ held_view trusted.old blobs.old.items }
    ensures room { IfOk result (λ _. most ≤ places_in trusted.new blobs.new) }
{
    trusted.earlier.reserve(most)?;
    trusted.shelf.reserve(most)?;
    blobs.reserve(most)?;
    Ok(())
}
