// The roles whose delegations are being followed.
ghost use Rattle.std.specs.Prelude.{◌≡◌, ◌+◌, ◌≤◌, ◌<◌, [], ◌∷◌, drop, length, MatchOption};

use keys_roles::KeyTable;
use metadata::Delegation;
use std::marker::Model;

// As many roles as a search visits at most.
const MOST_FRAMES: usize = 32;

/// What is left of the delegations of a role, with the keys of their list.
#[derive(Clone, Copy)]
pub(crate) struct Frame<'a> {
    pub(crate) roles: &'a [Delegation],
    pub(crate) keys: &'a KeyTable,
}

/// At most 32 frames, the innermost role's first. They fill the places from the end.
#[derive(Drop)]
pub(crate) struct Frames<'a> {
    places: [Frame<'a>; 32],
    first: usize,
}

impl<'a> Model for Frames<'a> {
    ghost use Rattle.std.specs.Prelude.{◌≡◌, ◌≤◌, List, drop, length};
    ghost use Rattle.delegations.specs.declared.frames.Frame.{Frame};

    ghost Value = { List Frame };

    ghost view = { λ s. drop s.first s.places };

    ghost invariant = { λ s. (s.first ≤ 32) × (length s.places ≡ 32) };
}

impl<'a> Frames<'a> {
    /// No frames. The places hold no delegations of this table.
    pub(crate) fn new(keys: &'a KeyTable) -> Frames<'a>
        ensures { result ≡ [] }
    {
        Frames {
            places: [Frame { roles: &[], keys }; 32],
            first: MOST_FRAMES,
        }
    }

    /// The frame in front of the others.
    pub(crate) fn push(&mut self, frame: Frame<'a>)
        requires { length self.old < 32 }
        ensures { self.new ≡ frame.entry ∷ self.old }
    {
        let place = self.first - 1;
        put(&mut self.places[..], place, frame);
        self.first = place;
    }

    /// The innermost frame, taken off.
    pub(crate) fn pop(&mut self) -> Option<Frame<'a>>
        ensures { MatchOption result ((self.old ≡ []) × (self.new ≡ [])) (λ f. self.old ≡ f ∷ self.new) }
    {
        let frame = taken(&self.places[..], self.first)?;
        self.first += 1;
        Some(frame)
    }

    /// All frames taken off.
    pub(crate) fn clear(&mut self)
        ensures { self.new ≡ [] }
    {
        self.first = MOST_FRAMES;
    }
}

// The frame at the place, if there is one.
fn taken<'a>(places: &[Frame<'a>], place: usize) -> Option<Frame<'a>>
    ensures value { MatchOption result (drop place places.now ≡ []) (λ f. drop place places.now ≡ f ∷ drop (place + 1) places.now) }
    ensures fits { MatchOption result (length places.now ≤ place) (λ f. place < length places.now) }
{
    if place < places.len() {
        Some(places[place])
    } else {
        None
    }
}

// The frame at the place, and the others as they were.
fn put<'a>(places: &mut [Frame<'a>], place: usize, frame: Frame<'a>)
    requires { place < length places.old }
    ensures same { length places.new ≡ length places.old }
    ensures put { drop place places.new ≡ frame.entry ∷ drop (place + 1) places.old }
{
    places[place] = frame;
}
