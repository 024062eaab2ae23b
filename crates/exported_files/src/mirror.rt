// A repository that is asked for its files, and a folder into which they are put.
ghost use Rattle.std.specs.Bool.{OnFalse, OnTrue};
ghost use Rattle.std.specs.Prelude.{◌≡◌, ◌++◌, [], ◌∷◌, ◌⊎◌, List, IfOk, OnOk, option_map};
ghost use Rattle.served_files.specs.Served.{Files};
ghost use Rattle.exported_files.specs.Events.{Event, answered, left_out, put, stood, stood_of};

use metadata::Listing;
use std::alloc::AllocError;

/// A repository that is asked for its files, and a folder into which they are put. A place is a path.
pub trait Mirror {
    /// Why an export ends early.
    type Fault: From<AllocError>;

    /// It answers for each name of a metadata file so, and this was asked and done so far, in this order. Without a value of its own this
    /// claims nothing.
    ghost Holds: { Files → List Event → Self → Type 0 } = { λ _ _ _. ⊥ };

    /// The metadata file of this name, if it is held.
    fn metadata(&mut self, name: &str) -> Result<Option<Vec<u8>>, Self::Fault>
        ensures { IfOk result (λ o. (files : Files) (events : List Event) → Holds files events self.old
            → (option_map (λ v. v.items) o ≡ files name.now) × Holds files events self.new) };

    /// The file of a target, if it is granted.
    fn target(&mut self, listing: &Listing) -> Result<Option<Vec<u8>>, Self::Fault>
        ensures { IfOk result (λ o. (files : Files) (events : List Event) → Holds files events self.old
            → Holds files (events ++ answered listing.now.path listing.now.digest.0 (option_map (λ v. v.items) o) ∷ []) self.new) };

    /// Whether a file of these bytes stands at the place.
    fn has_bytes(&mut self, place: &str, bytes: &[u8]) -> bool
        ensures yes { OnTrue result ((files : Files) (events : List Event) → Holds files events self.old
            → Holds files (events ++ stood place.now bytes.now ∷ []) self.new) }
        ensures no { OnFalse result ((files : Files) (events : List Event) → Holds files events self.old → Holds files events self.new) };

    /// Whether the file of a target stands at the place, by its digest.
    fn has_target(&mut self, place: &str, listing: &Listing) -> bool
        ensures yes { OnTrue result ((files : Files) (events : List Event) → Holds files events self.old
            → Holds files (events ++ stood_of place.now listing.now.digest.0 ∷ []) self.new) }
        ensures no { OnFalse result ((files : Files) (events : List Event) → Holds files events self.old → Holds files events self.new) };

    /// Puts a file into its place.
    fn put(&mut self, place: &str, bytes: &[u8]) -> Result<(), Self::Fault>
        ensures { OnOk result ((files : Files) (events : List Event) → Holds files events self.old
            → Holds files (events ++ put place.now bytes.now ∷ []) self.new) };

    /// Puts the file of a target into its place, or leaves it out where no file can have that place.
    fn put_target(
        &mut self,
        place: &str,
        listing: &Listing,
        bytes: &[u8],
    ) -> Result<(), Self::Fault>
        ensures { OnOk result ((files : Files) (events : List Event) → Holds files events self.old
            → Holds files (events ++ put place.now bytes.now ∷ []) self.new ⊎ Holds files (events ++ left_out place.now ∷ []) self.new) };
}
