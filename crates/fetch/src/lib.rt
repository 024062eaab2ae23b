//! Where a client fetches files, of which nothing is known.
#![tactic(auto)]

ghost use Rattle.std.specs.Prelude.{ℕ, List, ⊤};
ghost use Rattle.fetch.specs.Source.{Answer, answered};

use std::alloc::{AllocError, Global};
use thiserror::Error;

/// Why a source answers no file.
#[derive(Clone, Copy, Debug, PartialEq, Eq, Error)]
pub enum FetchFault {
    /// The file is longer than the limit.
    #[error("longer than its limit")]
    TooLong,
    /// The source gives no answer that can be read.
    #[error("no answer that can be read")]
    Broken,
    /// Memory was refused.
    #[error("out of memory")]
    OutOfMemory,
}

impl From<AllocError> for FetchFault {
    ghost use Rattle.std.specs.Prelude.{◌≡◌};
    ghost use Rattle.fetch.specs.declared.FetchFault.TheVariants.{OutOfMemory};

    ghost from_gives = { λ _ fault. fault ≡ OutOfMemory };

    fn from(_: AllocError) -> FetchFault {
        FetchFault::OutOfMemory
    }
}

/// Something that is asked for files by their names: `metadata/` and the name of a metadata file, or `targets/` and the path of a
/// target with the digest that is wanted (TUF 1.0, section 6.2, consistent snapshots). It may answer anything.
pub trait Source {
    /// The source that was, a name, a limit, an answer, the source that is left: whether it answers so. Without a value of its own
    /// this claims nothing.
    ghost gives: { Self → List ℕ → ℕ → Answer → Self → Type 0 } = { λ _ _ _ _ _. ⊤ };

    /// The file of this name, which is to have at most so many bytes, and `None` where there is none.
    fn fetch(
        &mut self,
        alloc: Global,
        name: &str,
        limit: usize,
    ) -> Result<Option<Vec<u8>>, FetchFault>
        ensures { gives self.old name.now limit (answered result) self.new };
}
