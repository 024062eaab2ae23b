//! Why a layout does not allow a target.
use std::alloc::{AllocError, AllocFailed};
use thiserror::Error;

/// Why a layout does not allow a target: the first check that fails, in this order.
#[derive(Debug, Clone, Copy, PartialEq, Eq, Error)]
pub enum LayoutFault {
    /// The owners have not signed the layout enough.
    #[error("too few owners have signed the layout")]
    LayoutThreshold,
    /// The layout is not live.
    #[error("the layout is expired")]
    LayoutExpired,
    /// Too few functionaries of a step have a good link.
    #[error("a step has too few links")]
    StepThreshold,
    /// Two good links of a step differ.
    #[error("two links of a step disagree")]
    LinksDisagree,
    /// A rule of a step forbids one of its artifacts.
    #[error("an artifact rule forbids what a step did")]
    Disallowed,
    /// A rule of a step asks for an artifact that is not there.
    #[error("an artifact that a rule requires is not there")]
    Required,
    /// The target is not the product of the step.
    #[error("the target is not the product of the step")]
    ProductMismatch,
    /// Memory was refused. It says nothing of the layout.
    #[error("out of memory")]
    OutOfMemory,
}

/// Refused memory is `OutOfMemory`.
impl From<AllocError> for LayoutFault {
    ghost use Rattle.std.specs.Prelude.{◌≡◌};
    ghost use Rattle.layouts.specs.declared.faults.LayoutFault.TheVariants.{OutOfMemory};

    ghost from_gives = { λ _ e. e ≡ OutOfMemory };

    fn from(_: AllocError) -> Self {
        LayoutFault::OutOfMemory
    }
}

impl<T: Drop> From<AllocFailed<T>> for LayoutFault {
    ghost use Rattle.std.specs.Prelude.{◌≡◌};
    ghost use Rattle.layouts.specs.declared.faults.LayoutFault.TheVariants.{OutOfMemory};

    ghost from_gives = { λ _ e. e ≡ OutOfMemory };

    fn from(_: AllocFailed<T>) -> Self {
        LayoutFault::OutOfMemory
    }
}
