//! Why a call of a client ends without what was wanted.
ghost use Rattle.std.specs.Prelude.{◌≡◌, ◌≢◌};
ghost use Rattle.table_rows.specs.declared.faults.StoreFault.TheVariants as stores;
ghost use Rattle.table_rows.specs.declared.faults.StoreFault.TheVariants.{Damaged};
ghost use Rattle.client.specs.Session.{IsUnmade};
ghost use Rattle.client.specs.Views.{fault_view};
ghost use Rattle.client.specs.Views as views;

use fetch::FetchFault;
use std::alloc::AllocError;
use store::{Denial, StoreFault};
use thiserror::Error;

/// Why a call of a client ends without what was wanted. What was accepted before stays.
#[derive(Debug, Drop, Error)]
pub enum ClientFault {
    /// A rule denies the target, or a file that the source gave.
    #[error("denied")]
    Denied(Denial),
    /// The source answered a fault, or a file over its limit.
    #[error("the source failed")]
    Fetch(FetchFault),
    /// A call of the database answered a fault.
    #[error("database")]
    Database,
    /// Memory was refused.
    #[error("out of memory")]
    OutOfMemory,
}

impl From<FetchFault> for ClientFault {
    ghost use Rattle.std.specs.Prelude.{◌≡◌};
    ghost use Rattle.client.specs.declared.fault.ClientFault.TheVariants.{Fetch};

    ghost from_gives = { λ fault e. e ≡ Fetch fault };

    fn from(fault: FetchFault) -> Self {
        ClientFault::Fetch(fault)
    }
}

impl From<AllocError> for ClientFault {
    ghost use Rattle.std.specs.Prelude.{◌≡◌};
    ghost use Rattle.client.specs.declared.fault.ClientFault.TheVariants.{OutOfMemory};

    ghost from_gives = { λ _ e. e ≡ OutOfMemory };

    fn from(_: AllocError) -> Self {
        ClientFault::OutOfMemory
    }
}

// A command was not made: the store's want of memory is the client's, and a fault of its database too.
pub(crate) fn unmade(fault: StoreFault) -> ClientFault
    requires { fault ≢ Damaged }
    ensures unmade { IsUnmade (fault_view result) }
    ensures memory { fault ≡ stores.OutOfMemory → fault_view result ≡ views.OutOfMemory }
    ensures database { fault ≡ stores.Database → fault_view result ≡ views.Database }
{
    match fault {
        StoreFault::OutOfMemory => ClientFault::OutOfMemory,
        StoreFault::Database => ClientFault::Database,
        StoreFault::Damaged => unreachable!(),
    }
}
