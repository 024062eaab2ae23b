//! Why a command was not done, by the fault of what it asked, or by its reply.
ghost use Rattle.std.specs.Prelude.{◌≡◌};
ghost use Rattle.cli_repository.specs.Faults as faults;

use cli_faults::Fault;
use store::{Reply, StoreFault};

/// What a fault of the store comes to.
pub fn fault_of_store(fault: StoreFault) -> Fault
    ensures { result ≡ faults.fault_of_store fault }
{
    match fault {
        StoreFault::Damaged => Fault::Damaged,
        StoreFault::Database => Fault::Database,
        StoreFault::OutOfMemory => Fault::Memory,
    }
}

/// Why a command was not done, by its reply. A command has no other reply than a denial or its own.
pub fn refused(reply: Reply) -> Fault
    ensures { result ≡ faults.refused_of reply }
{
    match reply {
        Reply::Denied(denial, index) => Fault::Denied(denial, index),
        _ => Fault::Database,
    }
}
