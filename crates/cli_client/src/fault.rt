//! Why a command of a client was not done.
ghost use Rattle.std.specs.Prelude.{◌≡◌};
ghost use Rattle.cli_client.specs.Faults as faults;

use cli_faults::{Fault, Notes};
use client::{ClientFault, FetchFault};
use std::fmt::Display;
use std::io::Write;

/// What a fault of a client comes to.
pub fn fault_of_client(fault: ClientFault) -> Fault
    ensures { result ≡ faults.fault_of_client fault }
{
    match fault {
        ClientFault::Denied(denial) => Fault::Denied(denial, None),
        ClientFault::Fetch(FetchFault::OutOfMemory) => Fault::Memory,
        ClientFault::Fetch(FetchFault::TooLong | FetchFault::Broken) => Fault::Network,
        ClientFault::Database => Fault::Database,
        ClientFault::OutOfMemory => Fault::Memory,
    }
}

/// What a fault of a client comes to, which is told of what has this name.
pub fn told<N: Display, E: Write>(name: &N, fault: ClientFault, notes: &mut Notes<'_, E>) -> Fault {
    match &fault {
        ClientFault::Denied(denial) => notes.denied(name, denial.number()),
        other => notes.fault(name, other),
    }
    fault_of_client(fault)
}
