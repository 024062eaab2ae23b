// A writer that never fails takes every response whole: this is proved.
ghost use Rattle.std.specs.Prelude.{IsOk};

use http_messages::{Cut, Fault, Kind, Sink, Status, write_fault, write_response};

pub fn sinks(sink: &mut Sink, body: &[u8]) -> Result<(), Cut>
    ensures { IsOk result }
{
    write_response(sink, Status::Ok, Kind::Octets, None, body)
}

pub fn sinks_fault(sink: &mut Sink, fault: Fault) -> Result<(), Cut>
    ensures { IsOk result }
{
    write_fault(sink, fault)
}
