// Why a request is no command, and what it is answered then.

ghost use Rattle.std.specs.Prelude.{◌≡◌, OnOk, OnErr};
ghost use Rattle.std.specs.Io.KnownBytes.{Appends};
ghost use Rattle.http_messages.specs.Taken.{TookSome};
ghost use Rattle.http_messages.specs.Sound.{StaysSound};
ghost use Rattle.http_messages.specs.Faults.{fault_status, fault_allow, fault_text, fault_response};

use crate::line::{Cut, Transmit};
use crate::reply::{Kind, Method, Status, write_response};

/// Why a request is no command, in the order in which it is judged, and what a command may meet besides.
#[derive(Clone, Copy, Debug, PartialEq, Eq)]
pub enum Fault {
    /// 400: no beginning of the input is a head within the limits, or its target has a byte outside 0x21 to 0x7e.
    Head,
    /// 404: the target has no route.
    Route,
    /// 405: the route has this method alone.
    Method(Method),
    /// 400: the fields declare no length of the body.
    Length,
    /// 413: the body is longer than the route takes.
    Size,
    /// 400: the input ends before the body does.
    Body,
    /// 400: the blob's name is not 64 hex digits of lower case.
    Digest,
    /// 400: the body is not documents with their names and lengths.
    Batch,
    /// 404: there is no metadata file of this name.
    Name,
    /// 503: memory was refused.
    Memory,
    /// 503: the database answered a fault.
    Database,
}

impl Fault {
    /// The status of the answer.
    pub fn status(self) -> Status
        ensures { result ≡ fault_status self }
    {
        match self {
            Fault::Route | Fault::Name => Status::NotFound,
            Fault::Method(_) => Status::MethodNotAllowed,
            Fault::Size => Status::TooLarge,
            Fault::Memory | Fault::Database => Status::Unavailable,
            Fault::Head | Fault::Length | Fault::Body | Fault::Digest | Fault::Batch =>
                Status::BadRequest,
        }
    }

    /// The method that the answer names.
    pub fn allow(self) -> Option<Method>
        ensures { result ≡ fault_allow self }
    {
        match self {
            Fault::Method(allowed) => Some(allowed),
            _ => None,
        }
    }

    /// The body of the answer, a JSON object.
    pub fn body(self) -> &'static [u8]
        ensures { result.now ≡ fault_text self }
    {
        match self {
            Fault::Head => b"{\"fault\":\"head\"}",
            Fault::Route => b"{\"fault\":\"route\"}",
            Fault::Method(_) => b"{\"fault\":\"method\"}",
            Fault::Length => b"{\"fault\":\"length\"}",
            Fault::Size => b"{\"fault\":\"size\"}",
            Fault::Body => b"{\"fault\":\"body\"}",
            Fault::Digest => b"{\"fault\":\"digest\"}",
            Fault::Batch => b"{\"fault\":\"batch\"}",
            Fault::Name => b"{\"fault\":\"name\"}",
            Fault::Memory => b"{\"fault\":\"memory\"}",
            Fault::Database => b"{\"fault\":\"database\"}",
        }
    }
}

/// Writes the whole answer to a fault. It takes no memory. On an error the writer took a beginning of it.
pub fn write_fault<W: Transmit>(writer: &mut W, fault: Fault) -> Result<(), Cut>
    ensures ok { OnOk result (Appends (W.contents writer.old) (W.contents writer.new) (fault_response fault)) }
    ensures err { OnErr result (TookSome (W.contents writer.old) (W.contents writer.new) (fault_response fault)) }
    ensures sound { StaysSound (W.sound writer.old) result (W.sound writer.new) }
{
    write_response(
        writer,
        fault.status(),
        Kind::Json,
        fault.allow(),
        fault.body(),
    )
}
