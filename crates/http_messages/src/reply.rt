// Responses, written to any writer with no memory of their own.
ghost use Rattle.std.specs.Prelude.{◌≡◌, ◌≤◌, ◌<◌, ◌+◌, ◌++◌, ◌^◌, [], length, OnOk, OnErr, vec_len};
ghost use Rattle.std.specs.Io.KnownBytes.{Appends};
ghost use Rattle.std.specs.Fmt.{decimal};
ghost use Rattle.arrayvec.specs.ArrayVec.{array_vec_len};
ghost use Rattle.http_messages.specs.Taken.{TookSome};
ghost use Rattle.http_messages.specs.Sound.{StaysSound};
ghost use Rattle.http_messages.specs.Text.{status_text, kind_text, method_text, allow_line, head_text, response};

use crate::line::{Cut, Transmit, send_both};
use arrayvec::ArrayVec;

/// The status of a response (RFC 9110, section 15).
#[derive(Clone, Copy, Debug, PartialEq, Eq)]
pub enum Status {
    Ok,
    BadRequest,
    Forbidden,
    NotFound,
    MethodNotAllowed,
    TooLarge,
    Unavailable,
}

/// The type of a body (RFC 9110, section 8.3).
#[derive(Clone, Copy, Debug, PartialEq, Eq)]
pub enum Kind {
    Json,
    Octets,
}

/// The methods of the routes (RFC 9110, section 9.3).
#[derive(Clone, Copy, Debug, PartialEq, Eq)]
pub enum Method {
    Get,
    Put,
    Post,
}

/// A text of at most 256 bytes, which takes no memory.
pub type ShortText = ArrayVec<u8, 256>;

/// Appends a piece that has room.
pub fn push(head: &mut ShortText, piece: &[u8])
    requires { array_vec_len head.old + length piece.now ≤ 256 }
    ensures items { head.new.items ≡ head.old.items ++ piece.now }
    ensures len { array_vec_len head.new ≡ array_vec_len head.old + length piece.now }
{
    match head.try_extend_from_slice(piece) {
        Ok(()) => {}
        Err(_) => unreachable!(),
    }
}

impl Status {
    fn text(self) -> &'static [u8]
        ensures { result.now ≡ status_text self }
    {
        match self {
            Status::Ok => b"200 OK",
            Status::BadRequest => b"400 Bad Request",
            Status::Forbidden => b"403 Forbidden",
            Status::NotFound => b"404 Not Found",
            Status::MethodNotAllowed => b"405 Method Not Allowed",
            Status::TooLarge => b"413 Content Too Large",
            Status::Unavailable => b"503 Service Unavailable",
        }
    }
}

impl Kind {
    fn text(self) -> &'static [u8]
        ensures { result.now ≡ kind_text self }
    {
        match self {
            Kind::Json => b"application/json",
            Kind::Octets => b"application/octet-stream",
        }
    }
}

impl Method {
    /// The method as it stands in a request.
    pub fn text(self) -> &'static [u8]
        ensures { result.now ≡ method_text self }
    {
        match self {
            Method::Get => b"GET",
            Method::Put => b"PUT",
            Method::Post => b"POST",
        }
    }
}

/// Appends the line that names the one method of a route.
fn push_allow(head: &mut ShortText, allow: Option<Method>)
    requires { array_vec_len head.old + 16 ≤ 256 }
    ensures items { head.new.items ≡ head.old.items ++ allow_line allow }
    ensures len { array_vec_len head.new ≤ array_vec_len head.old + 16 }
{
    if let Some(method) = allow {
        push(head, b"Allow: ");
        push(head, method.text());
        push(head, b"\r\n");
    }
}

/// The lines before a body of so many bytes: the status, `Content-Type`, `Content-Length`, `Allow` where a method is given, and
/// `Connection: close`, each ended by CR LF, and an empty line.
pub fn head_of(status: Status, kind: Kind, len: usize, allow: Option<Method>) -> ShortText
    ensures { result.items ≡ head_text status kind len allow }
{
    let mut head = ShortText::new();
    let mut digits = itoa::Buffer::new();
    push(&mut head, b"HTTP/1.1 ");
    push(&mut head, status.text());
    push(&mut head, b"\r\nContent-Type: ");
    push(&mut head, kind.text());
    push(&mut head, b"\r\nContent-Length: ");
    push(&mut head, digits.format(len).as_bytes());
    push(&mut head, b"\r\n");
    push_allow(&mut head, allow);
    push(&mut head, b"Connection: close\r\n\r\n");
    head
}

/// Writes a whole response (RFC 9112, section 4): the lines of `head_of`, and the body. On an error the writer took a beginning
/// of the response. It takes no memory.
pub fn write_response<W: Transmit>(
    writer: &mut W,
    status: Status,
    kind: Kind,
    allow: Option<Method>,
    body: &[u8],
) -> Result<(), Cut>
    ensures ok { OnOk result (Appends (W.contents writer.old) (W.contents writer.new) (response status kind allow body.now)) }
    ensures err { OnErr result (TookSome (W.contents writer.old) (W.contents writer.new) (response status kind allow body.now)) }
    ensures sound { StaysSound (W.sound writer.old) result (W.sound writer.new) }
{
    let head = head_of(status, kind, body.len(), allow);
    send_both(writer, head.as_slice(), body)
}
