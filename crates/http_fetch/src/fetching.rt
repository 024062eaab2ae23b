//! A request and its reply.
ghost use Rattle.std.specs.Prelude.{◌≡◌, OnOk, true};
ghost use Rattle.std.specs.Io.KnownBytes.{Appends};
ghost use Rattle.http_messages.specs.Taken.{TookSome};
ghost use Rattle.fetch.specs.Source.{answered};
ghost use Rattle.http_fetch.specs.Reply.{Fetched, TookWithin};
ghost use Rattle.http_fetch.specs.Request.{request};
ghost use Rattle.http_fetch.specs.steps.Found.{ReadsBody, TookBody};

use crate::body::read_rest;
use crate::head::Replies;
use crate::request::request_of;
use fetch::FetchFault;
use http_messages::{FIELD_LIMIT, HEAD_LIMIT, Receive, Transmit, read_head, send_all};
use httparse::spans::EMPTY_HEADER_SPAN;
use std::alloc::Global;

/// Reads a reply to its end: the body where the status is 200, `None` where it is 403 or 404. The body is all that stands after the
/// head up to the end of the connection, whatever length the head declares. At most 8,192 bytes are read for the head, and of the
/// body no more than one byte past the limit, unless more came with the head.
///
/// - `TooLong`: the body has more bytes than the limit.
/// - `Broken`: no head stands at the front within 8,192 bytes and 32 fields, the status is another, or a call of the reader answered
///   an error.
/// - `OutOfMemory`: memory was refused.
pub fn read_reply<R: Receive>(
    alloc: Global,
    reader: &mut R,
    limit: usize,
) -> Result<Option<Vec<u8>>, FetchFault>
    ensures answers { Fetched (R.remaining reader.old) (R.sound reader.old ≡ true) limit (answered result) }
    ensures took { TookWithin (R.remaining reader.old) (R.remaining reader.new) limit }
{
    let mut buf = [0; HEAD_LIMIT];
    let mut headers = [EMPTY_HEADER_SPAN; FIELD_LIMIT];
    match read_head::<R, Replies>(reader, &mut buf, &mut headers) {
        Ok((filled, Some(spans))) => {
            let got = &buf[..filled];
            read_body(alloc, reader, spans.code, &got[spans.len..], limit)
        }
        Ok((_, None)) => Err(FetchFault::Broken),
        Err(_) => Err(FetchFault::Broken),
    }
}

// What a reply of this status answers, whose body begins with `front`.
fn read_body<R: Receive>(
    alloc: Global,
    reader: &mut R,
    code: u16,
    front: &[u8],
    limit: usize,
) -> Result<Option<Vec<u8>>, FetchFault>
    ensures reads { ReadsBody (R.remaining reader.old) (R.sound reader.old) code front.now limit (answered result) }
    ensures took { TookBody (R.remaining reader.old) (R.remaining reader.new) front.now limit }
{
    if code == 403 || code == 404 {
        return Ok(None);
    }
    if code != 200 {
        return Err(FetchFault::Broken);
    }
    match read_rest(alloc, reader, front, limit) {
        Ok(body) => Ok(Some(body)),
        Err(fault) => Err(fault),
    }
}

/// Asks for the file of a name over one connection, by one request, and reads the reply as `read_reply` does. Where the writer takes no
/// more of the request, nothing is read and the answer is `Broken`.
pub fn fetch_over<R: Receive, W: Transmit>(
    alloc: Global,
    writer: &mut W,
    reader: &mut R,
    host: &str,
    name: &str,
    limit: usize,
) -> Result<Option<Vec<u8>>, FetchFault>
    ensures asks { TookSome (W.contents writer.old) (W.contents writer.new) (request host.now name.now) }
    ensures whole { OnOk result (Appends (W.contents writer.old) (W.contents writer.new) (request host.now name.now)) }
    ensures answers { Fetched (R.remaining reader.old) ((R.sound reader.old ≡ true) × (W.sound writer.old ≡ true)) limit (answered result) }
    ensures took { TookWithin (R.remaining reader.old) (R.remaining reader.new) limit }
{
    let text = match request_of(alloc, host, name) {
        Ok(text) => text,
        Err(_) => return Err(FetchFault::OutOfMemory),
    };
    match send_all(writer, text.as_bytes()) {
        Ok(()) => read_reply(alloc, reader, limit),
        Err(_) => Err(FetchFault::Broken),
    }
}
