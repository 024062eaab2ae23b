//! A request with a body, and its reply.
ghost use Rattle.std.specs.Prelude.{◌≡◌, length, true};
ghost use Rattle.std.specs.Io.KnownBytes.{Appends};
ghost use Rattle.http_messages.specs.Text.{method_text};
ghost use Rattle.http_messages.specs.Taken.{TookSome};
ghost use Rattle.http_fetch.specs.Message.{message};
ghost use Rattle.http_fetch.specs.Reply.{TookWithin};
ghost use Rattle.http_fetch.specs.Sent.{Answered, SaysWhereSent, WhereSent, replied};

use crate::body::read_rest;
use crate::head::Replies;
use crate::message::{Message, head_of};
use fetch::FetchFault;
use http_messages::{FIELD_LIMIT, HEAD_LIMIT, Receive, Transmit, read_head, send_both};
use httparse::spans::EMPTY_HEADER_SPAN;
use std::alloc::Global;

/// A reply: its status (RFC 9110, section 15), and its body.
#[derive(Debug, Drop)]
pub struct Reply {
    pub status: u16,
    pub body: Vec<u8>,
}

/// Why a request has no reply.
#[derive(Clone, Copy, Debug, PartialEq, Eq)]
pub enum SendFault {
    /// The request was not sent whole, and nothing was read.
    Unsent(FetchFault),
    /// The request was sent whole. What became of it is not known.
    Unanswered(FetchFault),
}

/// Sends a request with a body over one connection and reads the reply to its end, whatever its status is. The body of the reply is all
/// that stands after its head up to the end of the connection, whatever length the head declares. At most 8,192 bytes are read for the
/// head, and of the body no more than one byte past the limit, unless more came with the head.
///
/// - `Unsent`: the writer took no more of the request (`Broken`), or memory was refused before (`OutOfMemory`).
/// - `Unanswered`: no head stands at the front of the reply within 8,192 bytes and 32 fields, or a call of the reader answered an error
///   (`Broken`); the body has more bytes than the limit (`TooLong`); or memory was refused for it (`OutOfMemory`).
pub fn send_over<R: Receive, W: Transmit>(
    alloc: Global,
    writer: &mut W,
    reader: &mut R,
    sent: &Message<'_>,
    limit: usize,
) -> Result<Reply, SendFault>
    ensures asks { TookSome (W.contents writer.old) (W.contents writer.new) (message (method_text sent.now.method) sent.now.name.now sent.now.host.now sent.now.body.now) }
    ensures whole { WhereSent result (Appends (W.contents writer.old) (W.contents writer.new) (message (method_text sent.now.method) sent.now.name.now sent.now.host.now sent.now.body.now)) }
    ensures answers { SaysWhereSent result (Answered (R.remaining reader.old) (R.sound reader.old ≡ true) limit) (W.sound writer.old ≡ true) }
    ensures took { TookWithin (R.remaining reader.old) (R.remaining reader.new) limit }
{
    let head = match head_of(alloc, sent) {
        Ok(head) => head,
        Err(_) => return Err(SendFault::Unsent(FetchFault::OutOfMemory)),
    };
    match send_both(writer, &head, sent.body) {
        Ok(()) => match read_answer(alloc, reader, limit) {
            Ok(reply) => Ok(reply),
            Err(fault) => Err(SendFault::Unanswered(fault)),
        },
        Err(_) => Err(SendFault::Unsent(FetchFault::Broken)),
    }
}

// Reads a reply to its end.
fn read_answer<R: Receive>(alloc: Global, reader: &mut R, limit: usize) -> Result<Reply, FetchFault>
    ensures answers { Answered (R.remaining reader.old) (R.sound reader.old ≡ true) limit (replied result) }
    ensures took { TookWithin (R.remaining reader.old) (R.remaining reader.new) limit }
{
    let mut buf = [0; HEAD_LIMIT];
    let mut headers = [EMPTY_HEADER_SPAN; FIELD_LIMIT];
    match read_head::<R, Replies>(reader, &mut buf, &mut headers) {
        Ok((filled, Some(spans))) => {
            let got = &buf[..filled];
            match read_rest(alloc, reader, &got[spans.len..], limit) {
                Ok(body) => Ok(Reply {
                    status: spans.code,
                    body,
                }),
                Err(fault) => Err(fault),
            }
        }
        Ok((_, None)) => Err(FetchFault::Broken),
        Err(_) => Err(FetchFault::Broken),
    }
}
