// Heads, read in pieces into a buffer of fixed size.
ghost use Rattle.std.specs.Prelude.{◌≡◌, ◌≤◌, ◌<◌, ◌+◌, ◌++◌, ℕ, List, [], Option, Some, None, length, take, drop, IfOk, OnErr};
ghost use Rattle.std.specs.Io.{ReadsAtMost};
ghost use Rattle.std.specs.Io.KnownBytes.{Consumes, Keeps, IsAtEnd};
ghost use Rattle.httparse.specs.Outcome.{IfComplete, OnPartial};
ghost use Rattle.httparse.specs.declared.spans.HeaderSpan.{HeaderSpan};
ghost use Rattle.http_messages.specs.Head.{FoundHead, left};
ghost use Rattle.http_messages.specs.Sound.{StaysSound};

use crate::line::Receive;
use httparse::Status;
use httparse::spans::{HeaderSpan, RequestSpans, parse_request};
use std::io;

/// The most bytes of a head, from the first byte of the input to the empty line that ends its fields.
pub const HEAD_LIMIT: usize = 8192;

/// The most fields of a head (RFC 9112, section 5).
pub const FIELD_LIMIT: usize = 32;

/// A parser of heads: of those of requests, or of those of replies.
pub trait ParseHead {
    /// Where the parts of a head stand.
    type Spans;

    /// What was found in the bytes of the first list, of which the second is the rest: a head, with the spans of its fields and
    /// of its other parts, or that no beginning of all of the input is a head within the limits.
    ghost Found: { List ℕ → List ℕ → List HeaderSpan → Option Self.Spans → Type 0 };

    /// Looks for a head at the front of the bytes. `Partial` says that there is none unless more come, and the error that there is
    /// none whatever comes.
    fn parse(buf: &[u8], headers: &mut [HeaderSpan; FIELD_LIMIT]) -> httparse::Result<Self::Spans>
        requires { length buf.now ≤ 8192 }
        ensures found { IfComplete result (λ spans. (more : List ℕ) → Found buf.now more headers.new (Some spans)) }
        ensures end { OnPartial result (Found buf.now [] headers.new None) }
        ensures full { OnPartial result (length buf.now ≡ 8192 → (more : List ℕ) → Found buf.now more headers.new None) }
        ensures none { OnErr result ((more : List ℕ) → Found buf.now more headers.new None) };
}

/// A parser of the heads of requests (RFC 9112, sections 2 to 5).
pub(crate) struct Requests;

impl ParseHead for Requests {
    type Spans = RequestSpans;

    ghost Found = { FoundHead };

    #[tactic(auto, using(crate::proofs::HeadLemmas::none_in_full))]
    fn parse(
        buf: &[u8],
        headers: &mut [HeaderSpan; FIELD_LIMIT],
    ) -> httparse::Result<RequestSpans> {
        parse_request(buf, headers)
    }
}

/// One read, into the buffer from `at` on. It answers how many bytes came, and 0 where the reader is at its end.
pub fn read_at<R: Receive>(reader: &mut R, buf: &mut [u8], at: usize) -> io::Result<usize>
    requires { at < length buf.old }
    ensures front { take at buf.new ≡ take at buf.old }
    ensures fits { IfOk result (λ n. at + n ≤ length buf.new) }
    ensures ok { IfOk result (λ n. Consumes (R.remaining reader.old) (R.remaining reader.new)
        (take n (drop at buf.new))) }
    ensures err { OnErr result (Keeps (R.remaining reader.old) (R.remaining reader.new)) }
    ensures end { IfOk result (λ n. n ≡ 0 → IsAtEnd (R.remaining reader.new)) }
    ensures sound { StaysSound (R.sound reader.old) result (R.sound reader.new) }
{
    reader.receive(&mut buf[at..])
}

/// Reads a head into the buffer: until it has come, or until it is plain that no beginning of the input is a head within the
/// limits. It answers how many bytes were read, which may be more than the head has, and where the head's parts stand in them;
/// the spans of its fields are in `headers`. The error is that of a call of the reader. It takes no memory.
pub fn read_head<R: Receive, P: ParseHead>(
    reader: &mut R,
    buf: &mut [u8; HEAD_LIMIT],
    headers: &mut [HeaderSpan; FIELD_LIMIT],
) -> io::Result<(usize, Option<P::Spans>)>
    ensures within { IfOk result (λ r. r.0 ≤ 8192) }
    ensures bytes { IfOk result (λ r. Consumes (R.remaining reader.old) (R.remaining reader.new)
        (take r.0 buf.new)) }
    ensures took { (taken : List ℕ) × Consumes (R.remaining reader.old) (R.remaining reader.new) taken × (length taken ≤ 8192) }
    ensures sound { StaysSound (R.sound reader.old) result (R.sound reader.new) }
    ensures head { IfOk result (λ r. P.Found (take r.0 buf.new) (left (R.remaining reader.new)) headers.new r.1) }
{
    let mut filled = 0;
    loop {
        match P::parse(&buf[..filled], headers) {
            Ok(Status::Complete(spans)) => return Ok((filled, Some(spans))),
            Ok(Status::Partial) => {}
            Err(_) => return Ok((filled, None)),
        }
        if filled == HEAD_LIMIT {
            return Ok((filled, None));
        }
        match read_at(reader, buf, filled)? {
            0 => return Ok((filled, None)),
            count => filled += count,
        }
    }
}
