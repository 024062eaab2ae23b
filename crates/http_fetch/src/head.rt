//! The heads of replies.
ghost use Rattle.http_fetch.specs.steps.Found.{FoundHead};

use http_messages::{FIELD_LIMIT, ParseHead};
use httparse::spans::{HeaderSpan, ResponseSpans, parse_response};

/// A parser of the heads of replies (RFC 9112, section 4).
pub struct Replies;

impl ParseHead for Replies {
    type Spans = ResponseSpans;

    ghost Found = { λ got more _ found. FoundHead got more found };

    #[tactic(auto, using(crate::proofs::Replying::none_in_full))]
    fn parse(
        buf: &[u8],
        headers: &mut [HeaderSpan; FIELD_LIMIT],
    ) -> httparse::Result<ResponseSpans> {
        parse_response(buf, headers)
    }
}
