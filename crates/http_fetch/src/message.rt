//! A request with a body.
ghost use Rattle.std.specs.Prelude.{◌≡◌, IfOk, length};
ghost use Rattle.http_messages.specs.Text.{method_text};
ghost use Rattle.http_fetch.specs.Message.{message_head};

use http_messages::Method;
use std::alloc::{AllocError, Global};

/// A request with a body: its method, the host that it is for, the name after the first `/` of its target, taken as it is, and the body.
#[derive(Clone, Copy, Debug)]
pub struct Message<'a> {
    pub method: Method,
    pub host: &'a str,
    pub name: &'a str,
    pub body: &'a [u8],
}

// What stands before the body of a request: `METHOD /NAME HTTP/1.1`, the host, the body's length, and that the connection ends with
// the reply (RFC 9112, sections 3, 6.2 and 9.6). The error is want of memory.
pub fn head_of(alloc: Global, message: &Message<'_>) -> Result<Vec<u8>, AllocError>
    ensures { IfOk result (λ head. head.items ≡ message_head (method_text message.now.method) message.now.name.now message.now.host.now (length message.now.body.now)) }
{
    let mut digits = itoa::Buffer::new();
    let mut head = Vec::from_slice(alloc, message.method.text())?;
    head.extend_from_slice(b" /")?;
    head.extend_from_slice(message.name.as_bytes())?;
    head.extend_from_slice(b" HTTP/1.1\r\nHost: ")?;
    head.extend_from_slice(message.host.as_bytes())?;
    head.extend_from_slice(b"\r\nContent-Length: ")?;
    head.extend_from_slice(digits.format(message.body.len()).as_bytes())?;
    head.extend_from_slice(b"\r\nConnection: close\r\n\r\n")?;
    Ok(head)
}
