//! The request for a file.
ghost use Rattle.std.specs.Prelude.{◌≡◌, IfOk, string_bytes};
ghost use Rattle.http_fetch.specs.Request.{request};

use std::alloc::{AllocError, Global};

/// The request for the file of a name, from a host: `GET /NAME HTTP/1.1`, the host, and that the connection ends with the reply (RFC
/// 9112, sections 3 and 9.6). The name is taken as it is. The error is want of memory.
pub fn request_of(alloc: Global, host: &str, name: &str) -> Result<String, AllocError>
    ensures { IfOk result (λ text. string_bytes text ≡ request host.now name.now) }
{
    let mut text = String::from_str(alloc, "GET /")?;
    text.push_str(name)?;
    text.push_str(" HTTP/1.1\r\nHost: ")?;
    text.push_str(host)?;
    text.push_str("\r\nConnection: close\r\n\r\n")?;
    Ok(text)
}
