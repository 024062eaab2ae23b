//! The URL of a mirror: the host, the port and the folder that a text says.
ghost use Rattle.std.specs.Prelude.{◌≡◌, ◌≢◌, ◌↔◌, ℕ, ◌<◌, ◌≤◌, List, IfSome, IfNone, IfOk, IsTrue, string_bytes};
ghost use Rattle.std.specs.Fmt.{decimal};
ghost use Rattle.std.specs.List.{list_all};
ghost use Rattle.mirrors.specs.Address.{Authority, FolderPath, IsHost, IsMirror, is_host_byte, name_below};
ghost use Rattle.mirrors.specs.steps.Cut.{IsCut};

use path_patterns::is_target_path;
use std::alloc::{AllocError, Global};

// The port of a URL that names none (RFC 9110, section 4.2.1).
const PORT: u16 = 80;

// The bytes of the longest host.
const LONGEST_HOST: usize = 253;

/// A mirror: the host's name or IPv4 address, the port, both as the URL and the field `Host` of a request write them, and the
/// folder of the files, without a slash before or after it.
#[derive(Clone, Copy, Debug)]
pub struct Mirror<'a> {
    pub host: &'a str,
    pub port: u16,
    pub authority: &'a str,
    pub prefix: &'a str,
}

/// The mirror that a text says: `http://`, in lower case; the host, 1 to 253 bytes of `A-Z a-z 0-9 . -`; where the port is not 80, a
/// colon and the port, 1 to 65535 without zeros in front; where the files are not at the top, a slash and the folder, of the grammar
/// of target paths; and a slash after it or none. Of another text, as one with a user, a query or `https://`, nothing is told. It
/// takes no memory.
pub fn read_mirror(text: &str) -> Option<Mirror<'_>>
    ensures some { IfSome result (λ m. IsMirror text.now m.host.now m.port m.authority.now m.prefix.now) }
    ensures none { IfNone result ((host : List ℕ) (port : ℕ) (authority prefix : List ℕ) → ¬ (IsMirror text.now host port authority prefix)) }
{
    let rest = text.strip_prefix("http://")?;
    let (authority, path) = cut(rest);
    let (host, port) = read_authority(authority)?;
    let prefix = read_path(path)?;
    Some(Mirror {
        host,
        port,
        authority,
        prefix,
    })
}

impl Mirror<'_> {
    /// What a file of this name is asked for by: the name, after the folder's. The error is want of memory.
    pub fn name(&self, alloc: Global, name: &str) -> Result<String, AllocError>
        ensures { IfOk result (λ text. string_bytes text ≡ name_below self.now.prefix.now name.now) }
    {
        let mut text = String::from_str(alloc, self.prefix)?;
        if !self.prefix.is_empty() {
            text.push_str("/")?;
        }
        text.push_str(name)?;
        Ok(text)
    }
}

// The text before its first slash, and from there on.
fn cut(text: &str) -> (&str, &str)
    ensures { IsCut text.now result.0.now result.1.now }
{
    match text.find('/') {
        Some(slash) => text.split_at(slash),
        None => (text, ""),
    }
}

// The host and the port that an authority says.
fn read_authority(text: &str) -> Option<(&str, u16)>
    ensures some { IfSome result (λ r. IsHost r.0.now × Authority r.0.now r.1 text.now) }
    ensures none { IfNone result ((host : List ℕ) (port : ℕ) → IsHost host → ¬ (Authority host port text.now)) }
{
    let Some((host, digits)) = text.split_once(':') else {
        return if is_host(text) {
            Some((text, PORT))
        } else {
            None
        };
    };
    if !is_host(host) {
        return None;
    }
    let port = read_port(digits)?;
    Some((host, port))
}

fn is_host(text: &str) -> bool
    ensures { IsTrue result ↔ (IsHost text.now) }
{
    !text.is_empty() && text.len() <= LONGEST_HOST && are_host_bytes(text.as_bytes())
}

fn are_host_bytes(text: &[u8]) -> bool
    ensures { result ≡ list_all is_host_byte text.now }
{
    text.iter().all(|b| is_host_byte(*b))
}

fn is_host_byte(b: u8) -> bool
    ensures { result ≡ is_host_byte b }
{
    b.is_ascii_alphanumeric() || b == b'.' || b == b'-'
}

// The port that digits say, without zeros in front.
fn read_port(digits: &str) -> Option<u16>
    ensures some { IfSome result (λ p. (0 < p) × (p ≤ 65535) × (digits.now ≡ decimal p)) }
    ensures none { IfNone result ((p : ℕ) → 0 < p → p ≤ 65535 → digits.now ≢ decimal p) }
{
    let Ok(port) = digits.parse::<u16>() else {
        return None;
    };
    if 0 < port && is_spelt(port, digits) {
        Some(port)
    } else {
        None
    }
}

// Whether a text is how the number is written.
fn is_spelt(number: u16, text: &str) -> bool
    ensures { IsTrue result ↔ (text.now ≡ decimal number) }
{
    let mut buffer = itoa::Buffer::new();
    text == buffer.format(number)
}

// The prefix of the folder that a path says.
fn read_path(path: &str) -> Option<&str>
    ensures some { IfSome result (λ p. FolderPath p.now path.now) }
    ensures none { IfNone result ((prefix : List ℕ) → ¬ (FolderPath prefix path.now)) }
{
    let Some(inner) = path.strip_prefix('/') else {
        return if path.is_empty() { Some(path) } else { None };
    };
    if inner.is_empty() || is_target_path(inner) {
        return Some(inner);
    }
    let inner = inner.strip_suffix('/')?;
    if is_target_path(inner) {
        Some(inner)
    } else {
        None
    }
}
