// The bodies of replies that are JSON objects.

ghost use Rattle.std.specs.Prelude.{◌≡◌, Some, None, IfOk, IsTrue, string_bytes};
ghost use Rattle.std.specs.Char.{is_ascii_alphabetic};
ghost use Rattle.std.specs.List.{list_all};
ghost use Rattle.serde_json.specs.View.{view};
ghost use Rattle.http_messages.specs.Bodies.{denial_text, accepted_text, stored_text, pruned_text};
ghost use Rattle.http_messages.specs.steps.Denials.{denied_alone, denied_at};

use crate::reply::{ShortText, push};
use serde_json::{Value, json};
use std::alloc::{AllocError, Global};

/// The body of a denial: its number, the index of the document in its batch, if it was one of a batch, and its name, of
/// letters alone. The error is want of memory.
pub fn denial_body(
    alloc: Global,
    number: u8,
    index: Option<usize>,
    name: &str,
) -> Result<String, AllocError>
    requires letters { IsTrue (list_all is_ascii_alphabetic name.now) }
    ensures { IfOk result (λ s. string_bytes s ≡ denial_text number index name.now) }
{
    match index {
        None => denial_alone(alloc, number, name),
        Some(index) => denial_at(alloc, number, index, name),
    }
}

// A denial outside a batch, as a value.
fn value_alone(alloc: Global, number: u8, name: &str) -> Result<Value, AllocError>
    ensures { IfOk result (λ v. view v ≡ denied_alone number name.now) }
{
    json!(in alloc; {"denial": number, "rule": name})
}

// A denial of a document of a batch, as a value.
fn value_at(alloc: Global, number: u8, index: usize, name: &str) -> Result<Value, AllocError>
    ensures { IfOk result (λ v. view v ≡ denied_at number index name.now) }
{
    json!(in alloc; {"denial": number, "index": index, "rule": name})
}

fn denial_alone(alloc: Global, number: u8, name: &str) -> Result<String, AllocError>
    requires letters { IsTrue (list_all is_ascii_alphabetic name.now) }
    ensures { IfOk result (λ s. string_bytes s ≡ denial_text number None name.now) }
{
    let value = value_alone(alloc, number, name)?;
    value.to_string(alloc)
}

fn denial_at(alloc: Global, number: u8, index: usize, name: &str) -> Result<String, AllocError>
    requires letters { IsTrue (list_all is_ascii_alphabetic name.now) }
    ensures { IfOk result (λ s. string_bytes s ≡ denial_text number (Some index) name.now) }
{
    let value = value_at(alloc, number, index, name)?;
    value.to_string(alloc)
}

/// The body of a batch's reply: how many documents changed something, and how many were held already. It takes no memory.
pub fn accepted_body(accepted: usize, same: usize) -> ShortText
    ensures { result.items ≡ accepted_text accepted same }
{
    let mut body = ShortText::new();
    let mut digits = itoa::Buffer::new();
    push(&mut body, b"{\"accepted\":");
    push(&mut body, digits.format(accepted).as_bytes());
    push(&mut body, b",\"same\":");
    push(&mut body, digits.format(same).as_bytes());
    push(&mut body, b"}");
    body
}

/// The body of an upload's reply: whether the blob is new. It takes no memory.
pub fn stored_body(stored: bool) -> &'static [u8]
    ensures { result.now ≡ stored_text stored }
{
    if stored {
        b"{\"stored\":true}"
    } else {
        b"{\"stored\":false}"
    }
}

/// The body of a prune's reply: how many blobs and how many rows of the shelf were removed. It takes no memory.
pub fn pruned_body(blobs: usize, rows: usize) -> ShortText
    ensures { result.items ≡ pruned_text blobs rows }
{
    let mut body = ShortText::new();
    let mut digits = itoa::Buffer::new();
    push(&mut body, b"{\"blobs\":");
    push(&mut body, digits.format(blobs).as_bytes());
    push(&mut body, b",\"rows\":");
    push(&mut body, digits.format(rows).as_bytes());
    push(&mut body, b"}");
    body
}
