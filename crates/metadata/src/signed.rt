//! A file as whoever signs it sees it, of whatever kind.
ghost use Rattle.std.specs.Prelude.{◌≡◌, ◌⊎◌, IfOk, IfErr};
ghost use Rattle.keys_roles.specs.Views.{entries_view};
ghost use Rattle.metadata.specs.Shape.{IsEnvelopeFault, IsSignedBy};

use crate::document::unread;
use crate::envelope::read_envelope;
use canonical_json::{member, read};
use document_parts::documents::ShapeFault;
use document_parts::trail::Trail;
use keys_roles::Signature;
use limits::FILE_LIMIT;
use std::alloc::Global;

/// The signatures of a file, 0 to 16, and the bytes that they are over, lent from the file.
#[derive(Drop)]
pub struct SignedFile<'a> {
    pub signatures: Vec<Signature>,
    pub signed: &'a [u8],
}

/// The signatures of a file and what they are over (TUF 1.0, section 4.2), or the first check that fails, in this order: at most
/// 262,144 bytes, canonical JSON, an envelope whose signed part has a text `_type`. Nothing else is asked of the signed part.
pub fn read_signed<'a>(alloc: Global, bytes: &'a [u8]) -> Result<SignedFile<'a>, ShapeFault>
    ensures file { IfOk result (λ f. IsSignedBy bytes.now (entries_view f.signatures.items) f.signed.now) }
    ensures fault { IfErr result (λ e. (e ≡ ShapeFault.OutOfMemory) ⊎ IsEnvelopeFault bytes.now e) }
{
    if bytes.len() > FILE_LIMIT {
        return Err(ShapeFault::TooLong);
    }
    let value = match read(alloc, bytes) {
        Ok(value) => value,
        Err(fault) => return Err(unread(fault)),
    };
    let signatures = read_envelope(alloc, &value, &mut Trail::new())?.signatures;
    let Some(signed) = member(bytes, "signed") else {
        return Err(ShapeFault::WrongShape);
    };
    Ok(SignedFile { signatures, signed })
}
