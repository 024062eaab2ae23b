// The documents of a batch as offers.

ghost use Rattle.std.specs.Prelude.{◌≡◌, IfOk};
ghost use Rattle.store.specs.StateViews.{documents_view};
ghost use Rattle.http_serve.specs.steps.Views.{offers_of as offers_of_lem};

use path_patterns::RoleName;
use std::alloc::{AllocError, Global};
use store::Offer;

// The documents with what is offered under their names. The error is want of memory.
pub fn offers_of<'a>(
    alloc: Global,
    documents: Vec<(RoleName, &'a [u8])>,
) -> Result<Vec<(Offer, &'a [u8])>, AllocError>
    ensures { IfOk result (λ v. documents_view v.items ≡ offers_of_lem documents.entry.items) }
{
    let mut offers = Vec::with_capacity(alloc, documents.len())?;
    'documents: for (role, bytes) in documents {
        offers.push((Offer::of(role), bytes))?;
    }
    Ok(offers)
}
