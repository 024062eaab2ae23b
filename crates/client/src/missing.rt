//! The file that a denial says is missing.
ghost use Rattle.std.specs.Prelude.{◌≡◌, MatchOption, IfOk};
ghost use Rattle.denials.specs.Orders as orders;
ghost use Rattle.denials.specs.Views.{denial_view};
ghost use Rattle.client.specs.Wanted as plain;
ghost use Rattle.client.specs.WantedViews.{wanted_view};

use crate::wanted::Wanted;
use path_patterns::{NoMemory, RoleName};
use std::alloc::Global;
use store::Denial;

// The file that a denial says is missing, if it says so.
pub(crate) fn missing(alloc: Global, denial: &Denial) -> Result<Option<Wanted>, NoMemory>
    ensures { IfOk result (λ o. MatchOption o ((w : plain.Wanted) → plain.Misses (denial_view denial.now) w → ⊥)
        (λ w. plain.Misses (denial_view denial.now) (wanted_view w))) }
{
    match denial {
        Denial::RoleMissing { role, version } => missing_role(alloc, role, *version),
        Denial::BlobMissing {
            path,
            digest,
            length,
        } => match Wanted::blob(alloc, path, *digest, *length) {
            Ok(wanted) => Ok(Some(wanted)),
            Err(fault) => Err(fault),
        },
        _ => Ok(None),
    }
}

// The targets document of a role, if the text is a role's name.
fn missing_role(alloc: Global, role: &str, version: u32) -> Result<Option<Wanted>, NoMemory>
    ensures { IfOk result (λ o. MatchOption o ((w : plain.Wanted) → plain.Misses (orders.RoleMissing role.now version) w → ⊥)
        (λ w. plain.Misses (orders.RoleMissing role.now version) (wanted_view w))) }
{
    match RoleName::read(alloc, role) {
        Ok(Some(role)) => match Wanted::row(alloc, role, version) {
            Ok(wanted) => Ok(Some(wanted)),
            Err(fault) => Err(fault),
        },
        Ok(None) => Ok(None),
        Err(fault) => Err(fault),
    }
}
