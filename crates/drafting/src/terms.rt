//! When a draft expires.
use metadata::Moment;

/// The moment at which a draft expires, and the seconds that it is to be valid, which its member `term` says: a further member,
/// which is signed over and decides nothing.
#[derive(Clone, Copy)]
pub struct Terms {
    pub expires: Moment,
    pub seconds: u64,
}
