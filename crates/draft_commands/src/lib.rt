//! What `draft root` and `draft targets` do over a folder alone, and what the other drafts have in common with them.
#![tactic(auto)]

mod adding;
mod delegating;
mod drafting_faults;
mod keys;
mod listing;
mod messages;
mod rooting;
mod saving;
mod spreading;
mod terms;

pub use adding::{addition_of, digest_in};
pub use drafting_faults::{document_or_fault, draft_or_fault, usage};
pub use keys::{Known, RuleRead, items_in, key_in_file, last_segment, rule_of};
pub use listing::{TARGETS_DAYS, draft_listing};
pub use messages::{draft_there, print_message};
pub use rooting::draft_rules;
pub use saving::{Before, see_unsigned};
pub use terms::{kept_terms, terms_of};
