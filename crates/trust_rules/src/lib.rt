//! The rules of the trust machine: what is trusted, what each command is judged by and what it leaves, and the laws of all that
//! (TUF 1.0, section 5).
#![tactic(auto)]

mod laws;

pub use laws::{
    accepts_new, chains_go_on, first_profile_as_before, granted_blobs, held_follows, missed_files,
    names_find, nothing_is_valid, offers_tell, one_chain, one_judgement, replies_tell,
    roots_are_taken, rows_stay, stays_coherent, stays_valid,
};
