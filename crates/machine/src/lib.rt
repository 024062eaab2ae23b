//! The trust machine: what a repository trusts, and what each command does to it (TUF 1.0, section 5).
#![tactic(auto)]

mod laws;
mod pruning;

pub use delegations::{
    File, Moment, RoleName, Root, Row, SearchDenial, Snapshot, Steps, TargetPath, Targets, Verdicts,
};
pub use denials::Denial;
pub use granting::trusted::held::Held;
pub use granting::trusted::names::metadata_file;
pub use granting::trusted::outcome::{Batched, Offer, Outcome};
pub use granting::trusted::pieces::effects::{Blob, Changes, Effects, Gone};
pub use granting::trusted::pieces::parts::BlobLength;
pub use granting::trusted::refusal::{BatchRefusal, Refusal};
pub use granting::trusted::state::State;
pub use granting::trusted::stored::profile_number;
pub use granting::trusted::updating::{root_version, snapshot_due};
pub use granting::{
    Blobs, GetFault, LoadFault, Search, Served, get, get_counted, get_from, get_from_counted,
    search_of, target, target_from, target_from_counted,
};
pub use judging::{
    batch, batch_on, init, init_on, offer, offer_on, put_blob, put_blob_on, would_take,
};
pub use laws::{prune_keeps_answers, sent_again};
pub use metadata::{Digest, Timestamp};
pub use pruning::{prune, prune_on};
pub use repository_rows::{Contents, MetadataRows};
pub use trust_rules::{
    accepts_new, chains_go_on, first_profile_as_before, granted_blobs, held_follows, missed_files,
    names_find, nothing_is_valid, offers_tell, one_chain, one_judgement, replies_tell,
    roots_are_taken, rows_stay, stays_coherent, stays_valid,
};
