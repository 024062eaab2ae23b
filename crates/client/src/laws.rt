//! What agreement rests on, in functions that do nothing.
ghost use Rattle.client.specs.Agreement.{AnchorIsBehind};
ghost use Rattle.client.specs.steps.Laws.{GrantLaws, NewLaws, RootLaws, StepLaws};

use delegations::missed_documents;
use metadata::{one_document, one_shape, snapshot_names};
use path_patterns::names_undo;
use trust_rules::{
    accepts_new, chains_go_on, granted_blobs, missed_files, names_find, offers_tell, one_chain,
    one_judgement, roots_are_taken, stays_valid,
};

/// A law, which does nothing: a client that trusts a server's first root alone, where at most 64 roots follow, is behind the server.
pub fn anchor_is_behind()
    ensures { AnchorIsBehind }
{
    one_document();
    one_shape();
}

// The laws of the crates below, by what they speak of.
pub(crate) fn laws()
    ensures roots { RootLaws }
    ensures steps { StepLaws }
    ensures news { NewLaws }
    ensures grants { GrantLaws }
{
    chains_go_on();
    roots_are_taken();
    one_chain();
    stays_valid();
    one_judgement();
    names_find();
    accepts_new();
    granted_blobs();
    offers_tell();
    missed_files();
    missed_documents();
    snapshot_names();
    names_undo();
}
