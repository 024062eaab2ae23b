//! Words about keys and signatures of another tool.
ghost use Rattle.std.specs.Prelude.{◌∷◌, [], IfOk, codes};
ghost use Rattle.clap.specs.Words.{found_of, rows_of};
ghost use Rattle.cli_tasks.specs.CommandLine.{HasAttach, HasKind, HasTexts, IsAsked, LacksTerms};

use crate::drafts::{refuse_chain, refuse_targets};
use crate::given::{fault, refuse, refuse_flag, refuse_levels, text_of, texts_of};
use crate::tasks::{AttachDraft, Draft, Subcommand, Unread};
use clap::ArgMatches;
use std::alloc::Global;

/// `key --public`: beside the file stands nothing of a seed and no new name.
pub fn public_key_of(alloc: Global, given: &ArgMatches<'_>) -> Result<Subcommand, Unread>
    ensures { IfOk result (IsAsked (codes "key") (rows_of (found_of given.now))) }
{
    refuse(alloc, given, "seed", "--public <FILE>")?;
    refuse(alloc, given, "ots", "--public <FILE>")?;
    refuse(alloc, given, "height", "--public <FILE>")?;
    refuse(alloc, given, "new", "--public <FILE>")?;
    refuse(alloc, given, "name", "--public <FILE>")?;
    refuse_levels(alloc, given, "--public <FILE>")?;
    let file = text_of(alloc, given, "public")?;
    Ok(Subcommand::PublicKey { file })
}

/// `draft message ROLE`.
pub fn message_of(alloc: Global, given: &ArgMatches<'_>) -> Result<Draft, Unread>
    ensures { IfOk result (HasKind (rows_of (found_of given.now)) (codes "message")) }
{
    refuse_targets(alloc, given, "message")?;
    refuse_chain(alloc, given, "message")?;
    refuse_terms(alloc, given, "message")?;
    refuse(alloc, given, "db", "message")?;
    let role = one_word_of(alloc, given)?;
    Ok(Draft::Message { role })
}

/// `draft attach ROLE --key K.key SIG`.
pub fn attach_of(alloc: Global, given: &ArgMatches<'_>) -> Result<Draft, Unread>
    ensures { IfOk result (HasKind (rows_of (found_of given.now)) (codes "attach")) }
{
    refuse_targets(alloc, given, "attach")?;
    refuse_chain(alloc, given, "attach")?;
    refuse_terms(alloc, given, "attach")?;
    let told = told_of_attach(alloc, given)?;
    Ok(Draft::Attach(told))
}

fn told_of_attach(alloc: Global, given: &ArgMatches<'_>) -> Result<AttachDraft, Unread>
    ensures { IfOk result (HasAttach (rows_of (found_of given.now))) }
{
    let key = text_of(alloc, given, "key")?;
    let (role, signature) = two_words_of(alloc, given)?;
    Ok(AttachDraft {
        role,
        key,
        signature,
    })
}

// Nothing is drafted: it has no term, and no signatures are taken off.
fn refuse_terms(alloc: Global, given: &ArgMatches<'_>, kind: &str) -> Result<(), Unread>
    ensures { IfOk result (λ _. LacksTerms (rows_of (found_of given.now))) }
{
    refuse(alloc, given, "expires", kind)?;
    refuse_flag(alloc, given, "anew", kind)
}

// The one word.
fn one_word_of(alloc: Global, given: &ArgMatches<'_>) -> Result<String, Unread>
    ensures { IfOk result (λ text. HasTexts (rows_of (found_of given.now)) (codes "word") 1 (text ∷ [])) }
{
    let mut texts = texts_of(alloc, given, "word", 1)?;
    match texts.pop() {
        Some(text) => Ok(text),
        None => Err(fault(alloc, "error: a role is missing\n")),
    }
}

// The two words, which both have to be there.
fn two_words_of(alloc: Global, given: &ArgMatches<'_>) -> Result<(String, String), Unread>
    ensures { IfOk result (λ two. HasTexts (rows_of (found_of given.now)) (codes "word") 2 (two.0 ∷ two.1 ∷ [])) }
{
    let mut texts = texts_of(alloc, given, "word", 2)?;
    let second = texts.pop();
    let first = texts.pop();
    match (first, second) {
        (Some(first), Some(second)) => Ok((first, second)),
        _ => Err(fault(alloc, TWO_WORDS)),
    }
}

// A role alone.
const TWO_WORDS: &str = concat!(
    "error: the following required arguments were not provided:\n",
    "  <ROLE> <SIG>\n\n",
    "For more information, try '--help'.\n",
);
