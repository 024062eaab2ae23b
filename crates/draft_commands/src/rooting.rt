//! `draft root`.
use crate::drafting_faults::{document_or_fault, usage};
use crate::keys::{Known, RuleRead, rule_of};
use crate::saving::Before;
use crate::terms::terms_of;
use cli_faults::{Fault, Notes};
use cli_tasks::Drafting;
use draft_folder::Folder;
use drafting::{Rule, TopRole, draft_root};
use metadata::{Kind, Moment};
use show_limits::put_draft;
use std::alloc::AllocError;
use std::io::Write;

// The days that a first root is valid.
const ROOT_DAYS: u64 = 365;

/// Drafts the next root, with these rules for the roles that the words name.
pub fn draft_rules<E: Write>(
    rt: &HostRuntime,
    folder: Folder<'_>,
    asked: &Drafting,
    words: &[String],
    now: Moment,
    notes: &mut Notes<'_, E>,
) -> Result<(), Fault> {
    let before = Before::of(rt, folder, "root", asked.anew, notes)?;
    let read = rules_of(rt, &before, words, notes)?;
    put_root(rt, folder, &before, asked, &read, now, notes)
}

// The roles and the rules that words say.
fn rules_of<E: Write>(
    rt: &HostRuntime,
    before: &Before,
    words: &[String],
    notes: &mut Notes<'_, E>,
) -> Result<Vec<(TopRole, RuleRead)>, Fault> {
    let known = Known {
        kind: Kind::Root,
        files: [before.begun(), before.held()],
    };
    let mut read = Vec::new(rt.alloc());
    for word in words {
        read.push(role_rule_of(rt, known, word.as_str(), notes)?)?;
    }
    Ok(read)
}

// Puts the next root, with these rules.
fn put_root<E: Write>(
    rt: &HostRuntime,
    folder: Folder<'_>,
    before: &Before,
    asked: &Drafting,
    read: &[(TopRole, RuleRead)],
    now: Moment,
    notes: &mut Notes<'_, E>,
) -> Result<(), Fault> {
    let given = asked.expires.as_deref();
    let terms = terms_of(rt.alloc(), given, before.latest(), ROOT_DAYS, now)?;
    let rules = lent(rt, read)?;
    let draft = draft_root(rt.alloc(), before.held(), before.begun(), terms, &rules);
    let draft = document_or_fault(rt.alloc(), draft, "root", notes)?;
    put_draft(rt.alloc(), folder, "root", &draft, notes)
}

fn lent<'a>(
    rt: &HostRuntime,
    read: &'a [(TopRole, RuleRead)],
) -> Result<Vec<(TopRole, Rule<'a>)>, AllocError> {
    let mut rules = Vec::new(rt.alloc());
    for (role, rule) in read {
        let rule = Rule {
            threshold: rule.threshold,
            keys: &rule.keys,
        };
        rules.push((*role, rule))?;
    }
    Ok(rules)
}

// The role and the rule that a word says.
fn role_rule_of<E: Write>(
    rt: &HostRuntime,
    known: Known<'_>,
    word: &str,
    notes: &mut Notes<'_, E>,
) -> Result<(TopRole, RuleRead), Fault> {
    let Some((role, rule)) = word.split_once('=') else {
        return Err(no_rule(rt));
    };
    let Some(role) = top_role(role) else {
        return Err(no_rule(rt));
    };
    Ok((role, rule_of(rt, known, rule, notes)?))
}

fn top_role(name: &str) -> Option<TopRole> {
    match name {
        "root" => Some(TopRole::Root),
        "targets" => Some(TopRole::Targets),
        "snapshot" => Some(TopRole::Snapshot),
        "timestamp" => Some(TopRole::Timestamp),
        _ => None,
    }
}

fn no_rule(rt: &HostRuntime) -> Fault {
    usage(
        rt.alloc(),
        "error: of a root there are ROLE=RULE, ROLE being root, targets, snapshot or timestamp\n\nFor more information, try '--help'.\n",
    )
}
