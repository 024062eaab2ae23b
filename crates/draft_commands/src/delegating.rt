//! Delegations, as words.
use crate::drafting_faults::usage;
use crate::keys::{Known, RuleRead, items_in, rule_of};
use chain_drafting::Delegated;
use cli_faults::{Fault, Notes};
use cli_tasks::TargetsDraft;
use drafting::Rule;
use hash_bins::{Bin, Count, bins_of};
use path_patterns::is_hash_prefix;
use std::alloc::{AllocError, Global};
use std::io::Write;

/// What one word delegates: by one rule to one role, or to as many as there are bins.
#[derive(Drop)]
pub(crate) struct DelegationRead {
    rule: RuleRead,
    parts: Vec<Part>,
}

// A role, and the patterns or the prefixes of what it covers.
#[derive(Drop)]
struct Part {
    name: String,
    covers: Vec<String>,
    has_prefixes: bool,
}

/// A word `NAME=RULE:N`, with the number of bins that it says.
#[derive(Clone, Copy)]
pub(crate) struct BinsSaid<'a> {
    name: &'a str,
    rule: &'a str,
    count: Count,
}

/// The bins that words say, each `NAME=RULE:N`.
pub(crate) fn bins_said<'a>(
    rt: &HostRuntime,
    words: &'a [String],
) -> Result<Vec<BinsSaid<'a>>, Fault> {
    let mut said = Vec::new(rt.alloc());
    for word in words {
        let Some(bins) = bins_in(word.as_str()) else {
            return Err(usage(
                rt.alloc(),
                "error: '--bins' is NAME=RULE:N, N one of 2, 4, 8, 16, 32 and 64\n\nFor more information, try '--help'.\n",
            ));
        };
        said.push(bins)?;
    }
    Ok(said)
}

fn bins_in(word: &str) -> Option<BinsSaid<'_>> {
    let (name, rest) = word.split_once('=')?;
    let (rule, number) = rest.split_once(':')?;
    let count = Count::read(number)?;
    Some(BinsSaid { name, rule, count })
}

/// The delegations that words say, each `NAME=RULE:PATTERN[,..]` or `NAME=RULE:#PREFIX[,..]`, and then those of bins.
pub(crate) fn delegations_of<E: Write>(
    rt: &HostRuntime,
    known: Known<'_>,
    words: &[String],
    bins: &[BinsSaid<'_>],
    notes: &mut Notes<'_, E>,
) -> Result<Vec<DelegationRead>, Fault> {
    let mut read = Vec::new(rt.alloc());
    for word in words {
        read.push(delegation_of(rt, known, word.as_str(), notes)?)?;
    }
    add_bins(rt, known, bins, &mut read, notes)?;
    Ok(read)
}

fn delegation_of<E: Write>(
    rt: &HostRuntime,
    known: Known<'_>,
    word: &str,
    notes: &mut Notes<'_, E>,
) -> Result<DelegationRead, Fault> {
    let Some((name, rest)) = word.split_once('=') else {
        return Err(no_delegation(rt));
    };
    let Some((rule, list)) = rest.split_once(':') else {
        return Err(no_delegation(rt));
    };
    let rule = rule_of(rt, known, rule, notes)?;
    let mut parts = Vec::new(rt.alloc());
    parts.push(part_of(rt.alloc(), name, list, notes)?)?;
    Ok(DelegationRead { rule, parts })
}

fn no_delegation(rt: &HostRuntime) -> Fault {
    usage(
        rt.alloc(),
        "error: '--delegate' is NAME=RULE:PATTERN[,PATTERN..] or NAME=RULE:#PREFIX[,PREFIX..]\n\nFor more information, try '--help'.\n",
    )
}

// A role with what a list has it cover: prefixes of digests, where the list begins with `#`, and else patterns.
fn part_of<E: Write>(
    alloc: Global,
    name: &str,
    list: &str,
    notes: &mut Notes<'_, E>,
) -> Result<Part, AllocError> {
    let (covers, has_prefixes) = match list.strip_prefix('#') {
        Some(prefixes) => (items_in(alloc, prefixes)?, true),
        None => (items_in(alloc, list)?, false),
    };
    if !has_prefixes && covers.iter().all(|text| is_hash_prefix(text.as_str())) {
        notes.warn(
            &name,
            &"its patterns are paths, and look like hex digits: prefixes of a path's SHA-256 are written #00,0f",
        );
    }
    let name = String::from_str(alloc, name)?;
    Ok(Part {
        name,
        covers,
        has_prefixes,
    })
}

fn add_bins<E: Write>(
    rt: &HostRuntime,
    known: Known<'_>,
    bins: &[BinsSaid<'_>],
    read: &mut Vec<DelegationRead>,
    notes: &mut Notes<'_, E>,
) -> Result<(), Fault> {
    for said in bins {
        let rule = rule_of(rt, known, said.rule, notes)?;
        let parts = parts_of(rt.alloc(), said.name, bins_of(rt.alloc(), said.count)?)?;
        read.push(DelegationRead { rule, parts })?;
    }
    Ok(())
}

// The roles of bins, each NAME and its number.
fn parts_of(alloc: Global, name: &str, bins: Vec<Bin>) -> Result<Vec<Part>, AllocError> {
    let mut parts = Vec::new(alloc);
    for bin in bins {
        let Bin { number, prefixes } = bin;
        let name = format!(in alloc; "{name}-{number}")?;
        parts.push(Part {
            name,
            covers: prefixes,
            has_prefixes: true,
        })?;
    }
    Ok(parts)
}

/// The delegations, as what is drafted.
pub(crate) fn lent<'a>(
    rt: &HostRuntime,
    read: &'a [DelegationRead],
    told: &'a TargetsDraft,
) -> Result<Vec<Delegated<'a>>, AllocError> {
    let mut delegations = Vec::new(rt.alloc());
    for one in read {
        lend_parts(one, told, &mut delegations)?;
    }
    Ok(delegations)
}

fn lend_parts<'a>(
    read: &'a DelegationRead,
    told: &'a TargetsDraft,
    delegations: &mut Vec<Delegated<'a>>,
) -> Result<(), AllocError> {
    for part in &read.parts {
        delegations.push(Delegated {
            name: part.name.as_str(),
            rule: Rule {
                threshold: read.rule.threshold,
                keys: &read.rule.keys,
            },
            covers: &part.covers,
            has_prefixes: part.has_prefixes,
            terminating: told.terminating,
            before: told.before.as_deref(),
        })?;
    }
    Ok(())
}
