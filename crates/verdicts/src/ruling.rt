// Whether artifact rules hold.
ghost use Rattle.std.specs.Prelude.{◌≡◌, Some, IfOk, MatchResult, map, slice_get};
ghost use Rattle.artifact_rules.specs.Views.{links_view};
ghost use Rattle.document_parts.specs.RuleViews.{link_view, rule_view};
ghost use Rattle.verdicts.specs.RuleCase.{AreRules, IsFirstNoRule, lists_view, rule_case_view};
ghost use Rattle.verdicts.specs.Verdict.{IsRuling};

use crate::rule_case::RuleCase;
use crate::verdict::Verdict;
use artifact_rules::{RuleFault, check};
use metadata::{Link, Rule, read_rule};
use std::alloc::{AllocError, Global};

/// Whether the rules hold of the link that they are about, or which of them fails first, or which words are no rule's.
pub fn ruling(alloc: Global, case: &RuleCase) -> Result<Verdict, AllocError>
    ensures { IfOk result (IsRuling (rule_case_view case.now)) }
{
    match rules_of(alloc, &case.rules)? {
        Ok(rules) => judged(alloc, case, &rules),
        Err(place) => Ok(Verdict::NoRule(place)),
    }
}

// The same of rules that are read.
fn judged(alloc: Global, case: &RuleCase, rules: &[Rule]) -> Result<Verdict, AllocError>
    requires { AreRules (rule_case_view case.now).rules (map rule_view rules.now) }
    ensures { IfOk result (IsRuling (rule_case_view case.now)) }
{
    let links = lent(alloc, &case.links)?;
    match check(alloc, rules, case.side, own_link(case), &links) {
        Ok(()) => Ok(Verdict::Holds),
        Err(RuleFault::Disallowed(rule, path)) => {
            let path = String::from_str(alloc, path)?;
            Ok(Verdict::Disallowed { rule, path })
        }
        Err(RuleFault::Required(rule, path)) => {
            let path = String::from_str(alloc, path)?;
            Ok(Verdict::Required { rule, path })
        }
        Err(RuleFault::OutOfMemory) => Err(AllocError),
    }
}

// The link that the rules are about.
fn own_link(case: &RuleCase) -> &Link
    ensures { slice_get (map link_view case.now.links.items) case.now.own ≡ Some (link_view result.now) }
{
    let links = case.links.as_slice();
    &links[case.own]
}

// The links, each lent.
fn lent(alloc: Global, links: &[Link]) -> Result<Vec<&Link>, AllocError>
    ensures { IfOk result (λ ls. links_view ls.items ≡ map link_view links.now) }
{
    let mut all = Vec::new(alloc);
    let mut rest = links;
    'links: while let Some((link, later)) = rest.split_first() {
        all.push(link)?;
        rest = later;
    }
    Ok(all)
}

// The rules of these words, or the first place of words that are no rule's.
fn rules_of(alloc: Global, lists: &[Vec<String>]) -> Result<Result<Vec<Rule>, usize>, AllocError>
    ensures { IfOk result (λ read. MatchResult read (λ rules. AreRules (lists_view lists.now) (map rule_view rules.items))
        (λ place. IsFirstNoRule (lists_view lists.now) place)) }
{
    let mut rules = Vec::new(alloc);
    let mut rest = lists;
    'lists: while let Some((words, later)) = rest.split_first() {
        let Some(rule) = read_rule(alloc, words)? else {
            return Ok(Err(rules.len()));
        };
        rules.push(rule)?;
        rest = later;
    }
    Ok(Ok(rules))
}
