//! Artifact rules from their words (in-toto 1.0, section 4.3.3).
ghost use Rattle.std.specs.Prelude.{◌≡◌, ℕ, List, [], ◌∷◌, Option, MatchOption, IfOk, codes, map, option_map, string_bytes};
ghost use Rattle.document_parts.specs.Rules as plain;
ghost use Rattle.document_parts.specs.Rules.{AreWordsOf, ArtifactRule, IsFolder, side_word};
ghost use Rattle.document_parts.specs.RuleViews.{match_view, rule_view, side_view};
ghost use Rattle.layout_files.specs.steps.Words.{IsMatch, IsCut};

use document_parts::rules::{Match, Rule, Side};
use path_patterns::{NoMemory, Pattern, RoleName, TargetPath};
use std::alloc::Global;

/// The rule that the words are: a keyword in upper case and what belongs to it, the pattern with the grammar of a pattern, folders and the
/// path of REQUIRE with that of a target path, the step with that of a step's name. `None` where the words are no rule.
pub fn read_rule(alloc: Global, words: &[String]) -> Result<Option<Rule>, NoMemory>
    ensures { IfOk result (λ o. MatchOption o ((r : ArtifactRule) → AreWordsOf (map string_bytes words.now) r → ⊥) (λ r. AreWordsOf (map string_bytes words.now) (rule_view r))) }
{
    let Some((keyword, rest)) = words.split_first() else {
        return Ok(None);
    };
    let Some((text, rest)) = rest.split_first() else {
        return Ok(None);
    };
    if keyword.as_str() == "MATCH" {
        return read_match(alloc, text.as_str(), rest);
    }
    if !rest.is_empty() {
        return Ok(None);
    }
    read_short(alloc, keyword.as_str(), text.as_str())
}

// The rule of a keyword and one text.
fn read_short(alloc: Global, keyword: &str, text: &str) -> Result<Option<Rule>, NoMemory>
    ensures { IfOk result (λ o. MatchOption o ((r : ArtifactRule) → AreWordsOf (keyword.now ∷ text.now ∷ []) r → ⊥) (λ r. AreWordsOf (keyword.now ∷ text.now ∷ []) (rule_view r))) }
{
    if keyword == "REQUIRE" {
        return match TargetPath::read(alloc, text)? {
            Some(path) => Ok(Some(Rule::Require(path))),
            None => Ok(None),
        };
    }
    match Pattern::read(alloc, text)? {
        Some(pattern) => Ok(rule_by(keyword, pattern)),
        None => Ok(None),
    }
}

// The rule of a keyword and a pattern alone.
fn rule_by(keyword: &str, pattern: Pattern) -> Option<Rule>
    ensures { MatchOption result ((r : ArtifactRule) → AreWordsOf (keyword.now ∷ pattern ∷ []) r → (keyword.now ≡ codes "REQUIRE")) (λ r. AreWordsOf (keyword.now ∷ pattern ∷ []) (rule_view r)) }
{
    if keyword == "CREATE" {
        Some(Rule::Create(pattern))
    } else if keyword == "DELETE" {
        Some(Rule::Delete(pattern))
    } else if keyword == "MODIFY" {
        Some(Rule::Modify(pattern))
    } else if keyword == "ALLOW" {
        Some(Rule::Allow(pattern))
    } else if keyword == "DISALLOW" {
        Some(Rule::Disallow(pattern))
    } else {
        None
    }
}

// The rule of MATCH, a pattern, and the words after it.
fn read_match(alloc: Global, pattern: &str, words: &[String]) -> Result<Option<Rule>, NoMemory>
    ensures { IfOk result (λ o. MatchOption o ((r : ArtifactRule) → AreWordsOf (codes "MATCH" ∷ pattern.now ∷ map string_bytes words.now) r → ⊥) (λ r. AreWordsOf (codes "MATCH" ∷ pattern.now ∷ map string_bytes words.now) (rule_view r))) }
{
    let (from, rest) = cut_folder(words);
    let Some((side, rest)) = cut_side(rest) else {
        return Ok(None);
    };
    let (to, rest) = cut_folder(rest);
    let Some(step) = cut_step(rest) else {
        return Ok(None);
    };
    match read_parts(alloc, pattern, from, side, to, step)? {
        Some(rule) => Ok(Some(Rule::Match(rule))),
        None => Ok(None),
    }
}

// The folder after IN, where that is the first word, and the words after it.
fn cut_folder(words: &[String]) -> (Option<&str>, &[String])
    ensures { IsCut (map string_bytes words.now) (option_map (λ t. t.now) result.0) (map string_bytes result.1.now) }
{
    if let Some((first, rest)) = words.split_first()
        && first.as_str() == "IN"
        && let Some((folder, later)) = rest.split_first()
    {
        return (Some(folder.as_str()), later);
    }
    (None, words)
}

// The side after WITH, and the words after it.
fn cut_side(words: &[String]) -> Option<(Side, &[String])>
    ensures { MatchOption result ((s : plain.Side) (ws : List (List ℕ)) → map string_bytes words.now ≡ codes "WITH" ∷ side_word s ∷ ws → ⊥)
        (λ p. map string_bytes words.now ≡ codes "WITH" ∷ side_word (side_view p.0) ∷ map string_bytes p.1.now) }
{
    let (first, rest) = words.split_first()?;
    let (side, later) = rest.split_first()?;
    if first.as_str() != "WITH" {
        None
    } else if side.as_str() == "MATERIALS" {
        Some((Side::Materials, later))
    } else if side.as_str() == "PRODUCTS" {
        Some((Side::Products, later))
    } else {
        None
    }
}

// The step after FROM, where nothing stands after it.
fn cut_step(words: &[String]) -> Option<&str>
    ensures { MatchOption result ((s : List ℕ) → map string_bytes words.now ≡ codes "FROM" ∷ s ∷ [] → ⊥) (λ s. map string_bytes words.now ≡ codes "FROM" ∷ s.now ∷ []) }
{
    let (first, rest) = words.split_first()?;
    let (step, later) = rest.split_first()?;
    if first.as_str() != "FROM" {
        return None;
    }
    match later.split_first() {
        None => Some(step.as_str()),
        Some(_) => None,
    }
}

// The rule of these parts, where each is of its grammar.
fn read_parts(
    alloc: Global,
    pattern: &str,
    from: Option<&str>,
    side: Side,
    to: Option<&str>,
    step: &str,
) -> Result<Option<Match>, NoMemory>
    ensures { IfOk result (λ o. IsMatch pattern.now (option_map (λ t. t.now) from.entry) (side_view side) (option_map (λ t. t.now) to.entry) step.now (option_map match_view o)) }
{
    let Some(pattern) = Pattern::read(alloc, pattern)? else {
        return Ok(None);
    };
    let Some(from) = read_folder(alloc, from)? else {
        return Ok(None);
    };
    let Some(to) = read_folder(alloc, to)? else {
        return Ok(None);
    };
    let Some(step) = RoleName::read(alloc, step)? else {
        return Ok(None);
    };
    Ok(Some(Match {
        pattern,
        from,
        side,
        to,
        step,
    }))
}

// The folder, where one is named. `None` where what is named is none.
fn read_folder(alloc: Global, text: Option<&str>) -> Result<Option<Option<TargetPath>>, NoMemory>
    ensures { IfOk result (λ o. MatchOption o (IsFolder (option_map (λ t. t.now) text.entry) → ⊥) (λ f. (f ≡ option_map (λ t. t.now) text.entry) × IsFolder (option_map (λ t. t.now) text.entry))) }
{
    match text {
        None => Ok(Some(None)),
        Some(text) => match TargetPath::read(alloc, text)? {
            Some(folder) => Ok(Some(Some(folder))),
            None => Ok(None),
        },
    }
}
