//! Lists of texts and of rules as values.
ghost use Rattle.std.specs.Prelude.{◌≡◌, ◌++◌, [], ◌∷◌, map, IfOk, OnOk};
ghost use Rattle.canonical_json.specs.Json.{array, text};
ghost use Rattle.canonical_json.specs.View.{items_of, view};
ghost use Rattle.drafting.specs.steps.Rows.{texts_view};
ghost use Rattle.chain_drafting.specs.Layouts.{rule_list, texts};
ghost use Rattle.drafting.specs.steps.Rows.{rows_view};
ghost use Rattle.chain_drafting.specs.steps.Said.{words_view};

use canonical_json::Value;
use drafting::text_value;
use std::alloc::{AllocError, Global};

/// Puts a text after a list.
pub(crate) fn push_text(alloc: Global, list: &mut Vec<Value>, said: &str) -> Result<(), AllocError>
    ensures { OnOk result (map view list.new.items ≡ map view list.old.items ++ text said.now ∷ []) }
{
    let value = text_value(alloc, said)?;
    list.push(value)?;
    Ok(())
}

/// The list of these texts.
pub(crate) fn texts_value(alloc: Global, words: &[String]) -> Result<Value, AllocError>
    ensures { IfOk result (λ v. view v ≡ texts (texts_view words.now)) }
{
    let mut list = Vec::new(alloc);
    let mut rest = words;
    'words: while let Some((word, later)) = rest.split_first() {
        push_text(alloc, &mut list, word.as_str())?;
        rest = later;
    }
    Ok(list_value(list))
}

/// The list of these rules, each the list of its words.
pub(crate) fn rules_value(alloc: Global, rules: &[Vec<String>]) -> Result<Value, AllocError>
    ensures { IfOk result (λ v. view v ≡ rule_list (words_view rules.now)) }
{
    let mut list = Vec::new(alloc);
    let mut rest = rules;
    'rules: while let Some((words, later)) = rest.split_first() {
        let value = texts_value(alloc, words.as_slice())?;
        list.push(value)?;
        rest = later;
    }
    Ok(list_value(list))
}

/// Puts a member after those of an object.
pub(crate) fn push_member(
    alloc: Global,
    members: &mut Vec<(String, Value)>,
    name: &str,
    value: Value,
) -> Result<(), AllocError>
    ensures { OnOk result (rows_view members.new.items ≡ rows_view members.old.items ++ (name.now, view value) ∷ []) }
{
    let name = String::from_str(alloc, name)?;
    members.push((name, value))?;
    Ok(())
}

/// The list of these values.
pub(crate) fn list_value(values: Vec<Value>) -> Value
    ensures { view result ≡ array (items_of (map view values.items)) }
{
    Value::List(values)
}
