//! The artifact rules of a step (in-toto 1.0, section 4.3.3).
//!
//! Where none are given, a step may use what the step before it left, and leaves that and what it makes: its link may list
//! nothing else.
ghost use Rattle.std.specs.Prelude.{◌≡◌, ◌++◌, [], ◌∷◌, map, IfOk, OnOk};
ghost use Rattle.canonical_json.specs.View.{view};
ghost use Rattle.drafting.specs.steps.Rows.{texts_view};
ghost use Rattle.chain_drafting.specs.Layouts.{all_of, left_by, made, rule_list, said_or, texts, usual_materials, usual_products};
ghost use Rattle.chain_drafting.specs.steps.Said.{given_view, text_of};

use crate::lists::{list_value, push_text, rules_value};
use canonical_json::Value;
use std::alloc::{AllocError, Global};

/// The rules of what a step may use: those that are given, or the usual ones after the step of this name.
pub(crate) fn material_rules(
    alloc: Global,
    before: Option<&str>,
    given: Option<&[Vec<String>]>,
) -> Result<Value, AllocError>
    ensures { IfOk result (λ v. view v ≡ rule_list (said_or (given_view given.entry) (usual_materials (text_of before.entry)))) }
{
    match given {
        Some(rules) => rules_value(alloc, rules),
        None => usual_material_rules(alloc, before),
    }
}

/// The rules of what a step leaves: those that are given, or the usual ones after the step of this name.
pub(crate) fn product_rules(
    alloc: Global,
    before: Option<&str>,
    products: &[String],
    given: Option<&[Vec<String>]>,
) -> Result<Value, AllocError>
    ensures { IfOk result (λ v. view v ≡ rule_list (said_or (given_view given.entry) (usual_products (text_of before.entry) (texts_view products.now)))) }
{
    match given {
        Some(rules) => rules_value(alloc, rules),
        None => usual_product_rules(alloc, before, products),
    }
}

fn usual_material_rules(alloc: Global, before: Option<&str>) -> Result<Value, AllocError>
    ensures { IfOk result (λ v. view v ≡ rule_list (usual_materials (text_of before.entry))) }
{
    let mut list = Vec::new(alloc);
    push_left(alloc, &mut list, before)?;
    push_rule(alloc, &mut list, "DISALLOW", "*")?;
    Ok(list_value(list))
}

fn usual_product_rules(
    alloc: Global,
    before: Option<&str>,
    products: &[String],
) -> Result<Value, AllocError>
    ensures { IfOk result (λ v. view v ≡ rule_list (usual_products (text_of before.entry) (texts_view products.now))) }
{
    let mut list = Vec::new(alloc);
    push_left(alloc, &mut list, before)?;
    push_made(alloc, &mut list, products)?;
    push_rule(alloc, &mut list, "DISALLOW", "*")?;
    Ok(list_value(list))
}

// Puts the rule of what the step of this name left.
fn push_left(alloc: Global, list: &mut Vec<Value>, before: Option<&str>) -> Result<(), AllocError>
    ensures { OnOk result (map view list.new.items ≡ map view list.old.items ++ map texts (left_by (text_of before.entry))) }
{
    let Some(step) = before else {
        return Ok(());
    };
    let value = all_of_value(alloc, step)?;
    list.push(value)?;
    Ok(())
}

// MATCH * WITH PRODUCTS FROM step
fn all_of_value(alloc: Global, step: &str) -> Result<Value, AllocError>
    ensures { IfOk result (λ v. view v ≡ texts (all_of step.now)) }
{
    let mut words = Vec::new(alloc);
    push_text(alloc, &mut words, "MATCH")?;
    push_text(alloc, &mut words, "*")?;
    push_text(alloc, &mut words, "WITH")?;
    push_text(alloc, &mut words, "PRODUCTS")?;
    push_text(alloc, &mut words, "FROM")?;
    push_text(alloc, &mut words, step)?;
    Ok(list_value(words))
}

// Puts the rules of what a step makes.
fn push_made(alloc: Global, list: &mut Vec<Value>, products: &[String]) -> Result<(), AllocError>
    ensures { OnOk result (map view list.new.items ≡ map view list.old.items ++ map texts (made (texts_view products.now))) }
{
    let mut rest = products;
    'products: while let Some((product, later)) = rest.split_first() {
        push_rule(alloc, list, "CREATE", product.as_str())?;
        push_rule(alloc, list, "MODIFY", product.as_str())?;
        rest = later;
    }
    Ok(())
}

// Puts a rule of a keyword and a pattern.
fn push_rule(
    alloc: Global,
    list: &mut Vec<Value>,
    keyword: &str,
    pattern: &str,
) -> Result<(), AllocError>
    ensures { OnOk result (map view list.new.items ≡ map view list.old.items ++ texts (keyword.now ∷ pattern.now ∷ []) ∷ []) }
{
    let value = rule_value(alloc, keyword, pattern)?;
    list.push(value)?;
    Ok(())
}

fn rule_value(alloc: Global, keyword: &str, pattern: &str) -> Result<Value, AllocError>
    ensures { IfOk result (λ v. view v ≡ texts (keyword.now ∷ pattern.now ∷ [])) }
{
    let mut words = Vec::new(alloc);
    push_text(alloc, &mut words, keyword)?;
    push_text(alloc, &mut words, pattern)?;
    Ok(list_value(words))
}
