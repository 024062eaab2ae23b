//! The signed parts of layouts and links (in-toto 1.0, sections 4.3 and 4.4).
use crate::documents::{Rule, add_keys, hashes, keys_of, put_rule};
use crate::fault::Fault;
use crate::keys::Keys;
use crate::members::{Members, text_value};
use canonical_json::Value;
use path_patterns::Digest;
use std::alloc::Global;

/// A step of a layout: its name, the rule of its functionaries' keys, and its artifact rules, each its words with spaces between.
#[derive(Drop)]
pub struct Step {
    pub name: String,
    pub rule: Rule,
    pub materials: Vec<String>,
    pub products: Vec<String>,
}

/// What a link says: the step, and what it took and what it made, paths with digests.
#[derive(Clone, Copy)]
pub struct Link<'a> {
    pub name: &'a str,
    pub materials: &'a [(String, Digest)],
    pub products: &'a [(String, Digest)],
}

/// The signed part of a layout with these steps. Its key table has the keys of all of them.
pub fn layout_signed(
    alloc: Global,
    keys: &Keys,
    expires: &str,
    steps: &[Step],
) -> Result<Value, Fault> {
    let mut members = Members::new(alloc);
    members.put_text("_type", "layout");
    members.put_text("expires", expires);
    members.put("inspect", Ok(Value::List(Vec::new(alloc))));
    members.put("keys", key_table(alloc, keys, steps));
    members.put("steps", steps_value(alloc, keys, steps));
    members.object()
}

// The keys of all steps.
fn key_table(alloc: Global, keys: &Keys, steps: &[Step]) -> Result<Value, Fault> {
    let mut all = Vec::new(alloc);
    for step in steps {
        add_keys(&mut all, &step.rule)?;
    }
    keys_of(alloc, keys, &all)
}

fn steps_value(alloc: Global, keys: &Keys, steps: &[Step]) -> Result<Value, Fault> {
    let mut list = Vec::new(alloc);
    for step in steps {
        let value = step_value(alloc, keys, step)?;
        list.push(value)?;
    }
    Ok(Value::List(list))
}

fn step_value(alloc: Global, keys: &Keys, step: &Step) -> Result<Value, Fault> {
    let mut members = Members::new(alloc);
    members.put("expected_materials", rule_list(alloc, &step.materials));
    members.put("expected_products", rule_list(alloc, &step.products));
    members.put_text("name", step.name.as_str());
    put_rule(alloc, keys, "pubkeys", &step.rule, &mut members);
    members.object()
}

fn rule_list(alloc: Global, rules: &[String]) -> Result<Value, Fault> {
    let mut list = Vec::new(alloc);
    for rule in rules {
        let words = words_value(alloc, rule.as_str())?;
        list.push(words)?;
    }
    Ok(Value::List(list))
}

fn words_value(alloc: Global, rule: &str) -> Result<Value, Fault> {
    let mut words = Vec::new(alloc);
    for word in rule.split_whitespace() {
        let value = text_value(alloc, word)?;
        words.push(value)?;
    }
    Ok(Value::List(words))
}

/// The signed part of a link.
pub fn link_signed(alloc: Global, said: &Link<'_>) -> Result<Value, Fault> {
    let mut members = Members::new(alloc);
    members.put_text("_type", "link");
    members.put("materials", artifacts(alloc, said.materials));
    members.put_text("name", said.name);
    members.put("products", artifacts(alloc, said.products));
    members.object()
}

fn artifacts(alloc: Global, said: &[(String, Digest)]) -> Result<Value, Fault> {
    let mut members = Members::new(alloc);
    for (path, digest) in said {
        members.put(path.as_str(), hashes(alloc, digest));
    }
    members.object()
}
