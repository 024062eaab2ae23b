//! What the words of layouts and links, and of what refers targets to them, write down.
use crate::fault::LineFault;
use crate::files::File;
use crate::words::{digest_word, rule_of, texts_of};
use std::alloc::{AllocError, Global};
use test_files::{Digest, LayoutReference, Link, Step};

/// What the words of a link say: the step, and paths with digests.
#[derive(Drop)]
pub struct SaidLink {
    alloc: Global,
    pub name: String,
    pub materials: Vec<(String, Digest)>,
    pub products: Vec<(String, Digest)>,
}

impl SaidLink {
    /// A link of a step with no name, which took nothing and made nothing.
    pub fn new(alloc: Global) -> SaidLink {
        SaidLink {
            alloc,
            name: String::new(alloc),
            materials: Vec::new(alloc),
            products: Vec::new(alloc),
        }
    }

    /// What they say.
    pub fn said(&self) -> Link<'_> {
        Link {
            name: self.name.as_str(),
            materials: &self.materials,
            products: &self.products,
        }
    }

    /// Takes one more word: `step=NAME`, `<PATH=DIGEST` for a material, `>PATH=DIGEST` for a product; a dash takes it away.
    pub fn take(&mut self, files: &[File], name: &str, value: &str) -> Result<(), LineFault> {
        if let Some(path) = name.strip_prefix("<") {
            return put(self.alloc, &mut self.materials, files, path, value);
        }
        if let Some(path) = name.strip_prefix(">") {
            return put(self.alloc, &mut self.products, files, path, value);
        }
        if name != "step" {
            return Err(LineFault::NotUnderstood);
        }
        self.name = String::from_str(self.alloc, value)?;
        Ok(())
    }
}

fn put(
    alloc: Global,
    artifacts: &mut Vec<(String, Digest)>,
    files: &[File],
    path: &str,
    value: &str,
) -> Result<(), LineFault> {
    artifacts.retain(|held| held.0.as_str() != path);
    if value != "-" {
        let digest = digest_word(files, value)?;
        let path = String::from_str(alloc, path)?;
        artifacts.push((path, digest))?;
    }
    Ok(())
}

/// What refers a target to a layout: `RULE;LINK,LINK..;LAYOUT;PRODUCT;STEP`.
pub fn reference_of(alloc: Global, word: &str) -> Result<LayoutReference, LineFault> {
    let mut parts = [""; 5];
    part_into(word, &mut parts)?;
    let owners = rule_of(alloc, parts[0])?;
    let links = texts_of(alloc, parts[1])?;
    let path = String::from_str(alloc, parts[2])?;
    let product = String::from_str(alloc, parts[3])?;
    let step = String::from_str(alloc, parts[4])?;
    Ok(LayoutReference {
        owners,
        links,
        path,
        product,
        step,
    })
}

/// A step: `RULE;RULES;RULES`, its functionaries, then the artifact rules of its materials and of its products, each list with commas
/// between its rules and each rule with `+` between its words: `6,7:2;ALLOW+src/*,DISALLOW+*;CREATE+dist/*`.
pub fn step_of(alloc: Global, name: &str, word: &str) -> Result<Step, LineFault> {
    let mut parts = [""; 3];
    part_into(word, &mut parts)?;
    let rule = rule_of(alloc, parts[0])?;
    let materials = rules_of(alloc, parts[1])?;
    let products = rules_of(alloc, parts[2])?;
    let name = String::from_str(alloc, name)?;
    Ok(Step {
        name,
        rule,
        materials,
        products,
    })
}

// The parts of a word, with semicolons between them, from the first on.
fn part_into<'a>(word: &'a str, parts: &mut [&'a str]) -> Result<(), LineFault> {
    let mut found = word.split(';');
    for part in parts.iter_mut() {
        match found.next() {
            Some(text) => *part = text,
            None => return Err(LineFault::NotUnderstood),
        }
    }
    Ok(())
}

// The artifact rules of a list, each its words with spaces between.
fn rules_of(alloc: Global, list: &str) -> Result<Vec<String>, LineFault> {
    let mut rules = Vec::new(alloc);
    if list.is_empty() {
        return Ok(rules);
    }
    for rule in list.split(',') {
        let words = spaced(alloc, rule)?;
        rules.push(words)?;
    }
    Ok(rules)
}

fn spaced(alloc: Global, rule: &str) -> Result<String, AllocError> {
    let mut words = String::new(alloc);
    for word in rule.split('+') {
        words.push_str(word)?;
        words.push_str(" ")?;
    }
    Ok(words)
}
