//! What stands on one side alone: all of it is new, or all of it is gone.
use crate::keys::key_words;
use crate::lines::Lines;
use crate::listings::{put_listing_side, put_named_side};
use crate::places::{Group, group_at, label};
use crate::rules::{put_delegation_side, put_rule_side};
use crate::spelling::spelled;
use canonical_json::Value;
use std::alloc::{AllocError, Global};
use value_changes::Step;

impl Lines<'_> {
    /// The lines of a value that is new or gone, by its mark, at a place of the document: of what the place stands for, or of each member
    /// where it is an object of others.
    #[cycle(sides)]
    pub(crate) fn put_side<'v>(
        &mut self,
        mark: char,
        place: &[Step<'v>],
        value: &'v Value,
    ) -> Result<(), AllocError> {
        match (group_at(place), value) {
            (Group::Listing(path), _) => put_listing_side(self, mark, path, value),
            (Group::Named(file), _) => put_named_side(self, mark, file, value),
            (Group::Rule(role), _) => put_rule_side(self, mark, role, value),
            (Group::Key(digits), _) => self.put_key(mark, digits),
            (Group::Delegations, Value::List(items)) => self.put_delegations_of(mark, items),
            (Group::Other, Value::Object(members)) if !members.is_empty() => {
                self.put_members(mark, place, members)
            }
            _ => self.put_parts(mark, "", place, value),
        }
    }

    #[cycle(sides)]
    fn put_members<'v>(
        &mut self,
        mark: char,
        place: &[Step<'v>],
        members: &'v [(String, Value)],
    ) -> Result<(), AllocError> {
        for (name, part) in members {
            let place = longer(self.alloc, place, Step::Member(name.as_str()))?;
            self.put_side(mark, &place, part)?;
        }
        Ok(())
    }

    fn put_key(&mut self, mark: char, digits: &str) -> Result<(), AllocError> {
        let words = key_words(self.alloc, self.names, digits, self.whole)?;
        self.put(format!(in self.alloc; "{mark} key {words}"))
    }

    fn put_delegations_of(&mut self, mark: char, items: &[Value]) -> Result<(), AllocError> {
        for item in items {
            put_delegation_side(self, mark, item)?;
        }
        Ok(())
    }

    /// The lines of each scalar in a value, and of what has nothing in it, whose places stand after these words.
    pub(crate) fn put_parts<'v>(
        &mut self,
        mark: char,
        head: &str,
        place: &[Step<'v>],
        value: &'v Value,
    ) -> Result<(), AllocError> {
        match value {
            Value::Object(members) if !members.is_empty() => {
                for (name, part) in members {
                    let place = longer(self.alloc, place, Step::Member(name.as_str()))?;
                    self.put_parts(mark, head, &place, part)?;
                }
                Ok(())
            }
            Value::List(items) if !items.is_empty() => {
                for (index, part) in items.iter().enumerate() {
                    let place = longer(self.alloc, place, Step::Item(index))?;
                    self.put_parts(mark, head, &place, part)?;
                }
                Ok(())
            }
            _ => {
                let label = label(self.alloc, head, place, self.whole)?;
                let value = spelled(self.alloc, value, self.whole)?;
                self.put(format!(in self.alloc; "{mark} {label}: {value}"))
            }
        }
    }

    /// The lines of the members of an object that are none of these, which are said already.
    pub(crate) fn put_others(
        &mut self,
        mark: char,
        head: &str,
        value: &Value,
        said: &[&str],
    ) -> Result<(), AllocError> {
        let Value::Object(members) = value else {
            return Ok(());
        };
        for (name, part) in members {
            if !is_among(said, name.as_str()) {
                let place = longer(self.alloc, &[], Step::Member(name.as_str()))?;
                self.put_parts(mark, head, &place, part)?;
            }
        }
        Ok(())
    }
}

fn is_among(words: &[&str], word: &str) -> bool {
    for one in words {
        if *one == word {
            return true;
        }
    }
    false
}

fn copied<'v>(alloc: Global, place: &[Step<'v>]) -> Result<Vec<Step<'v>>, AllocError> {
    let mut steps = Vec::new(alloc);
    for step in place {
        steps.push(*step)?;
    }
    Ok(steps)
}

// A place and one step more.
fn longer<'v>(
    alloc: Global,
    place: &[Step<'v>],
    step: Step<'v>,
) -> Result<Vec<Step<'v>>, AllocError> {
    let mut steps = copied(alloc, place)?;
    steps.push(step)?;
    Ok(steps)
}
