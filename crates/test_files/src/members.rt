//! Objects of canonical JSON.
ghost use Rattle.std.specs.Prelude.{◌≤◌, vec_len};

use crate::fault::Fault;
use canonical_json::Value;
use std::alloc::Global;

/// The members of an object, in the order of their names, whatever the order in which they are put. After the first one that cannot be made
/// there is no object in the end.
#[derive(Drop)]
pub struct Members {
    alloc: Global,
    list: Vec<(String, Value)>,
    fault: Option<Fault>,
}

impl Members {
    /// No members.
    pub fn new(alloc: Global) -> Self {
        Members {
            alloc,
            list: Vec::new(alloc),
            fault: None,
        }
    }

    /// Puts a member at its place, if it was made. A name that is there already stands twice then, and the object has no canonical text.
    pub fn put(&mut self, name: &str, value: Result<Value, Fault>) {
        if self.fault.is_none() {
            self.fault = self.insert(name, value).err();
        }
    }

    fn insert(&mut self, name: &str, value: Result<Value, Fault>) -> Result<(), Fault> {
        let value = value?;
        let at = self.place_of(name);
        let name = String::from_str(self.alloc, name)?;
        self.list.insert(at, (name, value))?;
        Ok(())
    }

    // How many members stand before this name. Most are put in order, so the last is looked at first.
    fn place_of(&self, name: &str) -> usize
        ensures { result ≤ vec_len self.now.list }
    {
        let mut at = self.list.len();
        for (held, _) in self.list.iter().rev() {
            if held.as_str() <= name {
                break;
            }
            at = at.saturating_sub(1);
        }
        at.min(self.list.len())
    }

    /// Puts a text.
    pub fn put_text(&mut self, name: &str, text: &str) {
        self.put(name, text_value(self.alloc, text));
    }

    /// Puts a number.
    pub fn put_number(&mut self, name: &str, number: u32) {
        self.put(name, Ok(Value::Int(i64::from(number))));
    }

    /// The object of these members.
    pub fn object(self) -> Result<Value, Fault> {
        let Members { list, fault, .. } = self;
        match fault {
            Some(fault) => Err(fault),
            None => Ok(Value::Object(list)),
        }
    }
}

/// An object with this member, in the place of those of its name. What is no object stays as it is.
pub fn with_member(alloc: Global, signed: Value, name: &str, value: Value) -> Result<Value, Fault> {
    let Value::Object(list) = signed else {
        return Ok(signed);
    };
    let mut members = Members {
        alloc,
        list,
        fault: None,
    };
    members.list.retain(|held| held.0.as_str() != name);
    members.put(name, Ok(value));
    members.object()
}

/// A text of its own.
pub fn text_value(alloc: Global, text: &str) -> Result<Value, Fault> {
    Ok(Value::Text(String::from_str(alloc, text)?))
}

/// The list of the texts.
pub fn texts(alloc: Global, said: &[String]) -> Result<Value, Fault> {
    let mut list = Vec::new(alloc);
    for text in said {
        let value = text_value(alloc, text.as_str())?;
        list.push(value)?;
    }
    Ok(Value::List(list))
}
