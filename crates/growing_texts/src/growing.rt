//! Lists that grow.
ghost use Rattle.std.specs.Prelude.{◌≡◌, [], None, Some, IfErr, IfOk};
ghost use Rattle.growing_texts.specs.Lists.{Puts, kept};

use std::alloc::{AllocError, Global};

/// A list that grows. After the first part for which memory ran out it takes no more, and there is no list in the end.
#[derive(Drop)]
pub struct Growing<T> {
    list: Vec<T>,
    is_cut: bool,
}

impl<T: Drop> Growing<T> {
    /// An empty list.
    pub fn new(alloc: Global) -> Growing<T>
        ensures { kept result ≡ Some [] }
    {
        Growing {
            list: Vec::new(alloc),
            is_cut: false,
        }
    }

    /// Puts a part after the others, if it was made.
    pub fn put(&mut self, part: Result<T, AllocError>)
        ensures put { IfOk part (Puts self.old self.new) }
        ensures unmade { IfErr part (λ _. kept self.new ≡ None) }
    {
        let Ok(part) = part else {
            self.is_cut = true;
            return;
        };
        if !self.is_cut {
            self.is_cut = self.list.push(part).is_err();
        }
    }

    /// The parts so far.
    pub fn parts(&self) -> &[T]
        ensures { result.now ≡ self.now.list.items }
    {
        &self.list
    }

    /// The whole list.
    pub fn done(self) -> Result<Vec<T>, AllocError>
        ensures done { IfOk result (λ list. kept self ≡ Some list.items) }
        ensures cut { IfErr result (λ _. kept self ≡ None) }
    {
        let Growing { list, is_cut } = self;
        if is_cut {
            return Err(AllocError);
        }
        Ok(list)
    }
}
