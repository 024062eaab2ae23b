//! Where two values differ.
use canonical_json::Value;

/// One step into a value.
#[derive(Clone, Copy)]
pub enum Step<'v> {
    /// To the member of this name of an object.
    Member(&'v str),
    /// To the item of this index of an array, the first of index 0.
    Item(usize),
}

/// Where two values differ, and what stands there.
#[derive(Drop)]
pub struct Change<'v> {
    /// The steps to the place, from the outermost value. The values differ as a whole where there is none.
    pub place: Vec<Step<'v>>,
    /// What stands there in the first value. `None`: nothing does.
    pub before: Option<&'v Value>,
    /// What stands there in the second value. `None`: nothing does.
    pub after: Option<&'v Value>,
}
