//! Colours, and the order of rows.
use std::alloc::{AllocError, Global};

pub(crate) const RED: &str = "\x1b[31m";

pub(crate) const GREEN: &str = "\x1b[32m";

pub(crate) const YELLOW: &str = "\x1b[33m";

pub(crate) const PLAIN: &str = "\x1b[0m";

/// The order of the rows by a number of each, the least first.
pub(crate) fn in_order(alloc: Global, numbers: &[u64]) -> Result<Vec<usize>, AllocError> {
    let mut order = Vec::new(alloc);
    for (index, number) in numbers.iter().enumerate() {
        order.push((*number, index))?;
    }
    order.sort_unstable();
    let mut indices = Vec::new(alloc);
    for (_, index) in &order {
        indices.push(*index)?;
    }
    Ok(indices)
}
