//! How many bins there are, and which prefixes each has.
ghost use Rattle.std.specs.Prelude.{◌≡◌, IfOk, IfSome, IfNone};
ghost use Rattle.hash_bins.specs.Bins.{AreBins, all_of, text_of};
ghost use Rattle.hash_bins.specs.Views.{bin_view, bins_view, texts_view};
ghost use Rattle.hash_bins.specs.steps.Sharing.{share_of};

use crate::texts::{copies, of_one, of_two};
use std::alloc::{AllocError, Global};

/// How many bins there are. Each has the same share of the prefixes of one hex digit, or of two where there are more than 16.
#[derive(Debug, Clone, Copy, PartialEq, Eq)]
pub enum Count {
    Two,
    Four,
    Eight,
    Sixteen,
    ThirtyTwo,
    SixtyFour,
}

/// A bin: its number from 0 on in hex digits, as many as the last one's has, and the prefixes that are its own.
#[derive(Drop)]
pub struct Bin {
    pub number: String,
    pub prefixes: Vec<String>,
}

impl Count {
    /// The number of bins that a text says, if there can be so many.
    pub fn read(text: &str) -> Option<Count>
        ensures some { IfSome result (λ count. text.now ≡ text_of count) }
        ensures none { IfNone result ((count : Count) → text.now ≡ text_of count → ⊥) }
    {
        match text {
            "2" => Some(Count::Two),
            "4" => Some(Count::Four),
            "8" => Some(Count::Eight),
            "16" => Some(Count::Sixteen),
            "32" => Some(Count::ThirtyTwo),
            "64" => Some(Count::SixtyFour),
            _ => None,
        }
    }

    // How many prefixes each bin has.
    fn share(self) -> usize
        ensures { result ≡ share_of self }
    {
        match self {
            Count::Two | Count::ThirtyTwo => 8,
            Count::Four | Count::SixtyFour => 4,
            Count::Eight => 2,
            Count::Sixteen => 1,
        }
    }

    // All texts of as many hex digits as a prefix has.
    fn all(self, alloc: Global) -> Result<Vec<String>, AllocError>
        ensures { IfOk result (λ texts. texts_view texts.items ≡ all_of self) }
    {
        match self {
            Count::Two | Count::Four | Count::Eight | Count::Sixteen => of_one(alloc),
            Count::ThirtyTwo | Count::SixtyFour => of_two(alloc),
        }
    }
}

/// The bins, in their order.
pub fn bins_of(alloc: Global, count: Count) -> Result<Vec<Bin>, AllocError>
    ensures { IfOk result (λ bins. AreBins count (bins_view bins.items)) }
{
    let all = count.all(alloc)?;
    let share = count.share();
    let mut bins = Vec::new(alloc);
    let mut numbers = all.as_slice();
    let mut rest = all.as_slice();
    'numbers: while let Some((number, others)) = numbers.split_first() {
        let Some((own, later)) = rest.split_at_checked(share) else {
            return Ok(bins);
        };
        bins.push(bin_of(alloc, number.as_str(), own)?)?;
        numbers = others;
        rest = later;
    }
    Ok(bins)
}

fn bin_of(alloc: Global, number: &str, own: &[String]) -> Result<Bin, AllocError>
    ensures { IfOk result (λ bin. bin_view bin ≡ record { number = number.now; prefixes = texts_view own.now }) }
{
    let number = String::from_str(alloc, number)?;
    let prefixes = copies(alloc, own)?;
    Ok(Bin { number, prefixes })
}
