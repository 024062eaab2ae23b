//! Texts of hex digits.
ghost use Rattle.std.specs.Prelude.{◌≡◌, ◌++◌, IfOk, OnOk, flat_map, map, string_bytes};
ghost use Rattle.hash_bins.specs.Bins.{ones, twos};
ghost use Rattle.hash_bins.specs.Views.{texts_view};

use std::alloc::{AllocError, Global};

// The hex digits, in their order.
const DIGITS: [&str; 16] = [
    "0", "1", "2", "3", "4", "5", "6", "7", "8", "9", "a", "b", "c", "d", "e", "f",
];

/// The texts of one hex digit, in their order.
pub(crate) fn of_one(alloc: Global) -> Result<Vec<String>, AllocError>
    ensures { IfOk result (λ texts. texts_view texts.items ≡ ones) }
{
    let mut texts = Vec::new(alloc);
    add_longer(alloc, "", &DIGITS, &mut texts)?;
    Ok(texts)
}

/// The texts of two hex digits, in their order.
pub(crate) fn of_two(alloc: Global) -> Result<Vec<String>, AllocError>
    ensures { IfOk result (λ texts. texts_view texts.items ≡ twos) }
{
    let mut texts = Vec::new(alloc);
    add_all_longer(alloc, &DIGITS, &DIGITS, &mut texts)?;
    Ok(texts)
}

// Adds the texts of each of these beginnings and one of these digits more.
fn add_all_longer(
    alloc: Global,
    fronts: &[&str],
    digits: &[&str],
    texts: &mut Vec<String>,
) -> Result<(), AllocError>
    ensures { OnOk result (texts_view texts.new.items ≡ texts_view texts.old.items ++ flat_map (λ f. map (λ d. f.now ++ d.now) digits.now) fronts.now) }
{
    for front in fronts {
        add_longer(alloc, front, digits, texts)?;
    }
    Ok(())
}

// Adds the texts of this beginning and one of these digits more.
fn add_longer(
    alloc: Global,
    front: &str,
    digits: &[&str],
    texts: &mut Vec<String>,
) -> Result<(), AllocError>
    ensures { OnOk result (texts_view texts.new.items ≡ texts_view texts.old.items ++ map (λ d. front.now ++ d.now) digits.now) }
{
    for digit in digits {
        texts.push(joined(alloc, front, digit)?)?;
    }
    Ok(())
}

fn joined(alloc: Global, front: &str, digit: &str) -> Result<String, AllocError>
    ensures { IfOk result (λ text. string_bytes text ≡ front.now ++ digit.now) }
{
    let mut text = String::from_str(alloc, front)?;
    text.push_str(digit)?;
    Ok(text)
}

/// Texts of their own.
pub(crate) fn copies(alloc: Global, texts: &[String]) -> Result<Vec<String>, AllocError>
    ensures { IfOk result (λ made. texts_view made.items ≡ texts_view texts.now) }
{
    let mut made = Vec::new(alloc);
    let mut rest = texts;
    'rest: while let Some((text, later)) = rest.split_first() {
        made.push(String::from_str(alloc, text.as_str())?)?;
        rest = later;
    }
    Ok(made)
}
