//! What several mirrors answer together.
ghost use Rattle.std.specs.Prelude.{◌≡◌, [], ◌∷◌, ◌++◌, List, false};
ghost use Rattle.fetch.specs.Source.{Answer, answered};
ghost use Rattle.mirrors.specs.Together.{Together, settles};
ghost use Rattle.mirrors.specs.steps.Joined.{with_none};

use fetch::FetchFault;

/// Whether an answer settles it, so that no other mirror is asked: the file is there, or memory was refused.
pub fn is_settled(answer: &Result<Option<Vec<u8>>, FetchFault>) -> bool
    ensures { result ≡ settles (answered answer.now) }
{
    match answer {
        Ok(file) => file.is_some(),
        Err(FetchFault::OutOfMemory) => true,
        Err(FetchFault::TooLong | FetchFault::Broken) => false,
    }
}

/// What the mirrors answer together that were asked so far, of which none settled it, and one more after them. `Broken` is what none
/// answers.
pub fn together(
    before: Result<Option<Vec<u8>>, FetchFault>,
    next: Result<Option<Vec<u8>>, FetchFault>,
) -> Result<Option<Vec<u8>>, FetchFault>
    ensures { (answers : List Answer) → Together answers (answered before) → settles (answered before) ≡ false
        → Together (answers ++ (answered next ∷ [])) (answered result) }
{
    match next {
        Ok(Some(file)) => Ok(Some(file)),
        Ok(None) => with_none(before),
        Err(FetchFault::Broken) => before,
        Err(FetchFault::TooLong) => Err(FetchFault::TooLong),
        Err(FetchFault::OutOfMemory) => Err(FetchFault::OutOfMemory),
    }
}

// The same, where the one more has no such file.
fn with_none(before: Result<Option<Vec<u8>>, FetchFault>) -> Result<Option<Vec<u8>>, FetchFault>
    ensures { answered result ≡ with_none (answered before) }
{
    match before {
        Ok(_) => Ok(None),
        Err(FetchFault::Broken) => Ok(None),
        Err(FetchFault::TooLong) => Err(FetchFault::TooLong),
        Err(FetchFault::OutOfMemory) => Err(FetchFault::OutOfMemory),
    }
}
