ghost use Rattle.std.specs.Prelude.{◌≡◌, ℕ, List, IfErr, IfSome, OnOk};
ghost use Rattle.std.specs.Io.BufRead.{strip_last};
ghost use Rattle.std.specs.Io.KnownBytes.{Appends};
ghost use Rattle.verdicts.specs.Lines.{lines_of, ArePrinted, IsFailure};

use crate::case::CaseFault;
use crate::failure::Failure;
use crate::verdict::answer;
use std::alloc::Global;
use std::io::{BufRead, Write};

/// Prints the verdict on each line of the reader, one a line, up to the first line that is no case. All that is
/// printed is flushed.
pub fn answer_all<R: BufRead, W: Write>(
    alloc: Global,
    input: &mut R,
    output: &mut W,
) -> Result<(), Failure>
    ensures ok { OnOk result (IfSome (R.remaining input.old) (λ text. (printed : List ℕ)
        × ArePrinted (lines_of text) printed × Appends (W.contents output.old) (W.contents output.new) printed)) }
    ensures failure { IfErr result (λ e. IfSome (R.remaining input.old) (λ text.
        IsFailure text (Appends (W.contents output.old) (W.contents output.new)) e)) }
{
    let answered = answer_lines(alloc, input, output);
    output.flush()?;
    answered
}

fn answer_lines<R: BufRead, W: Write>(
    alloc: Global,
    input: &mut R,
    output: &mut W,
) -> Result<(), Failure>
    ensures ok { OnOk result (IfSome (R.remaining input.old) (λ text. (printed : List ℕ)
        × ArePrinted (lines_of text) printed × Appends (W.contents output.old) (W.contents output.new) printed)) }
    ensures failure { IfErr result (λ e. IfSome (R.remaining input.old) (λ text.
        IsFailure text (Appends (W.contents output.old) (W.contents output.new)) e)) }
{
    let mut line = Vec::new(alloc);
    for number in 1..u64::MAX {
        line.clear();
        if input.read_until(b'\n', &mut line)? == 0 {
            return Ok(());
        }
        let verdict = match answer(alloc, without_break(&line)) {
            Ok(verdict) => verdict,
            Err(CaseFault::NotUnderstood) => return Err(Failure::NotUnderstood(number)),
            Err(CaseFault::OutOfMemory) => return Err(Failure::Memory),
        };
        writeln!(output, "{verdict}")?;
    }
    Err(Failure::File)
}

// The line without the line break at its end.
fn without_break(line: &[u8]) -> &[u8]
    ensures { result.now ≡ strip_last 10 line.now }
{
    line.strip_suffix(b"\n").unwrap_or(line)
}
