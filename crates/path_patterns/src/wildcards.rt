// The matcher of patterns. It goes along pattern and text once; where they differ, the run that the last `*` stands for
// becomes one byte longer, and it goes on after it. Earlier runs are never looked at again, so it takes at most as many
// steps as the product of the two lengths, each one more.
ghost use Rattle.std.specs.Prelude.{◌≡◌, ◌∷◌, ℕ, true, false, IfSome, IfNone};
ghost use Rattle.path_patterns.specs.Tests as tests;
ghost use Rattle.path_patterns.specs.steps.Walking.{free_of, more_of, IsNext, IsLonger};

// Which bytes wildcards stand for: all but a slash, or any byte.
#[derive(Clone, Copy)]
pub(crate) enum Wildcards {
    Segmented,
    Flat,
}

// What is left of a pattern, and of the text that it is held against.
#[derive(Clone, Copy)]
struct Rest<'a> {
    pattern: &'a [u8],
    text: &'a [u8],
}

// What comes next: the end of both, a byte of the text that passes, the run of a `*`, or a difference.
enum Next<'a> {
    Ended,
    Passed(Rest<'a>),
    Run(Rest<'a>),
    Differs,
}

impl Wildcards {
    fn stand_for(self, b: u8) -> bool
        ensures { result ≡ free_of self b }
    {
        match self {
            Wildcards::Segmented => b != b'/',
            Wildcards::Flat => true,
        }
    }

    // Whether a byte of a pattern that is no `*` stands for the byte.
    fn pass(self, pattern: u8, b: u8) -> bool
        ensures { result ≡ tests.passes (free_of self) pattern b }
    {
        if pattern == b'?' {
            self.stand_for(b)
        } else {
            pattern == b
        }
    }

    pub(crate) fn matches(self, pattern: &[u8], text: &[u8]) -> bool
        ensures { result ≡ tests.matches (free_of self) pattern.now text.now }
    {
        let mut rest = Rest { pattern, text };
        let mut run = None;
        'bytes: loop {
            match rest.next(self) {
                Next::Ended => return true,
                Next::Passed(behind) => rest = behind,
                Next::Run(behind) => {
                    run = Some(behind);
                    rest = behind;
                }
                Next::Differs => {
                    let Some(longer) = longer(run, self) else {
                        return false;
                    };
                    run = Some(longer);
                    rest = longer;
                }
            }
        }
    }
}

impl<'a> Rest<'a> {
    fn next(self, wildcards: Wildcards) -> Next<'a>
        ensures { IsNext (free_of wildcards) self.entry.pattern.now self.entry.text.now result }
    {
        let Some((c, pattern)) = self.pattern.split_first() else {
            return if self.text.is_empty() {
                Next::Ended
            } else {
                Next::Differs
            };
        };
        if *c == b'*' {
            return Next::Run(Rest {
                pattern,
                text: self.text,
            });
        }
        let Some((b, text)) = self.text.split_first() else {
            return Next::Differs;
        };
        if wildcards.pass(*c, *b) {
            Next::Passed(Rest { pattern, text })
        } else {
            Next::Differs
        }
    }
}

// What is left where the run of the last `*` is one byte longer. None where there is no `*`, or no such byte.
fn longer<'a>(run: Option<Rest<'a>>, wildcards: Wildcards) -> Option<Rest<'a>>
    ensures some { IfSome result (λ r. IsLonger (free_of wildcards) run.entry r) }
    ensures none { IfNone result (more_of (free_of wildcards) run.entry ≡ false) }
{
    let run = run?;
    let (b, text) = run.text.split_first()?;
    if !wildcards.stand_for(*b) {
        return None;
    }
    Some(Rest {
        pattern: run.pattern,
        text,
    })
}
