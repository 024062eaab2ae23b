//! Which paths `get` is asked for.
use cli_faults::{Fault, Notes};
use cli_files::read_at_most;
use cli_tasks::Which;
use limits::BLOB_LIMIT;
use path_patterns::{Pattern, TargetPath, is_pattern, matches_segmented};
use std::alloc::{AllocError, Global};
use std::io::Write;

// So many paths a list may have.
const MOST_LISTED: usize = 4096;

// What is said of a text that is no pattern.
const NO_PATTERN: &str = concat!(
    "error: a pattern is 1 to 200 bytes of A-Z a-z 0-9 . _ - / * ?\n\n",
    "For more information, try '--help'.\n",
);

/// Each text that is to be a pattern is one: another is a fault of the command line.
pub fn see_patterns(alloc: Global, which: &Which) -> Result<(), Fault> {
    if let Which::All { patterns } = which {
        for text in patterns {
            if !is_pattern(text.as_str()) {
                return Err(Fault::Usage(String::from_str(alloc, NO_PATTERN)?));
            }
        }
    }
    Ok(())
}

/// What is asked for.
#[derive(Drop)]
pub enum Wanted {
    /// These texts, which need not be paths, in order and each once.
    Texts(Vec<String>),
    /// All that is listed, of one of these patterns where there are any.
    Listed(Vec<Pattern>),
}

impl Wanted {
    /// What these words ask for, of which each pattern is one. A list that cannot be read, is longer than a target file may be, has more than
    /// 4,096 paths or is no UTF-8 is a fault of a file.
    pub fn read<E: Write>(
        rt: &HostRuntime,
        which: &Which,
        notes: &mut Notes<'_, E>,
    ) -> Result<Wanted, Fault> {
        let alloc = rt.alloc();
        match which {
            Which::All { patterns } => Ok(Wanted::Listed(patterns_of(alloc, patterns)?)),
            Which::Paths { paths } => Ok(Wanted::Texts(in_order(copied(alloc, paths)?))),
            Which::Listed { file } => {
                let bytes = read_at_most(rt, file, BLOB_LIMIT, notes)?;
                match lines_of(alloc, &bytes)? {
                    Ok(lines) => Ok(Wanted::Texts(in_order(lines))),
                    Err(why) => {
                        notes.fault(file, &why);
                        Err(Fault::File)
                    }
                }
            }
        }
    }
}

fn patterns_of(alloc: Global, texts: &[String]) -> Result<Vec<Pattern>, AllocError> {
    let mut patterns = Vec::new(alloc);
    for text in texts {
        if let Some(pattern) = Pattern::read(alloc, text.as_str())? {
            patterns.push(pattern)?;
        }
    }
    Ok(patterns)
}

fn copied(alloc: Global, texts: &[String]) -> Result<Vec<String>, AllocError> {
    let mut copies = Vec::new(alloc);
    for text in texts {
        copies.push(String::from_str(alloc, text.as_str())?)?;
    }
    Ok(copies)
}

// The lines of a list that are not empty, or why it is none.
fn lines_of(alloc: Global, bytes: &[u8]) -> Result<Result<Vec<String>, &'static str>, AllocError> {
    if bytes.len() > BLOB_LIMIT {
        return Ok(Err("longer than 1,048,576 bytes"));
    }
    let Ok(text) = str::from_utf8(bytes) else {
        return Ok(Err("no UTF-8"));
    };
    let mut lines = Vec::new(alloc);
    for line in text.lines() {
        if !line.is_empty() {
            if lines.len() >= MOST_LISTED {
                return Ok(Err("more than 4,096 paths"));
            }
            lines.push(String::from_str(alloc, line)?)?;
        }
    }
    Ok(Ok(lines))
}

// The texts in the order of their bytes, each once.
fn in_order(texts: Vec<String>) -> Vec<String> {
    let mut texts = texts;
    texts.sort_unstable();
    texts.dedup();
    texts
}

/// Those of the paths that one of the patterns covers, or all where there is no pattern. A pattern is one of delegations: its wildcards stand
/// for no slash.
pub fn covered(
    alloc: Global,
    paths: &[String],
    patterns: &[Pattern],
) -> Result<Vec<String>, AllocError> {
    let mut found = Vec::new(alloc);
    for text in paths {
        if patterns.is_empty() || is_covered(alloc, text.as_str(), patterns)? {
            found.push(String::from_str(alloc, text.as_str())?)?;
        }
    }
    Ok(found)
}

fn is_covered(alloc: Global, text: &str, patterns: &[Pattern]) -> Result<bool, AllocError> {
    match TargetPath::read(alloc, text)? {
        Some(path) => Ok(
            patterns
                .iter()
                .any(|pattern| matches_segmented(pattern, &path)),
        ),
        None => Ok(false),
    }
}

/// Whether a pattern covers one of the paths.
pub fn covers_some(alloc: Global, pattern: &Pattern, paths: &[String]) -> Result<bool, AllocError> {
    for text in paths {
        if let Some(path) = TargetPath::read(alloc, text.as_str())? {
            if matches_segmented(pattern, &path) {
                return Ok(true);
            }
        }
    }
    Ok(false)
}
