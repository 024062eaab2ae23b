//! What a script works on.
use crate::source::{Answer, said_by};
use case_databases::{Base, exchange};
use http_serve::Routes;
use metadata::{Kind, Moment, read_date_time};
use script_words::{
    File, Keys, LineFault, OtsType, bytes_of_hex, described, expanded, find, leaves_of, number_of,
    put, signed_by,
};
use std::alloc::{AllocError, Global};

/// Lines that are replayed by one name.
#[derive(Drop)]
pub struct Steps {
    pub name: String,
    pub lines: Vec<String>,
}

/// What a script works on: the moment, the files and the steps that it has named, the database of the case, that of its client, and what the
/// client's source answers in place of what the server would. The databases are lent: what owns one is expensive to prove (docs/GATE.md).
#[derive(Drop)]
pub struct Session<'b> {
    pub alloc: Global,
    pub keys: Keys,
    pub now: Moment,
    pub now_text: String,
    pub files: Vec<File>,
    pub steps: Vec<Steps>,
    /// Steps whose lines are being kept.
    pub kept: Option<Steps>,
    pub routes: Routes,
    pub base: &'b mut Base,
    pub client: &'b mut Base,
    pub answers: Vec<Answer>,
    /// The rows that were looked at last, where nothing was done since.
    pub rows: Option<Vec<String>>,
    /// How often memory was refused within a command or a request.
    pub refusals: u64,
}

// The moment at which a script begins.
const START: &str = "2030-01-01T00:00:00Z";

impl<'b> Session<'b> {
    /// A session with nothing named, over these databases.
    pub fn new(
        alloc: Global,
        base: &'b mut Base,
        client: &'b mut Base,
    ) -> Result<Session<'b>, LineFault> {
        let Some(now) = read_date_time(START) else {
            return Err(LineFault::NotUnderstood);
        };
        let now_text = String::from_str(alloc, START)?;
        let routes = routes(alloc)?;
        Ok(Session {
            alloc,
            keys: Keys::new(alloc, OtsType::W4),
            now,
            now_text,
            files: Vec::new(alloc),
            steps: Vec::new(alloc),
            kept: None,
            routes,
            base,
            client,
            answers: Vec::new(alloc),
            rows: None,
            refusals: 0,
        })
    }
}

impl Session<'_> {
    /// Sets the moment.
    pub fn set_now(&mut self, text: &str) -> Result<(), LineFault> {
        let Some(now) = read_date_time(text) else {
            return Err(LineFault::NotUnderstood);
        };
        self.now = now;
        self.now_text = String::from_str(self.alloc, text)?;
        Ok(())
    }

    /// Forgets the client's database, and what its sources answer.
    pub fn forget_client(&mut self) {
        *self.client = Base::None;
        self.answers.clear();
    }

    /// Puts the client's database in the place of the server's, and the server's in its own.
    pub fn turn(&mut self) {
        exchange(self.base, self.client);
        self.rows = None;
    }

    /// Begins the client's database, where there is none.
    pub fn begin_client(&mut self) -> Result<(), LineFault> {
        if self.client.is_gone() && self.client.begin(self.alloc).is_err() {
            return Err(LineFault::OutOfMemory);
        }
        Ok(())
    }

    /// `PLACE NAME = ANSWER`: what the source at this place answers for a name.
    pub fn answer_at(&mut self, text: &str) -> Result<(), LineFault> {
        let (place, rest) = text.split_once(' ').unwrap_or((text, ""));
        self.answer_for(number_of(place)? as usize, rest)
    }

    /// `NAME = ANSWER`: what the source at this place answers for a name with escapes, or for `*`, any other.
    pub fn answer_for(&mut self, place: usize, text: &str) -> Result<(), LineFault> {
        let Some((name, answer)) = text.split_once(" = ") else {
            return Err(LineFault::NotUnderstood);
        };
        let name = expanded(self.alloc, &self.files, name)?;
        let Ok(name) = str::from_utf8(&name) else {
            return Err(LineFault::NotUnderstood);
        };
        let said = said_by(&self.files, answer)?;
        self.answers.retain(|held| !held.is_of(place, name));
        if let Some(said) = said {
            let name = String::from_str(self.alloc, name)?;
            self.answers.push(Answer { place, name, said })?;
        }
        Ok(())
    }

    /// Names a file: `NAME = FORM`.
    pub fn name_file(&mut self, text: &str) -> Result<(), LineFault> {
        let Some((name, form)) = text.split_once(" = ") else {
            return Err(LineFault::NotUnderstood);
        };
        let (words, bytes) = self.made(form)?;
        put(self.alloc, &mut self.files, name, words, bytes)
    }

    // The words and the bytes of a form: `text TEXT`, `hex DIGITS`, `many N TEXT`, `bytes TEXT`, `cut N NAME`, `signed NAME by LEAF ..`,
    // or the description of a document.
    fn made(&mut self, form: &str) -> Result<(String, Vec<u8>), LineFault> {
        let (word, rest) = form.split_once(' ').unwrap_or((form, ""));
        let bytes = match word {
            "text" => copied(self.alloc, rest.as_bytes()),
            "hex" => bytes_of_hex(self.alloc, rest),
            "bytes" => expanded(self.alloc, &self.files, rest),
            "many" => self.many(rest),
            "cut" => self.cut(rest),
            "signed" => self.signed(rest),
            _ => {
                return described(
                    self.alloc,
                    &mut self.keys,
                    &self.files,
                    self.now_text.as_str(),
                    Kind::Targets,
                    form,
                );
            }
        };
        Ok((String::new(self.alloc), bytes?))
    }

    // `N TEXT`: the bytes of the text, N times.
    fn many(&self, text: &str) -> Result<Vec<u8>, LineFault> {
        let Some((count, part)) = text.split_once(' ') else {
            return Err(LineFault::NotUnderstood);
        };
        let part = expanded(self.alloc, &self.files, part)?;
        let mut bytes = Vec::new(self.alloc);
        for _ in 0..number_of(count)? {
            bytes.extend_from_slice(&part)?;
        }
        Ok(bytes)
    }

    // `N NAME`: the first N bytes of a file.
    fn cut(&self, text: &str) -> Result<Vec<u8>, LineFault> {
        let Some((count, name)) = text.split_once(' ') else {
            return Err(LineFault::NotUnderstood);
        };
        let bytes = &find(&self.files, name)?.bytes;
        let count = (number_of(count)? as usize).min(bytes.len());
        let (front, _) = bytes.split_at(count);
        copied(self.alloc, front)
    }

    // `NAME by LEAF ..`: the file whose signed part is the file of that name.
    fn signed(&mut self, text: &str) -> Result<Vec<u8>, LineFault> {
        let (name, leaves) = text.split_once(" by").unwrap_or((text, ""));
        let leaves = leaves_of(self.alloc, leaves)?;
        let signed = find(&self.files, name)?;
        signed_by(self.alloc, &mut self.keys, &signed.bytes, &leaves)
    }

    /// The bytes of a document: those of a file that is named, or those of the document that is described.
    pub fn document(&mut self, usual: Kind, text: &str) -> Result<Vec<u8>, LineFault> {
        if let Ok(file) = find(&self.files, text) {
            return Ok(file.bytes.clone()?);
        }
        let (_, bytes) = described(
            self.alloc,
            &mut self.keys,
            &self.files,
            self.now_text.as_str(),
            usual,
            text,
        )?;
        Ok(bytes)
    }

    /// Begins steps of this name.
    pub fn begin_steps(&mut self, name: &str) -> Result<(), LineFault> {
        let name = String::from_str(self.alloc, name)?;
        self.kept = Some(Steps {
            name,
            lines: Vec::new(self.alloc),
        });
        Ok(())
    }

    /// Keeps one more line of steps, or all of them at their end.
    pub fn keep(&mut self, kept: Steps, line: &str) -> Result<(), LineFault> {
        if line == "end" {
            self.steps.push(kept)?;
            return Ok(());
        }
        self.kept = Some(longer(self.alloc, kept, line.trim_start())?);
        Ok(())
    }
}

// The steps with one more line.
fn longer(alloc: Global, steps: Steps, line: &str) -> Result<Steps, LineFault> {
    let mut steps = steps;
    steps.lines.push(String::from_str(alloc, line)?)?;
    Ok(steps)
}

fn copied(alloc: Global, bytes: &[u8]) -> Result<Vec<u8>, LineFault> {
    Ok(Vec::from_slice(alloc, bytes)?)
}

fn routes(alloc: Global) -> Result<Routes, AllocError> {
    Routes::new(alloc)
}
