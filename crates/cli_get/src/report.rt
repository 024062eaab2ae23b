//! What `get` prints with `--json`, and how several paths end together.
use cli_client::{Denied, Turn, say_answer, say_mirrors, say_source};
use cli_faults::Fault;
use metadata::{Moment, digest_of};
use show_texts::Text;
use std::alloc::{AllocError, Global};

/// What a fetch got: the path, its file, if it was granted, and the turns.
#[derive(Drop)]
pub struct Got<'a> {
    pub path: &'a str,
    pub bytes: Option<Vec<u8>>,
    pub turns: Vec<Turn<'a>>,
}

/// One object of what a fetch got and how it ended, and a line end.
pub fn get_as_json(
    alloc: Global,
    got: &Got<'_>,
    done: &Result<(), Fault>,
    now: Moment,
) -> Result<Vec<u8>, AllocError> {
    let mut text = Text::new(alloc);
    text.say("{\"answer\":");
    say_answer(&mut text, "written", done);
    text.say(",\"length\":");
    match &got.bytes {
        Some(bytes) => text.number("", bytes.len() as u64),
        None => text.say("null"),
    }
    say_mirrors(&mut text, &got.turns);
    text.number(",\"now\":", now.seconds());
    text.quoted(",\"path\":", got.path);
    text.say(",\"sha256\":");
    match &got.bytes {
        Some(bytes) => say_digest(&mut text, bytes),
        None => text.say("null"),
    }
    say_source(&mut text, &got.turns);
    text.say("}\n");
    text.done()
}

fn say_digest(text: &mut Text, bytes: &[u8]) {
    let digits = digest_of(bytes).digits();
    text.quoted("", str::from_utf8(&digits).unwrap_or("-"));
}

/// How one of several paths ended.
#[derive(Clone, Copy)]
pub enum End<'a> {
    /// A file of these bytes was written.
    Written(&'a [u8]),
    Denied(Denied),
    /// The fault's own word.
    Fault(&'static str),
}

/// What became of several paths so far.
#[derive(Drop)]
pub struct Account {
    is_json: bool,
    files: Text,
    mirrors: Text,
    between: &'static str,
    done: Result<(), Fault>,
}

impl Account {
    pub fn new(alloc: Global, is_json: bool) -> Account {
        Account {
            is_json,
            files: Text::new(alloc),
            mirrors: Text::new(alloc),
            between: "",
            done: Ok(()),
        }
    }

    /// Takes the turns in which the metadata of roles were fetched.
    pub fn take_turns(&mut self, turns: &[Turn<'_>]) {
        if self.is_json {
            say_mirrors(&mut self.mirrors, turns);
        }
    }

    /// Takes how a path ended, and its turns.
    pub fn take(&mut self, path: &str, end: End<'_>, turns: &[Turn<'_>]) {
        if self.is_json {
            self.files.say(self.between);
            self.between = ",";
            say_file(&mut self.files, path, end, turns);
        }
    }

    /// Takes a fault. In the end the first of the faults stands, and where there is none the first denial.
    pub fn fail(&mut self, fault: Fault) {
        let is_worse = match &self.done {
            Ok(()) => true,
            Err(first) => first.status() < fault.status(),
        };
        if is_worse {
            self.done = Err(fault);
        }
    }

    /// How all of them ended together, and one object of it, and a line end, where there is to be one.
    pub fn done(
        self,
        alloc: Global,
        now: Moment,
    ) -> (Result<(), Fault>, Result<Vec<u8>, AllocError>) {
        let Account {
            files,
            mirrors,
            done,
            ..
        } = self;
        let text = all_as_json(alloc, files, mirrors, &done, now);
        (done, text)
    }
}

fn all_as_json(
    alloc: Global,
    files: Text,
    mirrors: Text,
    done: &Result<(), Fault>,
    now: Moment,
) -> Result<Vec<u8>, AllocError> {
    let (files, mirrors) = (files.done()?, mirrors.done()?);
    let mut text = Text::new(alloc);
    text.say("{\"answer\":");
    say_answer(&mut text, "written", done);
    text.say(",\"files\":[");
    text.say(str::from_utf8(&files).unwrap_or("-"));
    text.say("]");
    if mirrors.is_empty() {
        say_mirrors(&mut text, &[]);
    }
    text.say(str::from_utf8(&mirrors).unwrap_or("-"));
    text.number(",\"now\":", now.seconds());
    text.say("}\n");
    text.done()
}

// One object of how a path ended.
fn say_file(text: &mut Text, path: &str, end: End<'_>, turns: &[Turn<'_>]) {
    match end {
        End::Written(bytes) => text.number("{\"length\":", bytes.len() as u64),
        End::Denied(denied) => {
            text.quoted("{\"denied\":{\"name\":", denied.name);
            text.number(",\"number\":", u64::from(denied.number));
            text.say("}");
        }
        End::Fault(word) => text.quoted("{\"fault\":", word),
    }
    say_mirrors(text, turns);
    text.quoted(",\"path\":", path);
    if let End::Written(bytes) = end {
        text.say(",\"sha256\":");
        say_digest(text, bytes);
    }
    say_source(text, turns);
    text.say("}");
}
