//! A key that signs documents of a folder, one after the other.
use crate::choosing::{Asking, Standing};
use crate::one::{Judging, One, SigningOne, What};
use crate::ready::ReadyKey;
use cli_faults::{Fault, Notes, Slip};
use cli_files::print;
use cli_tasks::FolderSigning;
use draft_folder::{Folder, Vouching, changes_of, owners_of, rules_for, version_in};
use metadata::{Moment, read_signed};
use plain_text::plain;
use sign_books::Pair;
use sign_checks::Judged;
use std::alloc::{AllocError, Global};
use std::io::{IsTerminal, Write};

/// A key that signs in a folder, and by what its documents are judged.
#[derive(Drop)]
pub struct Signing<'a> {
    rt: &'a HostRuntime,
    asked: &'a FolderSigning,
    folder: Folder<'a>,
    ready: &'a ReadyKey,
    pub judged: Judged<'a>,
    // once its tree is hashed
    pair: Option<Pair>,
}

impl<'a> Signing<'a> {
    pub fn new(
        rt: &'a HostRuntime,
        asked: &'a FolderSigning,
        ready: &'a ReadyKey,
        now: Moment,
    ) -> Signing<'a> {
        let folder = Folder::new(rt, asked.folder.as_str());
        Signing {
            rt,
            asked,
            folder,
            ready,
            judged: Judged::new(rt.alloc(), folder, &ready.signer, ready.name.as_str(), now),
            pair: None,
        }
    }
}

impl Signing<'_> {
    fn alloc(&self) -> Global {
        self.rt.alloc()
    }

    /// Hashes the leaves of its tree, if that was not done.
    pub fn hash<E: Write>(&mut self, notes: &mut Notes<'_, E>) -> Result<(), Fault> {
        if self.pair.is_none() {
            self.pair = Some(self.ready.pair(self.rt, notes)?);
        }
        Ok(())
    }

    /// A rule has the key for the document; of a link any key is one.
    pub fn see_rule<E: Write>(
        &mut self,
        one: One<'_>,
        notes: &mut Notes<'_, E>,
    ) -> Result<(), Fault> {
        let has_rule = match one.what {
            What::Draft(role) => self.judged.has_rule(role, notes)?,
            What::Layout(target) => self.judged.is_owner(target, notes)?,
            What::Link(_) => true,
        };
        if has_rule {
            return Ok(());
        }
        let name = one.name();
        let told = format!(in self.alloc(); "no rule has this key for {name}")?;
        notes.warn(&self.ready.name, &told);
        Err(Fault::Slip(Slip::Stranger))
    }

    /// How the key stands to a file, and to the message that is signed of it.
    pub fn standing<E: Write>(
        &self,
        file: &[u8],
        message: &[u8],
        notes: &mut Notes<'_, E>,
    ) -> Result<Standing, Fault> {
        let mut asking = Asking {
            alloc: self.alloc(),
            half: &self.ready.files.half,
            lower: self.ready.lower,
            top: self.ready.signer.top(),
            file,
            message,
        };
        self.ready.look_over(self.rt, &mut asking, notes)
    }

    /// Tells that it has signed another document of the kind and version.
    pub fn tell_other<E: Write>(&self, notes: &mut Notes<'_, E>) {
        notes.warn(
            &self.ready.name,
            &"the key has signed another document of this kind and version; --again goes on",
        );
    }

    /// Tells that all its leaves are spent.
    pub fn tell_spent<E: Write>(&self, notes: &mut Notes<'_, E>) {
        let most = self.ready.most();
        if let Ok(told) = format!(in self.alloc(); "all its {most} leaves are spent") {
            notes.fault(&self.ready.name, &told);
        }
    }

    /// Signs a document, if the operator agrees, which is answered. The book is opened for it and closed before the document is put in its
    /// place, so that the book's file alone has the leaf then. While a question stands it is not open; what is answered to is looked at again
    /// after the answer, and from then on no other command writes in the folder until it is signed. The document itself is read again in any
    /// case.
    pub fn sign<O: Write, E: Write>(
        &mut self,
        one: One<'_>,
        bytes: &[u8],
        out: &mut O,
        notes: &mut Notes<'_, E>,
    ) -> Result<bool, Fault> {
        self.hash(notes)?;
        if self.asked.yes {
            self.judged.written(one.place);
            self.sign_bytes(one, bytes, out, notes)?;
            return Ok(true);
        }
        self.judged.forget();
        if !self.is_agreed(one, bytes, notes)? {
            return Ok(false);
        }
        let _lock = self.folder.lock(notes)?;
        self.judged.forget();
        let latest = self.folder.file_or_none(one.place, notes)?;
        if !have_one_part(self.alloc(), bytes, &latest)? {
            notes.warn(&one.name(), &"it has changed since it was shown");
            return Err(Fault::Slip(Slip::Different));
        }
        self.sign_bytes(one, &latest, out, notes)?;
        Ok(true)
    }

    /// Judges a document.
    pub fn judge<E: Write>(
        &mut self,
        one: One<'_>,
        bytes: &[u8],
        notes: &mut Notes<'_, E>,
    ) -> Result<(), Fault> {
        let mut judging = Judging {
            judged: &mut self.judged,
            one,
            bytes,
        };
        self.ready.look_over(self.rt, &mut judging, notes)
    }

    // Signs one document, and tells by which leaf.
    fn sign_bytes<O: Write, E: Write>(
        &mut self,
        one: One<'_>,
        bytes: &[u8],
        out: &mut O,
        notes: &mut Notes<'_, E>,
    ) -> Result<(), Fault> {
        let Some(pair) = &mut self.pair else {
            return Ok(());
        };
        let mut signing = SigningOne {
            judging: Judging {
                judged: &mut self.judged,
                one,
                bytes,
            },
            pair,
            again: self.asked.again,
            is_watched: self.rt.stderr().is_terminal(),
        };
        let signed = self.ready.work_over(self.rt, &mut signing, notes)?;
        self.folder.put_named(one.place, &signed, notes)?;
        self.tell(one.name(), &signed, out, notes)
    }

    // Whether the operator agrees, by the answer `y` to the question, which stands after what the document changes. It is judged first.
    fn is_agreed<E: Write>(
        &mut self,
        one: One<'_>,
        bytes: &[u8],
        notes: &mut Notes<'_, E>,
    ) -> Result<bool, Fault> {
        self.judge(one, bytes, notes)?;
        self.ask(one, bytes, notes)?;
        Ok(is_yes(self.rt))
    }

    // What is signed, the rules that it has to meet, and the question.
    fn ask<E: Write>(
        &self,
        one: One<'_>,
        bytes: &[u8],
        notes: &mut Notes<'_, E>,
    ) -> Result<(), Fault> {
        let held = match one.what {
            What::Draft(role) => self.folder.held(role, notes)?,
            What::Layout(_) | What::Link(_) => None,
        };
        for change in &changes_of(self.alloc(), held.as_deref(), bytes, notes.are_told())? {
            notes.progress(change);
        }
        self.tell_rules(one.what, notes)?;
        let question = self.question(one, bytes)?;
        notes.progress(&question);
        Ok(())
    }

    fn question(&self, one: One<'_>, bytes: &[u8]) -> Result<String, Fault> {
        let (alloc, name) = (self.alloc(), one.name());
        if let What::Draft(role) = one.what {
            let version = version_in(alloc, role, bytes)?;
            return Ok(format!(in alloc; "sign {role} {version}? [y/N]")?);
        }
        Ok(format!(in alloc; "sign {name}? [y/N]")?)
    }

    // The rules that what is signed has to meet. A link has none here.
    fn tell_rules<E: Write>(&self, what: What<'_>, notes: &mut Notes<'_, E>) -> Result<(), Fault> {
        let rules = match what {
            What::Draft(role) => rules_for(self.alloc(), self.folder, role, notes)?,
            What::Layout(target) => owners_of(self.alloc(), self.folder, target, notes)?,
            What::Link(_) => Vec::new(self.alloc()),
        };
        for vouching in &rules {
            let line = rule_line(self.alloc(), vouching, rules.len())?;
            notes.progress(&line);
        }
        Ok(())
    }

    // Tells what was signed, and with which leaf.
    fn tell<O: Write, E: Write>(
        &self,
        role: &str,
        signed: &[u8],
        out: &mut O,
        notes: &mut Notes<'_, E>,
    ) -> Result<(), Fault> {
        let spent = match read_signed(self.alloc(), signed) {
            Ok(file) => self.judged.signer.spent_in(self.alloc(), &file)?,
            Err(fault) => return Err(Fault::from(fault)),
        };
        let leaf = match spent {
            Some(spent) => spent.number(),
            None => 0,
        };
        let count = self.ready.most();
        let role = plain(self.alloc(), role)?;
        let text = format!(in self.alloc(); "signed {role} with leaf {leaf} of {count}\n")?;
        if (u64::from(leaf) + 1) * 4 >= u64::from(count) * 3 {
            notes.warn(
                &self.ready.name,
                &"a quarter of its leaves or fewer are left",
            );
        }
        print(out, text.as_bytes(), notes)
    }
}

// A rule in a line: how many of which keys. Where there are several each says whose it is.
fn rule_line(alloc: Global, vouching: &Vouching, rules: usize) -> Result<String, AllocError> {
    let threshold = vouching.rule.threshold;
    let mut line = if rules > 1 {
        let (of, version) = (vouching.of.as_str(), vouching.version);
        format!(in alloc; "rule of {of} {version}: {threshold} of")?
    } else {
        format!(in alloc; "rule: {threshold} of")?
    };
    let mut between = " ";
    for id in &vouching.rule.keyids {
        line.push_str(between)?;
        line.push_str(vouching.key_text(alloc, id)?.as_str())?;
        between = ", ";
    }
    Ok(line)
}

// Whether two files are over one signed part.
fn have_one_part(alloc: Global, one: &[u8], other: &[u8]) -> Result<bool, Fault> {
    let one = read_signed(alloc, one)?;
    let other = read_signed(alloc, other)?;
    Ok(one.signed == other.signed)
}

// Whether the next line of standard input says yes.
fn is_yes(rt: &HostRuntime) -> bool {
    let mut line = String::new(rt.alloc());
    match rt.stdin().read_line(&mut line) {
        Ok(_) => line.as_str().trim() == "y" || line.as_str().trim() == "yes",
        Err(_) => false,
    }
}
