//! What a folder of drafts has.
use crate::keys::signing_key;
use crate::next::NextWords;
use cli_faults::{Fault, Notes};
use draft_folder::{
    FIRST_DIGITS, Folder, Names, Said, SaidRule, TargetsRead, Vouching, changes_of, has_signed,
    layout_in, links_in, listed_otherwise, name_of_key, read_said, read_said_of, sign_order,
    signed_in, target_of_layout, version_in,
};
use keys_roles::KeyId;
use metadata::{Kind, Moment, SignedFile, read_signed};
use path_patterns::Digest;
use plain_text::{is_plain_name, plain};
use show_limits::bytes_wanted;
use show_texts::{DraftRow, Drafts, Growing, LayoutRow, Next, RuleOf, RuleRow, StepRow, Used};
use std::alloc::{AllocError, Global};
use std::io::Write;

/// What a folder has: each draft with its version and the held one, when it expires, what it changes, who has signed and who has not; the
/// layouts and links; and what is to be done next, over the database where one is given.
pub fn drafts_in<E: Write>(
    alloc: Global,
    folder: Folder<'_>,
    db: Option<&str>,
    now: Moment,
    notes: &mut Notes<'_, E>,
) -> Result<Drafts, Fault> {
    let mut looking = Looking {
        alloc,
        folder,
        targets: TargetsRead::new(alloc, folder),
        db,
        are_met: true,
        is_sealed: false,
        is_waiting: false,
        lacks_targets: false,
        wanted: Vec::new(alloc),
        next: Growing::new(alloc),
        shown: Drafts {
            now: now.seconds(),
            drafts: Vec::new(alloc),
            layouts: Vec::new(alloc),
            links: Vec::new(alloc),
            is_idle: false,
            next: Vec::new(alloc),
            answer: None,
        },
    };
    match looking.look(notes) {
        Ok(()) => Ok(looking.done()?),
        Err(fault) => Err(fault),
    }
}

/// Whether a snapshot would have nothing to list: no top-level targets metadata are drafted or held, and no snapshot that lists them.
pub fn lacks_targets<E: Write>(
    folder: Folder<'_>,
    notes: &mut Notes<'_, E>,
) -> Result<bool, Fault> {
    Ok(folder.latest("targets", notes)?.is_none() && folder.latest("snapshot", notes)?.is_none())
}

// What is known of the folder so far.
#[derive(Drop)]
struct Looking<'a> {
    alloc: Global,
    folder: Folder<'a>,
    targets: TargetsRead<'a>,
    db: Option<&'a str>,
    are_met: bool,
    is_sealed: bool,
    is_waiting: bool,
    lacks_targets: bool,
    wanted: Vec<String>,
    next: Growing<Next>,
    shown: Drafts,
}

impl Looking<'_> {
    fn done(self) -> Result<Drafts, AllocError> {
        let Looking { next, shown, .. } = self;
        let mut shown = shown;
        shown.next = next.done()?;
        Ok(shown)
    }

    fn look<E: Write>(&mut self, notes: &mut Notes<'_, E>) -> Result<(), Fault> {
        self.look_at_layouts(notes)?;
        self.look_at_drafts(notes)?;
        for link in &self.folder.chain_files("links", notes)? {
            self.shown.links.push(plain(self.alloc, link.as_str())?)?;
        }
        self.lacks_targets = lacks_targets(self.folder, notes)?;
        if self.are_met && self.begins(notes)? {
            let next = self.init_next();
            self.next.put(next);
        }
        self.tell_next();
        Ok(())
    }

    // Whether a first root is drafted, and no database is named.
    fn begins<E: Write>(&self, notes: &mut Notes<'_, E>) -> Result<bool, Fault> {
        if self.db.is_some() || !self.lacks_targets {
            return Ok(false);
        }
        let is_drafted = self.folder.draft("root", notes)?.is_some();
        Ok(is_drafted && self.folder.held("root", notes)?.is_none())
    }

    fn look_at_drafts<E: Write>(&mut self, notes: &mut Notes<'_, E>) -> Result<(), Fault> {
        let roles = self.folder.roles(notes)?;
        for order in 0..5u8 {
            for role in &roles {
                if sign_order(role.as_str()) == order {
                    self.look_at_draft(role.as_str(), notes)?;
                }
            }
        }
        Ok(())
    }

    fn look_at_draft<E: Write>(
        &mut self,
        role: &str,
        notes: &mut Notes<'_, E>,
    ) -> Result<(), Fault> {
        self.is_sealed |= role == "timestamp";
        let bytes = self.folder.draft_or_none(role, notes)?;
        let said = read_said(self.alloc, role, &bytes)?;
        self.see_listed(role, &said, notes)?;
        let held = self.folder.held(role, notes)?;
        let version = match &held {
            Some(held) => version_in(self.alloc, role, held)?,
            None => 0,
        };
        let changes = changes_of(self.alloc, held.as_deref(), &bytes, notes.are_told())?;
        let rules = self.targets.rules(role, notes)?;
        self.is_waiting = self.targets.unfinished_layout(&said, notes)?.is_some();
        let length = bytes_wanted(self.alloc, &rules, &bytes)?;
        let rules = self.signers_in(&rules, &bytes)?;
        self.put_draft(role, version, changes, &said, rules, length)
    }

    // Targets metadata that list a layout or a link otherwise than it stands by now are drafted again before they are signed.
    fn see_listed<E: Write>(
        &mut self,
        role: &str,
        said: &Said,
        notes: &mut Notes<'_, E>,
    ) -> Result<(), Fault> {
        if listed_otherwise(self.alloc, self.folder, said, notes)?.is_none() {
            return Ok(());
        }
        self.are_met = false;
        let mut next = NextWords::new(self.alloc, "draft");
        next.option("--in", self.folder.path());
        next.word("targets");
        next.option("--role", role);
        self.next.put(next.done());
        Ok(())
    }

    fn put_draft(
        &mut self,
        role: &str,
        held: u32,
        changes: Vec<String>,
        said: &Said,
        rules: Vec<RuleRow>,
        bytes: Used,
    ) -> Result<(), Fault> {
        let role = String::from_str(self.alloc, role)?;
        self.shown.drafts.push(DraftRow {
            role,
            version: said.version,
            held,
            expires: said.expires.map(|expires| expires.seconds()),
            changes,
            rules,
            bytes,
        })?;
        Ok(())
    }

    // Each layout on its way: its steps, with how many links each has, and who has signed.
    fn look_at_layouts<E: Write>(&mut self, notes: &mut Notes<'_, E>) -> Result<(), Fault> {
        for name in &self.folder.chain_files("layouts", notes)? {
            if let Some(target) = target_of_layout(self.alloc, name.as_str())? {
                self.look_at_layout(target.as_str(), notes)?;
            }
        }
        Ok(())
    }

    fn look_at_layout<E: Write>(
        &mut self,
        target: &str,
        notes: &mut Notes<'_, E>,
    ) -> Result<(), Fault> {
        let owners = self.targets.owners(target, notes)?;
        let Some(bytes) = layout_in(self.alloc, self.folder, target, notes)? else {
            return Ok(());
        };
        let said = read_said_of(self.alloc, Kind::Layout, &bytes)?;
        let rules = self.signers_in(&owners, &bytes)?;
        let mut steps = Vec::new(self.alloc);
        for rule in &said.rules {
            let step = rule.role.as_str();
            let links = links_in(self.alloc, self.folder, target, &said, step, notes)?;
            let row = step_row(self.alloc, &bytes, rule, links)?;
            self.are_met &= !row.is_short();
            steps.push(row)?;
        }
        self.put_layout(target, steps, rules)
    }

    fn put_layout(
        &mut self,
        target: &str,
        steps: Vec<StepRow>,
        rules: Vec<RuleRow>,
    ) -> Result<(), Fault> {
        let target = String::from_str(self.alloc, target)?;
        self.shown.layouts.push(LayoutRow {
            target,
            steps,
            rules,
        })?;
        Ok(())
    }

    // Who has signed the file and who has not, by each of the rules; of a rule that is not met each key is wanted that has not.
    fn signers_in(&mut self, rules: &[Vouching], bytes: &[u8]) -> Result<Vec<RuleRow>, Fault> {
        match read_signed(self.alloc, bytes) {
            Ok(file) => Ok(self.signers_of(rules, &file)?),
            Err(fault) => Err(Fault::from(fault)),
        }
    }

    fn signers_of(
        &mut self,
        rules: &[Vouching],
        file: &SignedFile<'_>,
    ) -> Result<Vec<RuleRow>, AllocError> {
        let mut rows = Vec::new(self.alloc);
        self.are_met &= !rules.is_empty();
        for vouching in rules {
            let row = rule_row(self.alloc, vouching, file, rules.len())?;
            if !row.is_met() {
                self.are_met = false;
                self.want_all(vouching, file)?;
            }
            rows.push(row)?;
        }
        Ok(rows)
    }

    // Each key of the rule that has not signed is wanted, unless what it would sign waits for a layout.
    fn want_all(&mut self, vouching: &Vouching, file: &SignedFile<'_>) -> Result<(), AllocError> {
        if self.is_waiting {
            return Ok(());
        }
        for id in &vouching.rule.keyids {
            if !has_signed(self.alloc, vouching, id, file)? {
                let word = key_word(self.alloc, &vouching.said, id)?;
                self.want(word.as_str())?;
            }
        }
        Ok(())
    }

    // A key that is wanted, once.
    fn want(&mut self, word: &str) -> Result<(), AllocError> {
        if self.wanted.iter().any(|wanted| wanted.as_str() == word) {
            return Ok(());
        }
        self.wanted.push(String::from_str(self.alloc, word)?)?;
        let mut next = NextWords::new(self.alloc, "sign");
        next.option("--key", word);
        next.option("--in", self.folder.path());
        self.next.put(next.done());
        Ok(())
    }

    // What is to be done where no signature is wanted.
    fn tell_next(&mut self) {
        if !self.are_met {
            return;
        }
        if self.shown.drafts.is_empty() {
            self.shown.is_idle = true;
            return;
        }
        let next = if self.lacks_targets || !self.is_sealed {
            self.draft_next()
        } else {
            self.publish_next()
        };
        self.next.put(next);
    }

    // The first root begins a trust: DB stands for a database file.
    fn init_next(&self) -> Result<Next, AllocError> {
        let folder = self.folder.path();
        let root = format!(in self.alloc; "{folder}/root.json")?;
        let mut next = NextWords::new(self.alloc, "init");
        next.option("--db", "DB");
        next.word(root.as_str());
        next.done()
    }

    // The first targets metadata are to be drafted, where FILE stands for a target file, or else the seal.
    fn draft_next(&self) -> Result<Next, AllocError> {
        let mut next = NextWords::new(self.alloc, "draft");
        next.option("--in", self.folder.path());
        if self.lacks_targets {
            next.word("targets");
            next.option("--add", "FILE");
        } else {
            next.word("seal");
        }
        next.done()
    }

    fn publish_next(&self) -> Result<Next, AllocError> {
        let mut next = NextWords::new(self.alloc, "publish");
        if let Some(db) = self.db {
            next.option("--db", db);
        }
        next.option("--in", self.folder.path());
        next.done()
    }
}

// Who of a rule's keys has signed the file, and who has not. Where there are several rules each says whose it is.
fn rule_row(
    alloc: Global,
    vouching: &Vouching,
    file: &SignedFile<'_>,
    rules: usize,
) -> Result<RuleRow, AllocError> {
    let names = Names {
        held: vouching.held.as_deref(),
        draft: &vouching.said,
    };
    let mut signed = Growing::new(alloc);
    let mut unsigned = Growing::new(alloc);
    for id in &vouching.rule.keyids {
        let name = signing_key(alloc, names, id);
        if has_signed(alloc, vouching, id, file)? {
            signed.put(name);
        } else {
            unsigned.put(name);
        }
    }
    let signed = signed.done()?;
    let unsigned = unsigned.done()?;
    let by = if rules > 1 {
        Some(rule_of(alloc, vouching)?)
    } else {
        None
    };
    Ok(RuleRow {
        by,
        threshold: vouching.rule.threshold,
        signed,
        unsigned,
    })
}

// The document that has a rule.
fn rule_of(alloc: Global, vouching: &Vouching) -> Result<RuleOf, AllocError> {
    let role = String::from_str(alloc, vouching.of.as_str())?;
    Ok(RuleOf {
        role,
        version: vouching.version,
    })
}

/// A step by its rule in the file of a layout, with so many links.
pub fn step_row(
    alloc: Global,
    file: &[u8],
    rule: &SaidRule,
    links: usize,
) -> Result<StepRow, AllocError> {
    let said = signed_in(file);
    let names = Names {
        held: Some(said),
        draft: said,
    };
    let mut keys = Growing::new(alloc);
    for id in &rule.keyids {
        keys.put(signing_key(alloc, names, id));
    }
    let keys = keys.done()?;
    let name = plain(alloc, rule.role.as_str())?;
    Ok(StepRow {
        name,
        threshold: rule.threshold,
        keys,
        links,
    })
}

// What `--key` takes for a key: what a document calls it, where that can stand as a word, or else the first digits of its id.
fn key_word(alloc: Global, said: &[u8], id: &KeyId) -> Result<String, AllocError> {
    match name_of_key(said, id) {
        Some(name) if is_plain_name(name) => String::from_str(alloc, name),
        _ => {
            let digits = Digest::new(id.0).text(alloc)?;
            String::from_str(alloc, digits.as_str().get(..FIRST_DIGITS).unwrap_or("-"))
        }
    }
}
