//! What becomes of a target: the roles that a search visits, who lists it, and how it ended.
use crate::drafted::step_row;
use crate::keys::denial_row;
use crate::listing::listed_row;
use canonical_json::member;
use cli_faults::{Denial, Fault};
use cli_repository::{Command, Reply, Search, SearchDenial, Store, search_of};
use draft_folder::{SaidRule, read_said_of};
use metadata::{Kind, LayoutReference, Listing, Moment, SignedFile, TargetPath, read_signed};
use show_texts::{DenialRow, Growing, ListedRow, PathRow, ReferenceRow, StepRow};
use sqlite::Alter;
use std::alloc::{AllocError, Global};

/// What becomes of a target of this path at the moment, and what denies it, if anything does. A path that is none is denied. Where a check
/// before the search fails, no role is visited.
pub fn look_for<S: Alter>(
    alloc: Global,
    repository: &mut Store<S>,
    path: &str,
    now: Moment,
) -> Result<(PathRow, Option<Denial>), Fault> {
    let Some(target) = TargetPath::read(alloc, path)? else {
        return Err(Fault::Denied(Denial::BadPath, None));
    };
    let mut seeing = Seeing {
        alloc,
        now,
        visits: Vec::new(alloc),
        found: Growing::new(alloc),
        listed: None,
        steps: Growing::new(alloc),
    };
    let mut layout = None;
    if let Ok(search) = search_of(repository.held(), &target, now) {
        layout = seeing.tell(&search)?;
    }
    if let Some(layout) = &layout {
        seeing.look_at_steps(repository, layout)?;
    }
    let end = end_of(alloc, repository, path, now)?;
    Ok(seen(alloc, path, seeing, layout, end)?)
}

// The target as it is shown, and what denies it, if anything does.
fn seen(
    alloc: Global,
    path: &str,
    seeing: Seeing,
    layout: Option<ReferenceRow>,
    end: End,
) -> Result<(PathRow, Option<Denial>), AllocError> {
    let End {
        text,
        is_granted,
        denied,
        denial,
    } = end;
    let mut row = row_of(alloc, path, seeing, text)?;
    row.layout = layout;
    row.is_granted = is_granted;
    row.denied = denied;
    Ok((row, denial))
}

fn row_of(alloc: Global, path: &str, seeing: Seeing, end: String) -> Result<PathRow, AllocError> {
    let Seeing {
        visits,
        found,
        listed,
        steps,
        ..
    } = seeing;
    let path = String::from_str(alloc, path)?;
    let found = found.done()?;
    let steps = steps.done()?;
    Ok(PathRow {
        path,
        visits,
        found,
        listed,
        layout: None,
        steps,
        end,
        is_granted: false,
        denied: None,
    })
}

// How a request of the target ends: as it is told, whether the target is granted, and what denies it.
#[derive(Drop)]
struct End {
    text: String,
    is_granted: bool,
    denied: Option<DenialRow>,
    denial: Option<Denial>,
}

// How a request of the target ends: the repository is asked.
fn end_of<S: Alter>(
    alloc: Global,
    repository: &mut Store<S>,
    path: &str,
    now: Moment,
) -> Result<End, AllocError> {
    match repository.apply(Command::Target(path, None), now) {
        Ok(Reply::Bytes(bytes)) => granted(alloc, bytes.len()),
        Ok(Reply::Denied(denial, _)) => denied(alloc, denial),
        _ => Ok(End {
            text: String::from_str(alloc, "not answered")?,
            is_granted: false,
            denied: None,
            denial: None,
        }),
    }
}

fn granted(alloc: Global, length: usize) -> Result<End, AllocError> {
    let text = format!(in alloc; "granted, {length} bytes")?;
    Ok(End {
        text,
        is_granted: true,
        denied: None,
        denial: None,
    })
}

fn denied(alloc: Global, denial: Denial) -> Result<End, AllocError> {
    let row = denial_row(&denial);
    let (number, name) = (row.number, row.name);
    let text = format!(in alloc; "denied {number} {name}")?;
    Ok(End {
        text,
        is_granted: false,
        denied: Some(row),
        denial: Some(denial),
    })
}

// The roles that a search visited, what it found, and the steps of the layout.
#[derive(Drop)]
struct Seeing {
    alloc: Global,
    now: Moment,
    visits: Vec<String>,
    found: Growing<String>,
    listed: Option<ListedRow>,
    steps: Growing<StepRow>,
}

impl Seeing {
    // Tells the visits of a search in their order, and how it ended: by a listing, whose layout is answered, or by the last role.
    fn tell(&mut self, search: &Search<'_>) -> Result<Option<ReferenceRow>, AllocError> {
        let roles = search.visited.roles();
        for role in roles.iter().rev() {
            self.visits.push(String::from_str(self.alloc, role)?)?;
        }
        match &search.answer {
            Ok(found) => self.tell_listed(found.role, found.listing),
            Err(denial) => {
                if let Some(last) = roles.first() {
                    self.tell_ended(last, *denial);
                }
                Ok(None)
            }
        }
    }

    // Tells why the role that was visited last ended the search, if it did.
    fn tell_ended(&mut self, role: &str, denial: SearchDenial<'_>) {
        if let Some(why) = why_ended(denial) {
            self.found
                .put(format!(in self.alloc; "ended by {role}: {why}"));
        }
    }

    // Tells the listing, and what its layout needs.
    fn tell_listed(
        &mut self,
        role: &str,
        listing: &Listing,
    ) -> Result<Option<ReferenceRow>, AllocError> {
        let listed = listed_row(self.alloc, role, listing)?;
        self.found.put(listed_text(self.alloc, &listed));
        self.listed = Some(listed);
        match &listing.layout {
            Some(layout) => Ok(Some(self.tell_layout(layout)?)),
            None => Ok(None),
        }
    }

    fn tell_layout(&mut self, layout: &LayoutReference) -> Result<ReferenceRow, AllocError> {
        let step = layout.step.as_str();
        self.found.put(format!(in self.alloc; "its layout: product of step {step}"));
        let mut links = Vec::new(self.alloc);
        for link in &layout.links {
            let link = link.as_str();
            self.found.put(format!(in self.alloc; "link {link}"));
            links.push(String::from_str(self.alloc, link)?)?;
        }
        let path = String::from_str(self.alloc, layout.path.as_str())?;
        let step = String::from_str(self.alloc, step)?;
        Ok(ReferenceRow { path, step, links })
    }

    // The steps of the layout, if it is granted, with how many links each has of its keys.
    fn look_at_steps<S: Alter>(
        &mut self,
        repository: &mut Store<S>,
        layout: &ReferenceRow,
    ) -> Result<(), Fault> {
        let Some(bytes) = self.target_of(repository, layout.path.as_str()) else {
            return Ok(());
        };
        let Ok(said) = read_said_of(self.alloc, Kind::Layout, &bytes) else {
            return Ok(());
        };
        for rule in &said.rules {
            let links = self.links_of(repository, &layout.links, rule)?;
            self.steps.put(step_row(self.alloc, &bytes, rule, links));
        }
        Ok(())
    }

    fn links_of<S: Alter>(
        &self,
        repository: &mut Store<S>,
        links: &[String],
        rule: &SaidRule,
    ) -> Result<usize, AllocError> {
        let mut count = 0usize;
        for link in links {
            if let Some(bytes) = self.target_of(repository, link.as_str()) {
                if let Ok(file) = read_signed(self.alloc, &bytes) {
                    count = count.saturating_add(usize::from(self.is_of(&file, rule)?));
                }
            }
        }
        Ok(count)
    }

    // Whether the link is of the step, and has an entry of one of its keys.
    fn is_of(&self, link: &SignedFile<'_>, rule: &SaidRule) -> Result<bool, AllocError> {
        let step = rule.role.as_str();
        let name = format!(in self.alloc; "\"{step}\"")?;
        if member(link.signed, "name") != Some(name.as_bytes()) {
            return Ok(false);
        }
        Ok(
            link.signatures
                .iter()
                .any(|signature| rule.keyids.contains(&signature.keyid)),
        )
    }

    // The bytes of a target, if it is granted.
    fn target_of<S: Alter>(&self, repository: &mut Store<S>, path: &str) -> Option<Vec<u8>> {
        match repository.apply(Command::Target(path, None), self.now) {
            Ok(Reply::Bytes(bytes)) => Some(bytes),
            _ => None,
        }
    }
}

// What is listed of a target, as it is told.
fn listed_text(alloc: Global, listed: &ListedRow) -> Result<String, AllocError> {
    let (length, digits) = (listed.length, listed.digest.as_str());
    format!(in alloc; "listed: {length} bytes, {digits}")
}

// Why the last visit ended a search; none where more visits were needed, or none was left.
fn why_ended(denial: SearchDenial<'_>) -> Option<&'static str> {
    match denial {
        SearchDenial::RoleUnlisted => Some("the snapshot does not list it"),
        SearchDenial::RoleMissing { .. } => Some("its document is not held"),
        SearchDenial::RoleLength => Some("its document has another length than the snapshot says"),
        SearchDenial::RoleHash => Some("its document has another digest than the snapshot says"),
        SearchDenial::RoleThreshold => Some("too few keys of its rule have signed"),
        SearchDenial::RoleExpired => Some("it has expired"),
        SearchDenial::TooManyRoles | SearchDenial::NotFound => None,
    }
}
