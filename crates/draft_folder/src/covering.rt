//! Which role is to list a target, and which one lists it, by the delegations of a folder's targets metadata: drafts, or else what is held,
//! whoever has signed them.
use crate::said::delegated_by;
use cli_faults::{Fault, Notes};
use cli_files::Folder;
use drafting::{Look, look_at};
use metadata::{Body, Delegation, Document, Kind, TargetPath};
use std::alloc::{AllocError, Global};
use std::io::Write;

// The most roles of a way: as many as a search visits (`delegations`).
const LONGEST_WAY: usize = 32;

/// Which role of a path is sought, among those to which a search comes for it from `targets` on.
#[derive(Clone, Copy, PartialEq, Eq)]
pub enum Sought {
    /// The one that is to list it: the first one that lists it already, or that delegates it to no role.
    Place,
    /// The first one that lists it.
    Lister,
}

// A path on its way: the roles that are to be visited yet, the next one last, those that were, and the one that is sought.
#[derive(Drop)]
struct Way {
    path: TargetPath,
    next: Vec<String>,
    visited: Vec<String>,
    found: Option<String>,
}

// Ways, of which those are looked at that have come to the role.
#[derive(Drop)]
struct Walk {
    sought: Sought,
    role: String,
    ways: Vec<Way>,
}

// The roles that delegations of one role have for a path, in their order, and whether what is after them is no more looked at.
#[derive(Drop)]
struct Covering {
    roles: Vec<String>,
    ends: bool,
}

/// The role that is sought of each path, where there is one within 32 visits. Each document is read once for all paths that come to it after
/// the same number of visits.
pub fn roles_of<E: Write>(
    alloc: Global,
    folder: Folder<'_>,
    sought: Sought,
    paths: Vec<TargetPath>,
    notes: &mut Notes<'_, E>,
) -> Result<Vec<Option<String>>, Fault> {
    let mut walk = Walk {
        sought,
        role: String::new(alloc),
        ways: ways_of(alloc, paths)?,
    };
    for _ in 0..LONGEST_WAY {
        visit_due(alloc, folder, &mut walk, notes)?;
    }
    let Walk { ways, .. } = walk;
    Ok(found_in(alloc, ways)?)
}

// Visits each role to which some way leads next.
fn visit_due<E: Write>(
    alloc: Global,
    folder: Folder<'_>,
    walk: &mut Walk,
    notes: &mut Notes<'_, E>,
) -> Result<(), Fault> {
    for role in due_roles(alloc, &walk.ways)? {
        walk.role = role;
        visit(alloc, folder, walk, notes)?;
    }
    Ok(())
}

fn ways_of(alloc: Global, paths: Vec<TargetPath>) -> Result<Vec<Way>, AllocError> {
    let mut ways = Vec::new(alloc);
    for path in paths {
        let mut next = Vec::new(alloc);
        next.push(String::from_str(alloc, "targets")?)?;
        ways.push(Way {
            path,
            next,
            visited: Vec::new(alloc),
            found: None,
        })?;
    }
    Ok(ways)
}

// The roles that are to be visited next, each once.
fn due_roles(alloc: Global, ways: &[Way]) -> Result<Vec<String>, AllocError> {
    let mut roles = Vec::new(alloc);
    for way in ways {
        if let Some(role) = way.next.last() {
            if !roles.contains(role) {
                roles.push(String::from_str(alloc, role.as_str())?)?;
            }
        }
    }
    Ok(roles)
}

fn found_in(alloc: Global, ways: Vec<Way>) -> Result<Vec<Option<String>>, AllocError> {
    let mut found = Vec::new(alloc);
    for way in ways {
        let Way { found: role, .. } = way;
        found.push(role)?;
    }
    Ok(found)
}

// Visits the role, by its draft or else by what is held of it. Of a role that has neither nothing is known.
fn visit<E: Write>(
    alloc: Global,
    folder: Folder<'_>,
    walk: &mut Walk,
    notes: &mut Notes<'_, E>,
) -> Result<(), Fault> {
    let (latest, place) = folder.latest_named(walk.role.as_str(), notes)?;
    let Some(bytes) = latest else {
        return Ok(walk.step_all(alloc, None)?);
    };
    match look_at(alloc, Kind::Targets, &bytes, walk) {
        Ok(()) => Ok(()),
        Err(fault) => Err(folder.fault_of(place.as_str(), Fault::from(fault), notes)),
    }
}

impl Look for Walk {
    type Seen = ();

    fn look(&mut self, alloc: Global, document: &Document<'_>) -> Result<(), AllocError> {
        self.step_all(alloc, Some(&document.body))
    }
}

impl Walk {
    // Each way that has come to the role goes on from its document, if there is one.
    fn step_all(&mut self, alloc: Global, body: Option<&Body>) -> Result<(), AllocError> {
        let sought = self.sought;
        let role = String::from_str(alloc, self.role.as_str())?;
        for way in &mut self.ways {
            if way.is_at(role.as_str()) {
                way.step(alloc, sought, role.as_str(), body)?;
            }
        }
        Ok(())
    }
}

impl Way {
    // Whether the role is to be visited next.
    fn is_at(&self, role: &str) -> bool {
        match self.next.last() {
            Some(next) => next.as_str() == role,
            None => false,
        }
    }

    // Visits the role, with its document.
    fn step(
        &mut self,
        alloc: Global,
        sought: Sought,
        role: &str,
        body: Option<&Body>,
    ) -> Result<(), AllocError> {
        self.next.pop();
        self.visited.push(String::from_str(alloc, role)?)?;
        if lists(body, &self.path) {
            return self.end_at(alloc, role);
        }
        let covering = covering_of(alloc, sought, body, &self.path, &self.visited)?;
        if sought == Sought::Place && covering.roles.is_empty() {
            return self.end_at(alloc, role);
        }
        self.go_on(alloc, covering)
    }

    // The role is the one that is sought.
    fn end_at(&mut self, alloc: Global, role: &str) -> Result<(), AllocError> {
        self.found = Some(String::from_str(alloc, role)?);
        self.next = Vec::new(alloc);
        Ok(())
    }

    // These roles are visited before all others, or in their place.
    fn go_on(&mut self, alloc: Global, covering: Covering) -> Result<(), AllocError> {
        let mut next = Vec::new(alloc);
        if !covering.ends {
            add_unvisited(alloc, &self.next, &self.visited, &mut next)?;
        }
        for role in covering.roles.iter().rev() {
            next.push(String::from_str(alloc, role.as_str())?)?;
        }
        if self.visited.len() >= LONGEST_WAY {
            next = Vec::new(alloc);
        }
        self.next = next;
        Ok(())
    }
}

// Adds those of the roles that were not visited.
fn add_unvisited(
    alloc: Global,
    roles: &[String],
    visited: &[String],
    unvisited: &mut Vec<String>,
) -> Result<(), AllocError> {
    for role in roles {
        if !visited.contains(role) {
            unvisited.push(String::from_str(alloc, role.as_str())?)?;
        }
    }
    Ok(())
}

fn lists(body: Option<&Body>, path: &TargetPath) -> bool {
    let Some(body) = body else {
        return false;
    };
    match body {
        Body::Targets(targets) => targets.listing(path.as_str()).is_some(),
        _ => false,
    }
}

// The roles to which the document delegates the path: up to a terminating delegation, or where a place is sought the first one that was not
// visited.
fn covering_of(
    alloc: Global,
    sought: Sought,
    body: Option<&Body>,
    path: &TargetPath,
    visited: &[String],
) -> Result<Covering, AllocError> {
    let mut covering = Covering {
        roles: Vec::new(alloc),
        ends: sought == Sought::Place,
    };
    for delegation in delegations_in(body) {
        if delegation.covers(path) {
            covering.take(alloc, delegation, visited)?;
            if delegation.terminating {
                covering.ends = true;
                return Ok(covering);
            }
            if covering.ends && !covering.roles.is_empty() {
                return Ok(covering);
            }
        }
    }
    Ok(covering)
}

fn delegations_in(body: Option<&Body>) -> &[Delegation] {
    match body {
        Some(body) => delegated_by(body),
        None => &[],
    }
}

impl Covering {
    // The role of the delegation is one of them, where it was not visited.
    fn take(
        &mut self,
        alloc: Global,
        delegation: &Delegation,
        visited: &[String],
    ) -> Result<(), AllocError> {
        let role = String::from_str(alloc, delegation.name.as_str())?;
        if !visited.contains(&role) {
            self.roles.push(role)?;
        }
        Ok(())
    }
}
