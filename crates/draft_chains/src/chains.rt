//! `draft layout`: the layout of a target, and what refers the target to it.
use chain_drafting::{Reference, StepDraft, draft_layout, with_reference};
use cli_faults::{Fault, Notes, Slip};
use cli_files::{FILE_LIMIT, read_at_most};
use cli_tasks::{Drafting, LayoutDraft};
use draft_commands::{
    Before, Known, RuleRead, TARGETS_DAYS, addition_of, digest_in, document_or_fault,
    draft_or_fault, items_in, kept_terms, rule_of, see_unsigned, terms_of, usage,
};
use draft_folder::{Folder, chain_name, layout_in, layout_name, layout_path, link_path, read_said};
use drafting::{Addition, Rule, TargetsChanges, draft_targets};
use keys_roles::key_id;
use metadata::{Kind, Moment};
use show_limits::put_draft;
use std::alloc::{AllocError, Global};
use std::io::Write;

// The days that a layout is valid.
const LAYOUT_DAYS: u64 = 365;

// A step that was read.
#[derive(Drop)]
struct StepRead<'a> {
    name: &'a str,
    rule: RuleRead,
    artifacts: ArtifactsRead,
}

// What is said of its artifacts: its products, and its artifact rules where others are given.
#[derive(Drop)]
struct ArtifactsRead {
    products: Vec<String>,
    material_rules: Vec<Vec<String>>,
    product_rules: Vec<Vec<String>>,
}

/// Drafts the layout of a target that drafted targets metadata list, and refers the target to it. The links that it is to have are told by
/// the keys of the steps until they are there.
pub fn draft_chain<E: Write>(
    rt: &HostRuntime,
    folder: Folder<'_>,
    asked: &Drafting,
    told: &LayoutDraft,
    now: Moment,
    notes: &mut Notes<'_, E>,
) -> Result<(), Fault> {
    let Some(role) = role_of(rt, folder, told.target.as_str(), notes)? else {
        notes.warn(&told.target, &"no drafted targets metadata list it");
        return Err(Fault::Slip(Slip::Path));
    };
    let chain = Chain {
        rt,
        folder,
        role: role.as_str(),
        target: told.target.as_str(),
    };
    let before = Before::of(rt, folder, chain.role, asked.anew, notes)?;
    chain.draft(&before, asked, told, now, notes)
}

/// The role of the drafted targets metadata that list a target.
pub fn role_of<E: Write>(
    rt: &HostRuntime,
    folder: Folder<'_>,
    target: &str,
    notes: &mut Notes<'_, E>,
) -> Result<Option<String>, Fault> {
    for role in folder.roles(notes)? {
        if Kind::of_role(role.as_str()) == Kind::Targets {
            let bytes = folder.draft_or_none(role.as_str(), notes)?;
            if lists(rt.alloc(), role.as_str(), &bytes, target)? {
                return Ok(Some(role));
            }
        }
    }
    Ok(None)
}

fn lists(alloc: Global, role: &str, bytes: &[u8], target: &str) -> Result<bool, Fault> {
    let said = read_said(alloc, role, bytes)?;
    Ok(said.listed(target).is_some())
}

// The steps that words say, each `STEP=RULE:PRODUCT[,..]`.
fn steps_of<'a, E: Write>(
    rt: &HostRuntime,
    known: Known<'_>,
    told: &'a LayoutDraft,
    notes: &mut Notes<'_, E>,
) -> Result<Vec<StepRead<'a>>, Fault> {
    let Some(file) = &told.rules else {
        return steps_by(rt, known, told, "", notes);
    };
    let bytes = read_at_most(rt, file.as_str(), FILE_LIMIT, notes)?;
    match str::from_utf8(&bytes) {
        Ok(lines) => steps_by(rt, known, told, lines, notes),
        Err(_) => {
            notes.fault(file, &"not UTF-8");
            Err(Fault::File)
        }
    }
}

// The same with the lines of the artifact rules.
fn steps_by<'a, E: Write>(
    rt: &HostRuntime,
    known: Known<'_>,
    told: &'a LayoutDraft,
    lines: &str,
    notes: &mut Notes<'_, E>,
) -> Result<Vec<StepRead<'a>>, Fault> {
    let mut steps = Vec::new(rt.alloc());
    for word in &told.steps {
        steps.push(step_of(rt, known, word.as_str(), lines, notes)?)?;
    }
    Ok(steps)
}

fn step_of<'a, E: Write>(
    rt: &HostRuntime,
    known: Known<'_>,
    word: &'a str,
    lines: &str,
    notes: &mut Notes<'_, E>,
) -> Result<StepRead<'a>, Fault> {
    let Some((name, rest)) = word.split_once('=') else {
        return Err(no_step(rt));
    };
    let Some((rule, list)) = rest.split_once(':') else {
        return Err(no_step(rt));
    };
    let artifacts = artifacts_of(rt.alloc(), lines, name, list)?;
    let rule = rule_of(rt, known, rule, notes)?;
    Ok(StepRead {
        name,
        rule,
        artifacts,
    })
}

// What is said of a step's artifacts: its products between commas, and its rules by the lines.
fn artifacts_of(
    alloc: Global,
    lines: &str,
    step: &str,
    list: &str,
) -> Result<ArtifactsRead, AllocError> {
    let products = items_in(alloc, list)?;
    let material_rules = rules_in(alloc, lines, step, "materials")?;
    let product_rules = rules_in(alloc, lines, step, "products")?;
    Ok(ArtifactsRead {
        products,
        material_rules,
        product_rules,
    })
}

fn no_step(rt: &HostRuntime) -> Fault {
    usage(
        rt.alloc(),
        "error: a step is STEP=RULE:PRODUCT[,PRODUCT..]\n\nFor more information, try '--help'.\n",
    )
}

// The rules that lines say of a side of a step, each by its words.
fn rules_in(
    alloc: Global,
    lines: &str,
    step: &str,
    side: &str,
) -> Result<Vec<Vec<String>>, AllocError> {
    let mut rules = Vec::new(alloc);
    for line in lines.lines() {
        if let Some(rest) = line.strip_prefix(step) {
            if let Some(rest) = rest.trim_start().strip_prefix(side) {
                if rest.starts_with(' ') {
                    rules.push(words_in(alloc, rest)?)?;
                }
            }
        }
    }
    Ok(rules)
}

fn words_in(alloc: Global, line: &str) -> Result<Vec<String>, AllocError> {
    let mut words = Vec::new(alloc);
    for word in line.split_whitespace() {
        words.push(String::from_str(alloc, word)?)?;
    }
    Ok(words)
}

fn lent<'a>(alloc: Global, steps: &'a [StepRead<'_>]) -> Result<Vec<StepDraft<'a>>, AllocError> {
    let mut drafts = Vec::new(alloc);
    for step in steps {
        drafts.push(StepDraft {
            name: step.name,
            rule: Rule {
                threshold: step.rule.threshold,
                keys: &step.rule.keys,
            },
            products: &step.artifacts.products,
            material_rules: given(&step.artifacts.material_rules),
            product_rules: given(&step.artifacts.product_rules),
        })?;
    }
    Ok(drafts)
}

fn given(rules: &[Vec<String>]) -> Option<&[Vec<String>]> {
    if rules.is_empty() { None } else { Some(rules) }
}

// The links that the steps are to have: of each as many as its rule asks for, by its first keys.
fn expected_links(
    alloc: Global,
    target: &str,
    steps: &[StepRead<'_>],
) -> Result<Vec<String>, AllocError> {
    let mut links = Vec::new(alloc);
    for step in steps {
        let wanted = usize::from(step.rule.threshold);
        for key in step.rule.keys.iter().take(wanted) {
            let id = key_id(alloc, &key.key)?;
            links.push(link_path(alloc, target, step.name, &id)?)?;
        }
    }
    Ok(links)
}

/// The layout and the links of a target that a role's drafted metadata list.
#[derive(Clone, Copy)]
pub struct Chain<'a> {
    pub rt: &'a HostRuntime,
    pub folder: Folder<'a>,
    pub role: &'a str,
    pub target: &'a str,
}

impl Chain<'_> {
    fn alloc(&self) -> Global {
        self.rt.alloc()
    }

    // Drafts the layout that is told, and refers the target to it.
    fn draft<E: Write>(
        &self,
        before: &Before,
        asked: &Drafting,
        told: &LayoutDraft,
        now: Moment,
        notes: &mut Notes<'_, E>,
    ) -> Result<(), Fault> {
        let known = Known {
            kind: Kind::Targets,
            files: [before.begun(), before.held()],
        };
        let owners = rule_of(self.rt, known, told.owners.as_str(), notes)?;
        let steps = steps_of(self.rt, known, told, notes)?;
        self.draft_by(before, asked, &owners, &steps, now, notes)
    }

    // Drafts the layout of these steps, and refers the target to it. Where that is refused, the layout that was there stays.
    fn draft_by<E: Write>(
        &self,
        before: &Before,
        asked: &Drafting,
        owners: &RuleRead,
        steps: &[StepRead<'_>],
        now: Moment,
        notes: &mut Notes<'_, E>,
    ) -> Result<(), Fault> {
        let begun = layout_in(self.alloc(), self.folder, self.target, notes)?;
        self.put_layout(asked, steps, now, notes)?;
        match self.refer_first(before, owners, steps, notes) {
            Ok(()) => Ok(()),
            Err(fault) => {
                self.put_back(begun.as_deref(), notes)?;
                Err(fault)
            }
        }
    }

    // Puts the layout back that was there, if any was.
    fn put_back<E: Write>(
        &self,
        begun: Option<&[u8]>,
        notes: &mut Notes<'_, E>,
    ) -> Result<(), Fault> {
        let name = layout_name(self.alloc(), self.target)?;
        match begun {
            Some(bytes) => self.folder.put_named(name.as_str(), bytes, notes),
            None => {
                let place = self.folder.place(name.as_str())?;
                self.folder.remove(place.as_str(), notes)
            }
        }
    }

    // Drafts the layout.
    fn put_layout<E: Write>(
        &self,
        asked: &Drafting,
        steps: &[StepRead<'_>],
        now: Moment,
        notes: &mut Notes<'_, E>,
    ) -> Result<(), Fault> {
        let draft = self.layout(asked, steps, now, notes)?;
        self.folder.make_inner("layouts", notes)?;
        let name = layout_name(self.alloc(), self.target)?;
        self.folder.put_named(name.as_str(), &draft, notes)
    }

    // The next layout of the target.
    fn layout<E: Write>(
        &self,
        asked: &Drafting,
        steps: &[StepRead<'_>],
        now: Moment,
        notes: &mut Notes<'_, E>,
    ) -> Result<Vec<u8>, Fault> {
        let begun = layout_in(self.alloc(), self.folder, self.target, notes)?;
        see_unsigned(
            self.alloc(),
            self.folder,
            "layout",
            begun.as_deref(),
            asked.anew,
            notes,
        )?;
        self.layout_behind(begun.as_deref(), asked, steps, now, notes)
    }

    fn layout_behind<E: Write>(
        &self,
        begun: Option<&[u8]>,
        asked: &Drafting,
        steps: &[StepRead<'_>],
        now: Moment,
        notes: &mut Notes<'_, E>,
    ) -> Result<Vec<u8>, Fault> {
        let given = asked.expires.as_deref();
        let terms = terms_of(self.alloc(), given, begun, LAYOUT_DAYS, now)?;
        let steps = lent(self.alloc(), steps)?;
        let draft = draft_layout(self.alloc(), begun, terms, &steps);
        draft_or_fault(self.alloc(), draft, "layout", notes)
    }

    // Lists the layout, and refers the target to it.
    fn refer_first<E: Write>(
        &self,
        before: &Before,
        owners: &RuleRead,
        steps: &[StepRead<'_>],
        notes: &mut Notes<'_, E>,
    ) -> Result<(), Fault> {
        let Some(last) = steps.last() else {
            return Err(no_step(self.rt));
        };
        let product = match last.artifacts.products.last() {
            Some(product) => product.as_str(),
            None => self.target,
        };
        let path = layout_path(self.alloc(), self.target)?;
        let links = expected_links(self.alloc(), self.target, steps)?;
        let reference = Reference {
            owners: Rule {
                threshold: owners.threshold,
                keys: &owners.keys,
            },
            path: path.as_str(),
            links: &links,
            product,
            step: last.name,
        };
        self.refer_alone(before, &reference, notes)
    }

    // Lists the layout alone, and refers the target to it.
    fn refer_alone<E: Write>(
        &self,
        before: &Before,
        reference: &Reference<'_>,
        notes: &mut Notes<'_, E>,
    ) -> Result<(), Fault> {
        let mut added = Vec::new(self.alloc());
        added.push(self.addition(reference.path, notes)?)?;
        self.refer(before, &added, reference, notes)
    }

    /// A layout or a link as an addition to a listing. Its bytes go to the target files.
    pub fn addition<E: Write>(
        &self,
        path: &str,
        notes: &mut Notes<'_, E>,
    ) -> Result<Addition, Fault> {
        let bytes = self.bytes_of(path, notes)?;
        digest_in(self.alloc(), self.folder, path, &bytes, notes)
    }

    /// The same, and nothing goes anywhere.
    pub fn seen<E: Write>(&self, path: &str, notes: &mut Notes<'_, E>) -> Result<Addition, Fault> {
        let bytes = self.bytes_of(path, notes)?;
        addition_of(self.alloc(), path, &bytes)
    }

    // The bytes of a layout or a link, by the path that it has as a target.
    fn bytes_of<E: Write>(&self, path: &str, notes: &mut Notes<'_, E>) -> Result<Vec<u8>, Fault> {
        let name = chain_name(self.alloc(), path)?;
        self.folder.file_or_none(name.as_str(), notes)
    }

    /// Lists these files and refers the target to its layout so. The terms are those of the draft.
    pub fn refer<E: Write>(
        &self,
        before: &Before,
        added: &[Addition],
        reference: &Reference<'_>,
        notes: &mut Notes<'_, E>,
    ) -> Result<(), Fault> {
        let Some(begun) = before.begun() else {
            return Ok(());
        };
        let terms = kept_terms(self.alloc(), self.role, begun, TARGETS_DAYS)?;
        let listed = TargetsChanges {
            add: added,
            remove: &[],
        };
        let draft = draft_targets(self.alloc(), before.held(), Some(begun), terms, &listed);
        let draft = document_or_fault(self.alloc(), draft, self.role, notes)?;
        self.refer_in(&draft, reference, notes)
    }

    // Puts the draft in which the target is referred so.
    fn refer_in<E: Write>(
        &self,
        draft: &[u8],
        reference: &Reference<'_>,
        notes: &mut Notes<'_, E>,
    ) -> Result<(), Fault> {
        let draft = with_reference(self.alloc(), draft, self.target, reference);
        let draft = document_or_fault(self.alloc(), draft, self.role, notes)?;
        put_draft(self.alloc(), self.folder, self.role, &draft, notes)
    }
}
