//! A command from its words to its exit status.
ghost use Rattle.std.specs.Prelude.{◌≡◌, ◌≤◌, MatchResult};
ghost use Rattle.cli_faults.specs.Statuses.{EndsWith, status_of};

use crate::help::{denial_asked, page_asked};
use crate::init::init;
use crate::lengths::tell_lengths;
use crate::prune::prune;
use crate::publish::{publish, publish_in_folder};
use crate::put::put;
use crate::serve::serve;
use crate::trusting::TrustedRoot;
use cli_client::update;
use cli_drafts::{draft, show};
use cli_export::export;
use cli_faults::{Fault, Notes, moment};
use cli_files::{print, read};
use cli_get::{get, get_many};
use cli_sign::{NewKey, leaves_of, make_keys, print_key, print_public_key, sign, sign_in};
use cli_tasks::{FolderSigning, Showing, Subcommand, Task, task};
use loose_json::canon;
use std::io::Write;

/// Does what the words ask for. What it prints goes to `out`, why it was not done to `err`, and the exit status is
/// answered: 0 done, 1 denied, 2 a fault of the command line, 3 all else.
pub fn run<O: Write, E: Write>(rt: &HostRuntime, words: &[String], out: &mut O, err: &mut E) -> u8
    ensures { result ≤ 3 }
{
    let done = perform(rt, words, out, err);
    ended(&done, out, err)
}

// The exit status of a command that was done, or of its fault, which is written.
fn ended<O: Write, E: Write>(done: &Result<(), Fault>, out: &mut O, err: &mut E) -> u8
    ensures status { MatchResult done.now (λ _. result ≡ 0) (λ fault. EndsWith fault result) }
    ensures few { result ≤ 3 }
{
    match done {
        Ok(()) => 0,
        Err(fault) => report(fault, out, err),
    }
}

/// Writes why a command was not done, and answers its exit status.
pub fn report<O: Write, E: Write>(fault: &Fault, out: &mut O, err: &mut E) -> u8
    ensures status { EndsWith fault.now result }
    ensures few { result ≤ 3 }
{
    if let Fault::Help(text) = fault {
        return match out.write_all(text.as_bytes()) {
            Ok(()) => fault.status(),
            Err(error) => {
                let _ = writeln!(err, "release: standard output: {error}");
                report_to(&Fault::File, err)
            }
        };
    }
    report_to(fault, err)
}

fn report_to<E: Write>(fault: &Fault, err: &mut E) -> u8
    ensures { result ≡ status_of fault.now }
{
    let _ = write!(err, "{fault}");
    fault.status()
}

fn perform<O: Write, E: Write>(
    rt: &HostRuntime,
    words: &[String],
    out: &mut O,
    err: &mut E,
) -> Result<(), Fault> {
    if let Some(text) = denial_asked(rt.alloc(), words)? {
        return Err(Fault::Help(text));
    }
    if let Some(page) = page_asked(rt.alloc(), words)? {
        return print(out, &page, &mut Notes::new(rt.alloc(), err, false));
    }
    let task = task(rt.alloc(), words)?;
    let done = perform_task(rt, &task, out, err);
    if let Err(fault) = &done {
        tell_lengths(
            rt,
            &task,
            fault,
            &mut Notes::new(rt.alloc(), err, task.verbose),
        );
    }
    done
}

fn perform_task<O: Write, E: Write>(
    rt: &HostRuntime,
    task: &Task,
    out: &mut O,
    err: &mut E,
) -> Result<(), Fault> {
    let at = task.at;
    let notes = &mut Notes::new(rt.alloc(), err, task.verbose);
    match &task.subcommand {
        Subcommand::Canon { file } => print_canon(rt, file, at, out, notes),
        Subcommand::Draft(drafting) => draft(rt, drafting, at, out, notes),
        Subcommand::Export { db, to } => export(rt, db, to, at, out, notes),
        Subcommand::Get(getting) => get(rt, getting, at, out, notes),
        Subcommand::GetMany(getting) => get_many(rt, getting, at, out, notes),
        Subcommand::Init { db, root } => init(rt, db, root, at, out, notes),
        Subcommand::Key { seed, params } => print_key(rt, seed, *params, at, out, notes),
        Subcommand::NewKey {
            names,
            params,
            lower,
        } => {
            let (params, lower) = (*params, *lower);
            make_keys(rt, names, NewKey { params, lower }, at, out, notes)
        }
        Subcommand::PublicKey { file } => print_public_key(rt, file, at, out, notes),
        Subcommand::Prune { place } => prune(rt, place, at, out, notes),
        Subcommand::Publish { place, documents } => publish(rt, place, documents, at, out, notes),
        Subcommand::PublishIn { place, folder } => {
            publish_in_folder(rt, place, folder, at, out, notes)
        }
        Subcommand::Put { place, file } => put(rt, place, file, at, out, notes),
        Subcommand::Serve(serving) => serve(rt, serving, at, out, notes),
        Subcommand::Show(showing) => show_with_leaves(rt, showing, at, out, notes),
        Subcommand::Sign(signing) => sign(rt, signing, at, out, notes),
        Subcommand::SignIn(signing) => sign_in_folder(rt, signing, at, out, notes),
        Subcommand::Update(updating) => update(rt, updating, at, out, notes),
    }
}

// The leaves of the keys are counted, and then all is shown.
fn show_with_leaves<O: Write, E: Write>(
    rt: &HostRuntime,
    showing: &Showing,
    at: Option<u64>,
    out: &mut O,
    notes: &mut Notes<'_, E>,
) -> Result<(), Fault> {
    let leaves = leaves_of(rt, &showing.keys, notes)?;
    show(rt, showing, &leaves, at, out, notes)
}

fn sign_in_folder<O: Write, E: Write>(
    rt: &HostRuntime,
    signing: &FolderSigning,
    at: Option<u64>,
    out: &mut O,
    notes: &mut Notes<'_, E>,
) -> Result<(), Fault> {
    let mut trusted = TrustedRoot {
        from: signing.anchor.as_ref(),
        at,
    };
    sign_in(rt, signing, &mut trusted, at, out, notes)
}

// The moment of no use is judged, too.
fn print_canon<O: Write, E: Write>(
    rt: &HostRuntime,
    file: &str,
    at: Option<u64>,
    out: &mut O,
    notes: &mut Notes<'_, E>,
) -> Result<(), Fault> {
    let _now = moment(rt, at)?;
    let bytes = read(rt, file, notes)?;
    match canon(rt.alloc(), &bytes) {
        Ok(text) => print(out, &text, notes),
        Err(fault) => {
            notes.fault(&file, &fault);
            Err(Fault::from(fault))
        }
    }
}
