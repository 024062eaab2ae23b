//! A script, line by line.
use crate::failure::Failure;
use crate::replies::text_of;
use crate::session::Session;
use case_databases::Base;
use script_words::{LineFault, number_of};
use std::alloc::Global;
use std::io::{BufRead, Write};

/// Answers each line of the script, up to one that is not understood, and says how often memory was refused in what it did.
pub fn replay<R: BufRead, W: Write>(
    alloc: Global,
    input: &mut R,
    output: &mut W,
) -> Result<u64, Failure> {
    let mut base = Base::None;
    let mut client = Base::None;
    replay_over(alloc, &mut base, &mut client, input, output)
}

fn replay_over<R: BufRead, W: Write>(
    alloc: Global,
    base: &mut Base,
    client: &mut Base,
    input: &mut R,
    output: &mut W,
) -> Result<u64, Failure> {
    let mut session = match Session::new(alloc, base, client) {
        Ok(session) => session,
        Err(fault) => return Err(failure_of(fault, 0)),
    };
    let answered = replay_lines(&mut session, input, output);
    ended(output, answered, session.refusals)
}

fn ended<W: Write>(
    output: &mut W,
    answered: Result<(), Failure>,
    refusals: u64,
) -> Result<u64, Failure> {
    output.flush()?;
    answered?;
    Ok(refusals)
}

fn failure_of(fault: LineFault, line: u64) -> Failure {
    match fault {
        LineFault::NotUnderstood => Failure::NotUnderstood(line),
        LineFault::OutOfMemory => Failure::Memory,
    }
}

fn replay_lines<R: BufRead, W: Write>(
    session: &mut Session<'_>,
    input: &mut R,
    output: &mut W,
) -> Result<(), Failure> {
    let mut line = Vec::new(session.alloc);
    for number in 1..u64::MAX {
        if !replay_line(session, input, output, &mut line, number)? {
            return Ok(());
        }
    }
    Err(Failure::Stream)
}

// Answers the next line, if there is one.
fn replay_line<R: BufRead, W: Write>(
    session: &mut Session<'_>,
    input: &mut R,
    output: &mut W,
    line: &mut Vec<u8>,
    number: u64,
) -> Result<bool, Failure> {
    line.clear();
    if input.read_until(b'\n', line)? == 0 {
        return Ok(false);
    }
    let Ok(text) = str::from_utf8(line.strip_suffix(b"\n").unwrap_or(line)) else {
        return Err(Failure::NotUnderstood(number));
    };
    match answer(session, text) {
        Ok(reply) if reply.is_empty() => {}
        Ok(reply) => writeln!(output, "{reply}")?,
        Err(fault) => return Err(failure_of(fault, number)),
    }
    Ok(true)
}

// What a line is answered; nothing where it only sets something.
fn answer(session: &mut Session<'_>, line: &str) -> Result<String, LineFault> {
    if line.is_empty() || line.starts_with("#") {
        return Ok(String::new(session.alloc));
    }
    if let Some(kept) = session.kept.take() {
        session.keep(kept, line)?;
        return Ok(String::new(session.alloc));
    }
    let (word, rest) = line.split_once(' ').unwrap_or((line, ""));
    match word {
        "steps" => {
            session.begin_steps(rest)?;
            Ok(String::new(session.alloc))
        }
        "begin" => replayed(session, rest),
        "repeat" => repeated(session, rest),
        _ => answer_line(session, line),
    }
}

// The lines that are kept under a name.
fn lines_of(session: &Session<'_>, name: &str) -> Result<Vec<String>, LineFault> {
    for steps in &session.steps {
        if steps.name.as_str() == name {
            return Ok(steps.lines.clone()?);
        }
    }
    Err(LineFault::NotUnderstood)
}

// `begin NAME`: the replies of the lines that are kept under the name, in one line.
fn replayed(session: &mut Session<'_>, name: &str) -> Result<String, LineFault> {
    let lines = lines_of(session, name)?;
    let mut text = String::new(session.alloc);
    for line in &lines {
        let reply = answer_line(session, line.as_str())?;
        if !text.is_empty() && !reply.is_empty() {
            text.push_str(", ")?;
        }
        text.push_str(reply.as_str())?;
    }
    Ok(text)
}

// `repeat N NAME`: the same N times, and whether all of them were as the first.
fn repeated(session: &mut Session<'_>, text: &str) -> Result<String, LineFault> {
    let (count, name) = text.split_once(' ').unwrap_or((text, ""));
    let first = replayed_in(session, name, 0)?;
    for time in 1..number_of(count)? {
        if replayed_in(session, name, time)? != first {
            return Ok(format!(in session.alloc; "time {time} was another")?);
        }
    }
    Ok(format!(in session.alloc; "{count} times: {first}")?)
}

// The replies of the lines, where the file `ROUND` says how many times they were replayed before.
fn replayed_in(session: &mut Session<'_>, name: &str, round: u32) -> Result<String, LineFault> {
    let file = format!(in session.alloc; "ROUND = text {round}")?;
    set(session, "file", file.as_str())?;
    replayed(session, name)
}

// A line that is no word about other lines.
fn answer_line(session: &mut Session<'_>, line: &str) -> Result<String, LineFault> {
    let (word, rest) = line.split_once(' ').unwrap_or((line, ""));
    match word {
        "client" => over_client(session, rest),
        "update" => session.update(rest),
        "fetch" => session.fetch(rest),
        "agree" => session.agree(rest),
        "case" => {
            session.forget_client();
            session.begin_case(line)
        }
        _ => over_store(session, line),
    }
}

// `client LINE`: the line over the client's database, which is begun where there is none.
fn over_client(session: &mut Session<'_>, line: &str) -> Result<String, LineFault> {
    session.begin_client()?;
    session.turn();
    let reply = over_store(session, line);
    session.turn();
    reply
}

// A line about one database, or about none.
fn over_store(session: &mut Session<'_>, line: &str) -> Result<String, LineFault> {
    let (word, rest) = line.split_once(' ').unwrap_or((line, ""));
    match word {
        "init" => session.init(rest),
        "offer" => session.offer(rest),
        "batch" => session.batch(rest),
        "put" => session.put(rest),
        "prune" => session.prune(),
        "get" => session.get(rest),
        "metadata" => session.metadata(rest),
        "http" => session.request(rest),
        "due" => session.due(),
        "checks" => session.checks(rest),
        "cold" => session.cold(rest),
        "rows" => session.look(),
        "reopen" => session.reopen(),
        "sql" => session.execute(rest),
        "fill" => session.fill(rest),
        "equal" => session.equal(rest),
        "key" => session.key(rest),
        _ => set(session, word, rest),
    }
}

// A line that has no reply.
fn set(session: &mut Session<'_>, word: &str, rest: &str) -> Result<String, LineFault> {
    let done = match word {
        "now" => session.set_now(rest),
        "file" => session.name_file(rest),
        "source" => session.answer_for(0, rest),
        "mirror" => session.answer_at(rest),
        _ => Err(LineFault::NotUnderstood),
    };
    done?;
    text_of(session.alloc, "")
}
