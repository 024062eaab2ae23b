//! What `update` and `get` fetch files from: a repository that is served at a port of 127.0.0.1, or folders and mirrors of one, each in its
//! turn.
use crate::folders::{read_in_folder, source_answer};
use crate::server::{Asked, Peer, are_several, count_of, peer_at};
use crate::turns::{End, Turn, Turns};
use crate::wire::{Hearing, Wire, connected, host};
use cli_faults::{Fault, Notes};
use cli_sockets::{FILE_SECONDS, Timer};
use cli_tasks::Server;
use client::{ClientFault, Sources};
use fetch::{FetchFault, Source};
use http_fetch::{Refusal, fetch_over, read_refusal};
use mirrors::{Mirror, is_settled, together};
use std::alloc::{AllocError, Global};
use std::fmt;
use std::io::{IsTerminal, Write};
use std::mem::replace;
use std::net::TcpStream;

// What is told of a file for which there is no time left.
const TIME_IS_OVER: &str = "not asked for, its time is over";

// So many seconds has a whole call where it is not said otherwise.
const CALL_SECONDS: u64 = 600;

/// A call of a client, which has so many seconds in all.
#[derive(Clone, Copy)]
pub struct Call<'a> {
    rt: &'a HostRuntime,
    timer: Timer<'a>,
    seconds: u64,
}

impl<'a> Call<'a> {
    /// A call that begins now, and has so many seconds, 600 where none are given.
    pub fn begun(rt: &'a HostRuntime, within: Option<u64>) -> Result<Call<'a>, Fault> {
        let seconds = within.unwrap_or(CALL_SECONDS);
        match Timer::start(rt) {
            Ok(timer) => Ok(Call { rt, timer, seconds }),
            Err(_) => Err(Fault::Clock),
        }
    }

    /// The system that it runs on.
    pub fn rt(&self) -> &'a HostRuntime {
        self.rt
    }

    // So many seconds has the next file, if any are left up to this second of the call.
    fn left(&self, until: u64) -> Option<u64> {
        match self.timer.left(until) {
            Ok(left) => Some(left.as_secs().max(1).min(FILE_SECONDS)),
            Err(_) => None,
        }
    }

    // The second of the call at which the next of so many turns ends: each has the same share of what is left, one second at least.
    fn share(&self, turns: u64) -> u64 {
        let left = match self.timer.left(self.seconds) {
            Ok(left) => left.as_secs(),
            Err(_) => return self.seconds,
        };
        let share = (left / turns.max(1)).max(1);
        let now = self.seconds.saturating_sub(left);
        now.saturating_add(share).min(self.seconds)
    }
}

/// A repository of which nothing is known, at a port of 127.0.0.1, or in folders and at mirrors, which are asked in turns. Each file of a mirror
/// is fetched over a connection of its own. One that cannot be made gives no answer. On a terminal each name is told before it is fetched.
#[derive(Drop)]
pub struct Remote<'a, 'n, 'e, E: Write> {
    call: Call<'a>,
    server: &'a Server,
    notes: &'n mut Notes<'e, E>,
    is_watched: bool,
    bytes: u64,
    lacks_timestamp: bool,
    has_timestamp: bool,
    // whether the first turn is that of all together
    is_joined: bool,
    // who is asked now: nobody alone, where all are asked together
    peer: Option<Peer<'a>>,
    // who gave the last file
    giver: Option<Peer<'a>>,
    until: u64,
    turns: Turns<'a>,
}

impl<'a, 'n, 'e, E: Write> Remote<'a, 'n, 'e, E> {
    /// The port, or each folder and mirror alone in its turn.
    pub fn new(
        call: Call<'a>,
        server: &'a Server,
        notes: &'n mut Notes<'e, E>,
    ) -> Remote<'a, 'n, 'e, E> {
        Remote {
            call,
            server,
            is_watched: call.rt.stderr().is_terminal(),
            bytes: 0,
            lacks_timestamp: false,
            has_timestamp: false,
            is_joined: false,
            peer: None,
            giver: None,
            until: call.seconds,
            turns: Turns::new(call.rt.alloc()),
            notes,
        }
    }

    /// The same, and where there are several a turn before these, in which each file is that of the first that has it.
    pub fn joined(
        call: Call<'a>,
        server: &'a Server,
        notes: &'n mut Notes<'e, E>,
    ) -> Remote<'a, 'n, 'e, E> {
        let mut remote = Remote::new(call, server, notes);
        remote.is_joined = are_several(server);
        remote
    }

    /// So many turns there are.
    pub fn count(&self) -> usize {
        count_of(self.server).saturating_add(self.is_joined as usize)
    }

    /// Whether one of them answered that it has no timestamp, and none gave one.
    pub fn lacks_timestamp(&self) -> bool {
        self.lacks_timestamp && !self.has_timestamp
    }

    /// The turns that were, which it has no more.
    pub fn take_turns(&mut self) -> Result<Vec<Turn<'a>>, AllocError> {
        let none = Turns::new(self.call.rt.alloc());
        replace(&mut self.turns, none).done()
    }

    // Who has the turn at this place alone.
    fn alone_at(&self, place: usize) -> Option<Peer<'a>> {
        let server: &'a Server = self.server;
        peer_at(server, place.checked_sub(self.is_joined as usize)?)
    }

    // The file of this name, from one of them.
    fn ask(
        &mut self,
        alloc: Global,
        peer: Peer<'a>,
        name: &str,
        limit: usize,
    ) -> Result<Option<Vec<u8>>, FetchFault> {
        let answer = match peer {
            Peer::Port(port) => self.ask_port(alloc, port, name, limit),
            Peer::Mirror(_, mirror) => self.ask_one(alloc, &mirror, Asked { peer, name, limit }),
            Peer::Folder(folder) => self.ask_folder(folder, Asked { peer, name, limit }),
        };
        if let Ok(Some(_)) = &answer {
            self.giver = Some(peer);
        }
        answer
    }

    // The file of this name, from the port.
    fn ask_port(
        &mut self,
        alloc: Global,
        port: u16,
        name: &str,
        limit: usize,
    ) -> Result<Option<Vec<u8>>, FetchFault> {
        let authority = host(alloc, port)?;
        let mirror = Mirror {
            host: "127.0.0.1",
            port,
            authority: authority.as_str(),
            prefix: "",
        };
        let peer = Peer::Port(port);
        self.ask_one(alloc, &mirror, Asked { peer, name, limit })
    }

    // The file of this name, from the first of all that has it.
    fn ask_each(
        &mut self,
        alloc: Global,
        name: &str,
        limit: usize,
    ) -> Result<Option<Vec<u8>>, FetchFault> {
        let mut answer = Err(FetchFault::Broken);
        let server: &'a Server = self.server;
        for place in 0..count_of(server) {
            if !is_settled(&answer) {
                if let Some(peer) = peer_at(server, place) {
                    let next = self.ask(alloc, peer, name, limit);
                    answer = together(answer, next);
                }
            }
        }
        answer
    }

    // Reads a file in a folder, as long as there is time.
    fn ask_folder(
        &mut self,
        folder: &str,
        asked: Asked<'_>,
    ) -> Result<Option<Vec<u8>>, FetchFault> {
        if self.call.left(self.until).is_none() {
            self.tell_fault(&asked, &TIME_IS_OVER);
            return Err(FetchFault::Broken);
        }
        let found = read_in_folder(self.call.rt, folder, asked.name, asked.limit);
        if let Err(error) = &found {
            self.tell_fault(&asked, error);
        }
        let is_read = found.is_ok();
        let answer = source_answer(found, asked.limit);
        if is_read {
            self.tell(asked, &answer, None);
        }
        answer
    }

    // Fetches a file over a connection, as long as there is time.
    fn ask_one(
        &mut self,
        alloc: Global,
        mirror: &Mirror<'_>,
        asked: Asked<'_>,
    ) -> Result<Option<Vec<u8>>, FetchFault> {
        let call = self.call;
        let Some(seconds) = call.left(self.until) else {
            self.tell_fault(&asked, &TIME_IS_OVER);
            return Err(FetchFault::Broken);
        };
        match connected(call.rt, mirror.host, mirror.port, seconds) {
            Ok((stream, timer)) => {
                let wire = Wire::new(&stream, timer, seconds);
                self.fetch_by(alloc, wire, mirror, asked)
            }
            Err(error) => {
                self.tell_fault(&asked.peer, &error);
                Err(FetchFault::Broken)
            }
        }
    }

    // Fetches a file over this connection.
    fn fetch_by(
        &mut self,
        alloc: Global,
        wire: Wire<'_>,
        mirror: &Mirror<'_>,
        asked: Asked<'_>,
    ) -> Result<Option<Vec<u8>>, FetchFault> {
        let name = mirror.name(alloc, asked.name)?;
        let mut writer = wire;
        let mut reader = Hearing::new(wire);
        let answer = fetch_over(
            alloc,
            &mut writer,
            &mut reader,
            mirror.authority,
            name.as_str(),
            asked.limit,
        );
        self.tell(asked, &answer, read_refusal(reader.beginning()));
        answer
    }

    // Tells what was answered.
    fn tell(
        &mut self,
        asked: Asked<'_>,
        answer: &Result<Option<Vec<u8>>, FetchFault>,
        refusal: Option<Refusal<'_>>,
    ) {
        match (answer, refusal) {
            (Ok(Some(file)), _) => self.notes.tell(&asked, &Count(file.len() as u64)),
            (Ok(None), _) => self.notes.tell(&asked, &"none"),
            (Err(FetchFault::Broken), Some(refusal)) => self.tell_fault(&asked, &Status(refusal)),
            (Err(fault), _) => self.tell_fault(&asked, fault),
        }
    }

    // Tells why there was no answer: always, where nobody else is asked.
    fn tell_fault<N: fmt::Display, F: fmt::Display>(&mut self, name: &N, fault: &F) {
        if count_of(self.server) == 1 {
            self.notes.fault(name, fault);
        } else {
            self.notes.tell(name, fault);
        }
    }
}

impl<E: Write> Source for Remote<'_, '_, '_, E> {
    fn fetch(
        &mut self,
        alloc: Global,
        name: &str,
        limit: usize,
    ) -> Result<Option<Vec<u8>>, FetchFault> {
        if self.is_watched {
            self.notes.progress(&Fetching {
                name,
                bytes: self.bytes,
            });
        }
        self.giver = None;
        let answer = match self.peer {
            Some(peer) => self.ask(alloc, peer, name, limit),
            None => self.ask_each(alloc, name, limit),
        };
        let is_timestamp = name == "metadata/timestamp.json";
        self.turns.answered(self.giver, is_timestamp);
        match &answer {
            Ok(Some(file)) => {
                self.bytes = self.bytes.saturating_add(file.len() as u64);
                self.has_timestamp |= is_timestamp;
            }
            Ok(None) => self.lacks_timestamp |= is_timestamp,
            Err(_) => {}
        }
        answer
    }
}

impl<E: Write> Sources for Remote<'_, '_, '_, E> {
    // The turn has its share of the time that is left.
    fn turn(&mut self, place: usize) {
        let call = self.call;
        let left = self.count().saturating_sub(place);
        self.until = call.share(left as u64);
        self.peer = self.alone_at(place);
        self.turns.begin(self.peer);
    }

    fn failed(&mut self, _place: usize, fault: &ClientFault) {
        self.turns.failed(fault);
    }
}

/// Warns once of each of several whose turn ended in a wrong of its own; of a denial with this number it does not, since that is what is
/// told of the call. With one alone the end of the call tells it.
pub fn tell_wrongs<E: Write>(
    server: &Server,
    turns: &[Turn<'_>],
    told: Option<u8>,
    notes: &mut Notes<'_, E>,
) {
    if !are_several(server) {
        return;
    }
    for turn in turns {
        match turn.wrong() {
            Some((peer, End::Fault(fault))) => notes.warn_once(peer.name(), &fault),
            Some((peer, End::Denied(denial))) if told != Some(denial.number) => {
                notes.warn_once(peer.name(), &denial);
            }
            _ => {}
        }
    }
}

// A name that is fetched, after so many bytes.
#[derive(Clone, Copy)]
struct Fetching<'a> {
    name: &'a str,
    bytes: u64,
}

impl fmt::Display for Fetching<'_> {
    fn fmt<W: fmt::Write>(&self, f: &mut fmt::Formatter<W>) -> fmt::Result {
        let Fetching { name, bytes } = self;
        write!(f, "fetching {name}, {bytes} bytes so far")
    }
}

// The bytes of a file, as notes tell them.
#[derive(Clone, Copy)]
struct Count(u64);

impl fmt::Display for Count {
    fn fmt<W: fmt::Write>(&self, f: &mut fmt::Formatter<W>) -> fmt::Result {
        let count = self.0;
        write!(f, "{count} bytes")
    }
}

// A reply of another status, and where it points to.
#[derive(Clone, Copy)]
struct Status<'a>(Refusal<'a>);

impl fmt::Display for Status<'_> {
    fn fmt<W: fmt::Write>(&self, f: &mut fmt::Formatter<W>) -> fmt::Result {
        let Refusal { status, location } = self.0;
        if location.is_empty() {
            write!(f, "status {status}")
        } else {
            write!(f, "status {status}, which points to {location}")
        }
    }
}
