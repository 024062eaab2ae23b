// One request, read whole.

ghost use Rattle.std.specs.Prelude.{◌≡◌, ◌≤◌, ◌++◌, Bool, true, false, ℕ, List, length, drop, map, All, IfOk, OnErr, bytes_eq};
ghost use Rattle.std.specs.List.{list_all};
ghost use Rattle.std.specs.Io.KnownBytes.{Consumes};
ghost use Rattle.httparse.specs.Grammar.{RequestHead, ReadsRequest};
ghost use Rattle.httparse.specs.Spans.{IsRequestWithin, IsRequestAt, header_bytes, IsHeaderWithin};
ghost use Rattle.http_messages.specs.Head.{left, IsInput};
ghost use Rattle.http_messages.specs.Length.{declared as declared_by};
ghost use Rattle.http_messages.specs.RouteOf.{route_of};
ghost use Rattle.http_messages.specs.Sound.{ReadsSoundly, OnNoMemory};
ghost use Rattle.http_messages.specs.Text.{method_text};
ghost use Rattle.http_messages.specs.Received.{Means, IsOfBatch, HasDocument, request_of};
ghost use Rattle.http_messages.specs.Framing.{BeginsWithDocument};
ghost use Rattle.http_messages.specs.steps.Said.{HasKept, IsOk, OfBody, OfRest, is_visible, length_for as length_for_lem, said_of_head, said_of_length, said_of_route, served_route, wanted, wanted_by};
ghost use Rattle.http_messages.specs.Request.{Request, Asks, AsksOf, Ends, HasWanted, HasWantedOf, IsKept, WantsMemory, WantsMemoryOf, of_batch as of_batch_lem, of_blob as of_blob_lem, method_of, limit_of};

use crate::body::read_body;
use crate::faults::Fault;
use crate::fields::{Declared, declared_length};
use crate::framing::read_batch;
use crate::head::{FIELD_LIMIT, HEAD_LIMIT, Requests, read_head};
use crate::line::{Receive, ReceiveFault};
use crate::reply::Method;
use crate::routes::{Route, Routes, find_served};
use httparse::spans::{EMPTY_HEADER_SPAN, HeaderSpan, RequestSpans};
use limits::BLOB_LIMIT;
use path_patterns::{Digest, RoleName, one_digest};
use std::alloc::{AllocError, Global};

/// The most bytes of a batch's body.
pub const BATCH_LIMIT: u64 = 4_194_304;

/// A request as it was received, with its texts and its body.
#[derive(Drop)]
pub enum Received {
    /// It is no command.
    Fault(Fault),
    /// The body of a batch, whose documents are not looked at yet.
    Batch(Vec<u8>),
    /// A blob's digest, and its bytes.
    PutBlob(Digest, Vec<u8>),
    /// That what the snapshot does not list be removed.
    Prune,
    /// The name of a metadata file.
    Metadata(String),
    /// The path of a target, perhaps with a digest in it.
    Target(String),
}

/// What a request asks for, lent from what was received.
#[derive(Drop)]
pub enum Asked<'a> {
    /// It is no command.
    Fault(Fault),
    /// A batch of 1 to 160 documents, each with its name.
    Batch(Vec<(RoleName, &'a [u8])>),
    /// A blob's digest, and its bytes, at most 1,048,576.
    PutBlob(Digest, &'a [u8]),
    /// That what the snapshot does not list be removed.
    Prune,
    /// The name of a metadata file.
    Metadata(&'a str),
    /// The path of a target, perhaps with a digest in it.
    Target(&'a str),
}

// What a head says: it is no command, or a route, what follows the route's prefix, and the length of the body.
enum Said<'a> {
    Refused(Fault),
    Wanted(Route, &'a str, usize),
}

impl Route {
    /// The one method of the route.
    pub fn method(self) -> Method
        ensures { result ≡ method_of self }
    {
        match self {
            Route::Batch => Method::Post,
            Route::Blob => Method::Put,
            Route::Metadata => Method::Get,
            Route::Prune => Method::Post,
            Route::Target => Method::Get,
        }
    }

    /// The most bytes of a body of the route.
    pub fn limit(self) -> u64
        ensures { result ≡ limit_of self }
    {
        match self {
            Route::Batch => BATCH_LIMIT,
            Route::Blob => BLOB_LIMIT as u64,
            Route::Metadata => 0,
            Route::Prune => 0,
            Route::Target => 0,
        }
    }
}

// Whether each byte is one of 0x21 to 0x7e.
fn are_visible(text: &[u8]) -> bool
    ensures { result ≡ list_all is_visible text.now }
{
    text.iter().all(|b| 33 <= *b && *b <= 126)
}

// The length of the body that a method has, as its fields declare it.
fn length_for(method: Method, fields: Declared) -> Option<u64>
    ensures { result ≡ length_for_lem method fields }
{
    match fields {
        Declared::Ill => None,
        Declared::Given(n) => Some(n),
        Declared::Absent => match method {
            Method::Get => Some(0),
            Method::Put => None,
            Method::Post => None,
        },
    }
}

// What a head with this route says.
fn of_length<'a>(route: Route, name: &'a str, len: Option<u64>) -> Said<'a>
    ensures { wanted_by result ≡ said_of_length route name.now len }
{
    match len {
        None => Said::Refused(Fault::Length),
        Some(n) => {
            if n > route.limit() {
                return Said::Refused(Fault::Size);
            }
            Said::Wanted(route, name, n as usize)
        }
    }
}

// Whether a method is this one.
fn is_method(method: &[u8], wanted: Method) -> bool
    ensures { result ≡ bytes_eq method.now (method_text wanted) }
{
    method == wanted.text()
}

// What a head with this method, these fields and this target says.
fn of_route<'a>(
    routes: &Routes,
    reads_only: bool,
    method: &[u8],
    fields: Declared,
    target: &'a str,
) -> Said<'a>
    ensures { wanted_by result ≡ said_of_route method.now fields (served_route reads_only (route_of target.now)) }
{
    match find_served(routes, reads_only, target) {
        None => Said::Refused(Fault::Route),
        Some((route, name)) => {
            if is_method(method, route.method()) {
                of_length(route, name, length_for(route.method(), fields))
            } else {
                Said::Refused(Fault::Method(route.method()))
            }
        }
    }
}

// What a head says.
fn of_spans<'a>(
    routes: &Routes,
    reads_only: bool,
    got: &'a [u8],
    headers: &[HeaderSpan],
    spans: RequestSpans,
) -> Said<'a>
    requires { IsRequestWithin got.now headers.now spans }
    ensures { (h : RequestHead) → IsRequestAt got.now headers.now spans h → wanted_by result ≡ said_of_head reads_only h }
{
    let target = spans.path.of(got);
    if !are_visible(target) {
        return Said::Refused(Fault::Head);
    }
    let fields = declared_length(got, &headers[..spans.headers]);
    match str::from_utf8(target) {
        Ok(text) => of_route(routes, reads_only, spans.method.of(got), fields, text),
        Err(_) => Said::Refused(Fault::Head),
    }
}

// What a whole body asks of a route, under what follows the route's prefix. Memory is wanted for a name alone.
fn of_body(alloc: Global, route: Route, name: &str, body: Vec<u8>) -> Result<Received, AllocError>
    ensures asked { IfOk result (λ r. (request : Request) → Means r request → OfBody route name.now body.items request) }
    ensures memory { OnErr result (IsKept route 0) }
{
    match route {
        Route::Batch => Ok(Received::Batch(body)),
        Route::Blob => Ok(of_blob(name, body)),
        Route::Metadata => {
            let text = String::from_str(alloc, name)?;
            Ok(Received::Metadata(text))
        }
        Route::Prune => Ok(Received::Prune),
        Route::Target => {
            let text = String::from_str(alloc, name)?;
            Ok(Received::Target(text))
        }
    }
}

// What the body of an upload asks, under a name.
fn of_blob(name: &str, body: Vec<u8>) -> Received
    ensures { (request : Request) → Means result request → Ends (of_blob_lem name.now body.items) request }
{
    one_digest();
    match Digest::read(name) {
        Some(digest) => Received::PutBlob(digest, body),
        None => Received::Fault(Fault::Digest),
    }
}

// Reads the body of a command, of which `front` came with the head.
fn read_command<R: Receive>(
    alloc: Global,
    reader: &mut R,
    route: Route,
    name: &str,
    len: usize,
    front: &[u8],
) -> Result<Received, ReceiveFault>
    ensures asked { IfOk result (λ r. (gave : List ℕ) × Consumes (R.remaining reader.old) (R.remaining reader.new) gave
        × ((request : Request) → Means r request → OfRest (wanted route name.now len) (front.now ++ gave ++ left (R.remaining reader.new)) request)) }
    ensures sound { ReadsSoundly (R.sound reader.old) result (R.sound reader.new) }
    ensures memory { OnNoMemory result (IsKept route len) }
{
    let Some(body) = read_body(alloc, reader, front, len)? else {
        return Ok(Received::Fault(Fault::Body));
    };
    let received = of_body(alloc, route, name, body)?;
    Ok(received)
}

// Reads what a head says, of which `front` came with the head.
fn read_said<R: Receive>(
    alloc: Global,
    reader: &mut R,
    said: Said<'_>,
    front: &[u8],
) -> Result<Received, ReceiveFault>
    ensures asked { IfOk result (λ r. (gave : List ℕ) × Consumes (R.remaining reader.old) (R.remaining reader.new) gave
        × ((request : Request) → Means r request → OfRest (wanted_by said.entry) (front.now ++ gave ++ left (R.remaining reader.new)) request)) }
    ensures batch { IfOk result (λ r. IsOfBatch r → IsOk (wanted_by said.entry)) }
    ensures sound { ReadsSoundly (R.sound reader.old) result (R.sound reader.new) }
    ensures memory { OnNoMemory result (HasKept (wanted_by said.entry)) }
{
    match said {
        Said::Refused(fault) => Ok(Received::Fault(fault)),
        Said::Wanted(route, name, len) => read_command(alloc, reader, route, name, len, front),
    }
}

/// Reads one request: the head within its limits, and then so many bytes as its fields declare, of which none past the body
/// and none of a body that is refused for its length. The faults are judged in their order, but for the documents of a
/// batch, which `Received::asked` looks at. Memory is wanted only for a request whose head refuses nothing, and only where a
/// body that is not empty or a name has to be kept.
pub fn read_request<R: Receive>(
    alloc: Global,
    routes: &Routes,
    reader: &mut R,
) -> Result<Received, ReceiveFault>
    ensures asked { IfOk result (λ r. (gave : List ℕ) × Consumes (R.remaining reader.old) (R.remaining reader.new) gave
        × ((request : Request) → Means r request → Asks (gave ++ left (R.remaining reader.new)) request)
        × (IsOfBatch r → HasWanted (gave ++ left (R.remaining reader.new)))) }
    ensures sound { ReadsSoundly (R.sound reader.old) result (R.sound reader.new) }
    ensures memory { OnNoMemory result ((input : List ℕ) × IsInput (R.remaining reader.old) input × WantsMemory input) }
{
    read_request_of(alloc, routes, false, reader)
}

/// The same of a server of all routes, or of one that only reads: for that one a route by which something may be changed is none, so
/// such a request is `Fault::Route`, of whatever method, and no byte of its body is read.
pub fn read_request_of<R: Receive>(
    alloc: Global,
    routes: &Routes,
    reads_only: bool,
    reader: &mut R,
) -> Result<Received, ReceiveFault>
    ensures asked { IfOk result (λ r. (gave : List ℕ) × Consumes (R.remaining reader.old) (R.remaining reader.new) gave
        × ((request : Request) → Means r request → AsksOf reads_only (gave ++ left (R.remaining reader.new)) request)
        × (IsOfBatch r → HasWantedOf reads_only (gave ++ left (R.remaining reader.new)))) }
    ensures sound { ReadsSoundly (R.sound reader.old) result (R.sound reader.new) }
    ensures memory { OnNoMemory result ((input : List ℕ) × IsInput (R.remaining reader.old) input × WantsMemoryOf reads_only input) }
{
    let mut buf = [0; HEAD_LIMIT];
    let mut headers = [EMPTY_HEADER_SPAN; FIELD_LIMIT];
    let (filled, found) = read_head::<R, Requests>(reader, &mut buf, &mut headers)?;
    let Some(spans) = found else {
        return Ok(Received::Fault(Fault::Head));
    };
    let got = &buf[..filled];
    let said = of_spans(routes, reads_only, got, &headers, spans);
    let received = read_said(alloc, reader, said, &got[spans.len..])?;
    Ok(received)
}

impl Received {
    /// What was received asks for. The error is want of memory, for the list of a batch's documents and their names: only a
    /// body that begins with a document wants any.
    pub fn asked(&self, alloc: Global) -> Result<Asked<'_>, AllocError>
        ensures asked { IfOk result (λ a. Means self.now (request_of a)) }
        ensures memory { OnErr result (IsOfBatch self.now) }
        ensures document { OnErr result (HasDocument self.now) }
    {
        match self {
            Received::Fault(fault) => Ok(Asked::Fault(*fault)),
            Received::Batch(body) => asked_batch(alloc, body),
            Received::PutBlob(digest, bytes) => Ok(Asked::PutBlob(*digest, bytes)),
            Received::Prune => Ok(Asked::Prune),
            Received::Metadata(name) => Ok(Asked::Metadata(name.as_str())),
            Received::Target(path) => Ok(Asked::Target(path.as_str())),
        }
    }
}

// What the body of a batch asks for.
fn asked_batch(alloc: Global, body: &[u8]) -> Result<Asked<'_>, AllocError>
    ensures asked { IfOk result (λ a. Ends (of_batch_lem body.now) (request_of a)) }
    ensures memory { OnErr result (BeginsWithDocument body.now) }
{
    match read_batch(alloc, body)? {
        Some(documents) => Ok(Asked::Batch(documents)),
        None => Ok(Asked::Fault(Fault::Batch)),
    }
}

/// A law, which does nothing: an input asks for one thing, of a server of all routes and of one that only reads.
pub fn one_request()
    ensures { (reads_only : Bool) (input : List ℕ) (a b : Request) → AsksOf reads_only input a → AsksOf reads_only input b → a ≡ b }
{
    one_digest();
}
