//! Which answer a request gets.
ghost use Rattle.std.specs.Prelude.{◌≡◌, cond, map, string_bytes};
ghost use Rattle.serve_handshakes.specs.Answers.{answer_in, behind_host, is_among, lets_in, page_in, path_at, path_in, plain_in, socket_in};

use crate::fields::same_but_for_case;
use crate::head::Request;
use crate::unsigned::Unsigned;

/// What a request gets.
#[derive(Clone, Copy, PartialEq, Eq, Debug)]
pub enum Answer {
    /// A WebSocket, and whether its subprotocol is `phoenix`.
    Socket(bool),
    /// The page with a room.
    Page,
    /// The library for pages.
    Script,
    /// That the program is there.
    Health,
    /// What the program has counted.
    Metrics,
    /// It asks for another protocol than a WebSocket, or not as it must.
    BadRequest,
    /// It comes from a page of an origin that isn't let in.
    Forbidden,
    NotFound,
    /// It has another method than `GET`, `HEAD` and `OPTIONS`.
    NotAllowed,
    /// Which methods there are.
    Options,
    /// It tells its host not at all, or more than once.
    NoHost,
    /// Its head is longer than a head may be.
    LongHead,
    /// It announces a body that is longer than one may be.
    LongBody,
    /// What it asks for is at another port.
    Elsewhere,
    /// The program is there, and calls fail.
    Unwell,
    /// It lets its clients go, and takes no further one.
    Draining,
    /// It asks for a WebSocket, and there is no place for one.
    Full,
    /// The same, and as many clients of its address are here as may be.
    Crowded,
    /// The same, and clients of its address come too fast.
    Hasty,
    /// The same, and it isn't signed in where clients have to be.
    Unauthorized(Unsigned),
}

/// What is asked for at a port.
#[derive(Clone, Copy)]
pub struct Site<'a> {
    /// Pages of these origins may open a WebSocket, or those of any where none is named.
    pub origins: &'a [String],
    /// Whether it is the port of clients.
    pub has_clients: bool,
    /// Whether what was counted is told there.
    pub has_metrics: bool,
}

/// The subprotocol that is told to clients which ask for it.
pub const PROTOCOL: &str = "phoenix";

// The target before its first `?`.
fn path_of(target: &[u8]) -> &[u8]
    ensures { result.now ≡ path_in target.now }
{
    for i in 0..target.len() {
        if target[i] == b'?' {
            return &target[..i];
        }
    }
    target
}

// What stands behind the host of an absolute target.
fn behind_host(target: &[u8]) -> &[u8]
    ensures { result.now ≡ behind_host target.now }
{
    for i in 0..target.len() {
        if target[i] == b'/' || target[i] == b'?' {
            return &target[i..];
        }
    }
    &target[target.len()..]
}

// The path that a target names, also where it is absolute.
fn path_at(target: &[u8]) -> &[u8]
    ensures { result.now ≡ path_at target.now }
{
    if target.len() < 7 || !same_but_for_case(&target[..7], b"http://") {
        return path_of(target);
    }
    let path = path_of(behind_host(&target[7..]));
    if path.is_empty() { b"/" } else { path }
}

// Whether one of these origins is this one.
fn is_named(origins: &[String], origin: &[u8]) -> bool
    ensures { result ≡ is_among (map string_bytes origins.now) origin.now }
{
    for named in origins {
        if same_but_for_case(named.as_bytes(), origin) {
            return true;
        }
    }
    false
}

// Whether clients of this origin are let in.
fn lets_in(origins: &[String], origin: Option<&[u8]>) -> bool
    ensures { result ≡ lets_in (map string_bytes origins.now) origin.entry }
{
    match origin {
        Some(origin) => origins.is_empty() || is_named(origins, origin),
        None => true,
    }
}

// What a request for a WebSocket gets.
fn socket_answer(request: &Request<'_>, site: &Site<'_>) -> Answer
    ensures { result ≡ socket_in site.now request.now }
{
    if !site.has_clients {
        Answer::Elsewhere
    } else if request.accept.is_none() {
        Answer::BadRequest
    } else if lets_in(site.origins, request.origin) {
        Answer::Socket(request.has_protocol)
    } else {
        Answer::Forbidden
    }
}

// This answer where it is given at this port.
fn if_here(is_here: bool, answer: Answer) -> Answer
    ensures { result ≡ cond is_here answer Answer.Elsewhere }
{
    if is_here { answer } else { Answer::Elsewhere }
}

// What stands at this path.
fn page_at(path: &[u8], site: &Site<'_>) -> Answer
    ensures { result ≡ page_in site.now path.now }
{
    if path == b"/".as_slice() {
        if_here(site.has_clients, Answer::Page)
    } else if path == b"/presence.js".as_slice() {
        if_here(site.has_clients, Answer::Script)
    } else if path == b"/health".as_slice() {
        Answer::Health
    } else if path == b"/metrics".as_slice() {
        if_here(site.has_metrics, Answer::Metrics)
    } else {
        Answer::NotFound
    }
}

// What a request gets that asks for no WebSocket.
fn plain_answer(request: &Request<'_>, site: &Site<'_>) -> Answer
    ensures { result ≡ plain_in site.now request.now }
{
    if request.method == b"GET".as_slice() || request.method == b"HEAD".as_slice() {
        page_at(path_at(request.target), site)
    } else if request.method == b"OPTIONS".as_slice() {
        Answer::Options
    } else {
        Answer::NotAllowed
    }
}

/// Which answer a request gets at this port.
pub fn answer_of(request: &Request<'_>, site: &Site<'_>) -> Answer
    ensures { result ≡ answer_in site.now request.now }
{
    if !request.has_host {
        Answer::NoHost
    } else if request.has_long_body {
        Answer::LongBody
    } else if request.upgrades {
        socket_answer(request, site)
    } else {
        plain_answer(request, site)
    }
}
