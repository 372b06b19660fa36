//! What is looked at of a request's head.
ghost use Rattle.std.specs.Prelude.{◌≡◌, ◌==◌, ◌&&◌, ◌||◌, ℕ, List, length, All, option_map, IfSome};
ghost use denote.Ref.{Bor};
ghost use Rattle.httparse.specs.Spans.{IsHeaderWithin, IsRequestWithin, IsRequestOf};
ghost use Rattle.websocket.specs.Headers.{fields_of};
ghost use Rattle.serve_handshakes.specs.Heads.{IsAcceptOf, IsAsking, IsHeadOf, IsParsed, asks_socket, key_at};

use crate::fields::{field, host_count, is_long_body, lists, tells};
use crate::protocols::{asks_protocol, protocol_behind};
use httparse::spans::{EMPTY_HEADER_SPAN, HeaderSpan, RequestSpans, parse_request};
use httparse::{Error, Status};
use websocket::handshake::server::accept_key;

/// How many fields a head has at most.
pub const MAX_FIELDS: usize = 124;

/// What is looked at of a request.
#[derive(Clone, Copy)]
pub struct Request<'a> {
    pub method: &'a [u8],
    /// What it asks for, with what stands behind a `?`.
    pub target: &'a [u8],
    /// Whether it tells its host once, as it must.
    pub has_host: bool,
    /// Whether it announces a body of more than `MAX_BODY_BYTES`.
    pub has_long_body: bool,
    /// Whether it asks for a WebSocket.
    pub upgrades: bool,
    /// What its key is answered by, where it asks for a WebSocket as it must.
    pub accept: Option<[u8; 28]>,
    pub origin: Option<&'a [u8]>,
    /// Whether it asks for the subprotocol `phoenix`.
    pub has_protocol: bool,
    /// What a subprotocol carries that carries a token.
    pub carried: Option<&'a [u8]>,
    /// How many bytes its head has.
    pub bytes: usize,
    pub authorization: Option<&'a [u8]>,
}

/// What bytes of a client are.
pub enum Parsed<'a> {
    /// They may become a request's head.
    Partial,
    Whole(Request<'a>),
    /// They have more than `MAX_FIELDS` fields.
    Long,
    /// They are no head, whatever follows.
    Junk,
}

// Whether fields ask for a WebSocket of version 13.
fn asks_socket(head: &[u8], fields: &[HeaderSpan]) -> bool
    requires { All (IsHeaderWithin (length head.now)) fields.now }
    ensures { result ≡ asks_socket (fields_of head.now fields.now) }
{
    lists(head, fields, b"Connection", b"Upgrade")
        && lists(head, fields, b"Upgrade", b"websocket")
        && tells(field(head, fields, b"Sec-WebSocket-Version"), b"13")
}

// The key of a head that asks for a WebSocket as it must.
fn key_at<'a>(head: &'a [u8], found: &RequestSpans, spans: &[HeaderSpan]) -> Option<&'a [u8]>
    requires { IsRequestWithin head.now spans.now found.now }
    ensures { option_map (λ (v : Bor (List ℕ)). v.now) result ≡ key_at head.now spans.now found.now }
{
    let fields = &spans[..found.headers];
    let is_get = found.method.of(head) == b"GET".as_slice();
    if is_get && found.version != 0 && asks_socket(head, fields) {
        field(head, fields, b"Sec-WebSocket-Key")
    } else {
        None
    }
}

// What answers a key, if it is one.
fn accept_of(key: Option<&[u8]>) -> Option<[u8; 28]>
    ensures { IsAcceptOf (option_map (λ (v : Bor (List ℕ)). v.now) key.entry) result }
{
    match key {
        Some(key) => accept_key(key).ok(),
        None => None,
    }
}

// What answers the key of a head that asks for a WebSocket as it must.
fn accepted(head: &[u8], found: &RequestSpans, spans: &[HeaderSpan]) -> Option<[u8; 28]>
    requires within { IsRequestWithin head.now spans.now found.now }
    requires parsed { IsRequestOf head.now spans.now found.now }
    ensures exact { IsAcceptOf (key_at head.now spans.now found.now) result }
    ensures asking { IfSome result (λ _. IsAsking head.now) }
{
    accept_of(key_at(head, found, spans))
}

// Whether a head of this version of HTTP/1 tells its host once, as it must.
fn has_host(version: u8, hosts: usize) -> bool
    ensures { result ≡ (hosts == 1 || (version == 0 && hosts == 0)) }
{
    hosts == 1 || version == 0 && hosts == 0
}

// What is looked at of the head that was found.
fn request_in<'a>(head: &'a [u8], found: &RequestSpans, spans: &[HeaderSpan]) -> Request<'a>
    requires within { IsRequestWithin head.now spans.now found.now }
    requires parsed { IsRequestOf head.now spans.now found.now }
    ensures { IsHeadOf head.now spans.now found.now result }
{
    let fields = &spans[..found.headers];
    Request {
        method: found.method.of(head),
        target: found.path.of(head),
        has_host: has_host(found.version, host_count(head, fields)),
        has_long_body: is_long_body(field(head, fields, b"Content-Length")),
        upgrades: lists(head, fields, b"Upgrade", b"websocket"),
        accept: accepted(head, found, spans),
        origin: field(head, fields, b"Origin"),
        has_protocol: asks_protocol(head, fields, b"phoenix"),
        carried: protocol_behind(head, fields, b"base64url.bearer.phx."),
        bytes: found.len,
        authorization: field(head, fields, b"Authorization"),
    }
}

/// What these bytes are.
pub fn read_request(head: &[u8]) -> Parsed<'_>
    ensures { IsParsed head.now result }
{
    let mut spans = [EMPTY_HEADER_SPAN; MAX_FIELDS];
    match parse_request(head, &mut spans) {
        Ok(Status::Complete(found)) => Parsed::Whole(request_in(head, &found, &spans)),
        Ok(Status::Partial) => Parsed::Partial,
        Err(Error::TooManyHeaders) => Parsed::Long,
        Err(_) => Parsed::Junk,
    }
}
