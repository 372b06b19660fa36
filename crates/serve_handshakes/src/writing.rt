//! The bytes of answers.
ghost use Rattle.std.specs.Prelude.{◌≡◌, [], IfOk, cond, false};
ghost use Rattle.websocket.specs.Handshake.{response_bytes};
ghost use Rattle.serve_handshakes.specs.Heads.{IsAsking, Opens, bare_bytes, counted_bytes, opening_bytes, plain_bytes};

use crate::answer::PROTOCOL;
use crate::reply::Reply;
use httparse::Header;
use std::alloc::{AllocError, Global};
use websocket::handshake::server::write_response;

/// What pages, scripts, plain texts and metrics are told as.
pub const PAGE_KIND: &str = "text/html; charset=utf-8";

pub const SCRIPT_KIND: &str = "text/javascript; charset=utf-8";

pub const TEXT_KIND: &str = "text/plain; charset=utf-8";

pub const METRICS_KIND: &str = "text/plain; version=0.0.4; charset=utf-8";

// The head that answers by this, with these fields behind its own.
fn response(alloc: Global, accept: &[u8; 28], fields: &[Header<'_>]) -> Result<Vec<u8>, AllocError>
    ensures { IfOk result (λ bytes. bytes.items ≡ response_bytes accept.now fields.now) }
{
    let mut bytes = Vec::new(alloc);
    match write_response(accept, fields, &mut bytes) {
        Ok(()) => Ok(bytes),
        Err(_) => Err(AllocError),
    }
}

// The same, with the subprotocol if it is told.
fn opening_head(alloc: Global, accept: &[u8; 28], has_protocol: bool) -> Result<Vec<u8>, AllocError>
    ensures { IfOk result (λ bytes. bytes.items ≡ opening_bytes accept.now has_protocol) }
{
    if !has_protocol {
        return response(alloc, accept, &[]);
    }
    let protocol = Header {
        name: "sec-websocket-protocol",
        value: PROTOCOL.as_bytes(),
    };
    response(alloc, accept, &[protocol])
}

/// What opens the WebSocket of a head whose key this answers, with its subprotocol if it is told.
pub fn opening(
    alloc: Global,
    head: &[u8],
    accept: &[u8; 28],
    has_protocol: bool,
) -> Result<Reply, AllocError>
    requires { IsAsking head.now }
    ensures { IfOk result (Opens accept.now has_protocol) }
{
    let bytes = opening_head(alloc, accept, has_protocol)?;
    Ok(Reply::new(bytes, true))
}

// An answer with this status, whose body is of this kind and length, and of which this is sent.
fn counted_reply(
    alloc: Global,
    status: &str,
    kind: &str,
    count: usize,
    sent: &str,
) -> Result<Reply, AllocError>
    ensures { IfOk result (λ reply. reply ≡ (counted_bytes status.now kind.now count sent.now, false)) }
{
    let text = format!(in alloc;
        "HTTP/1.1 {status}\r\ncontent-type: {kind}\r\ncontent-length: {count}\r\ncache-control: no-store\r\nconnection: close\r\n\r\n{sent}"
    )?;
    Ok(Reply::new(text.into_bytes(), false))
}

/// An answer with this status, whose body is this text of this kind, which is sent, or left out. The connection ends with it.
pub fn plain_reply(
    alloc: Global,
    status: &str,
    kind: &str,
    body: &str,
    is_sent: bool,
) -> Result<Reply, AllocError>
    ensures { IfOk result (λ reply.
        reply ≡ (plain_bytes status.now kind.now body.now (cond is_sent body.now []), false)) }
{
    if is_sent {
        counted_reply(alloc, status, kind, body.len(), body)
    } else {
        counted_reply(alloc, status, kind, body.len(), "")
    }
}

/// An answer with this status, which has no body. The connection ends with it.
pub fn bare_reply(alloc: Global, status: &str) -> Result<Reply, AllocError>
    ensures { IfOk result (λ reply. reply ≡ (bare_bytes status.now, false)) }
{
    let text = format!(in alloc;
        "HTTP/1.1 {status}\r\ncache-control: no-store\r\nconnection: close\r\n\r\n"
    )?;
    Ok(Reply::new(text.into_bytes(), false))
}
