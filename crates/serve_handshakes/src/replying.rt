//! What is sent for an answer.
ghost use Rattle.std.specs.Prelude.{◌≡◌, IfOk, IfSome};
ghost use Rattle.serve_handshakes.specs.Heads.{HasRequest};
ghost use Rattle.serve_handshakes.specs.Replies.{IsPlainReply, IsReplyTo, IsTextReply, Says, kind_in, status_in, unsigned_text};

use crate::answer::Answer;
use crate::head::Request;
use crate::page::PAGE;
use crate::reply::Reply;
use crate::script::SCRIPT;
use crate::unsigned::Unsigned;
use crate::writing::{
    METRICS_KIND, PAGE_KIND, SCRIPT_KIND, TEXT_KIND, bare_reply, opening, plain_reply,
};
use std::alloc::{AllocError, Global};

// The status of an answer, with the fields that go with it. (A WebSocket's is written with its key.)
fn status_of(answer: Answer) -> &'static str
    ensures { result.now ≡ status_in answer }
{
    match answer {
        Answer::Socket(_) => "101 Switching Protocols",
        Answer::Page | Answer::Health | Answer::Metrics => "200 OK",
        Answer::Script => "200 OK\r\naccess-control-allow-origin: *",
        Answer::Options => "204 No Content\r\nallow: GET, HEAD, OPTIONS",
        Answer::BadRequest | Answer::NoHost => "400 Bad Request",
        Answer::Unauthorized(_) => "401 Unauthorized\r\nwww-authenticate: Bearer",
        Answer::Forbidden => "403 Forbidden",
        Answer::NotFound | Answer::Elsewhere => "404 Not Found",
        Answer::NotAllowed => "405 Method Not Allowed\r\nallow: GET, HEAD, OPTIONS",
        Answer::LongBody => "413 Content Too Large",
        Answer::Hasty => "429 Too Many Requests\r\nretry-after: 5",
        Answer::LongHead => "431 Request Header Fields Too Large",
        Answer::Full | Answer::Crowded => "503 Service Unavailable\r\nretry-after: 5",
        Answer::Unwell | Answer::Draining => "503 Service Unavailable",
    }
}

// As which kind an answer is told.
fn kind_of(answer: Answer) -> &'static str
    ensures { result.now ≡ kind_in answer }
{
    match answer {
        Answer::Page => PAGE_KIND,
        Answer::Script => SCRIPT_KIND,
        Answer::Metrics => METRICS_KIND,
        _ => TEXT_KIND,
    }
}

// What a client is told that isn't signed in.
fn unsigned_text(why: Unsigned) -> &'static str
    ensures { result.now ≡ unsigned_text why }
{
    match why {
        Unsigned::NoToken => "no token is shown\n",
        Unsigned::Malformed => "this is no token\n",
        Unsigned::OtherAlgorithm => "the token is not signed by HS256 alone\n",
        Unsigned::BadSignature => "the token is signed by none of this server's keys\n",
        Unsigned::BadClaims => "the token's claims are not what they may be\n",
        Unsigned::TooEarly => "the token is not valid yet\n",
        Unsigned::Expired => "the token has expired\n",
    }
}

// What an answer without a WebSocket says.
fn body_of(answer: Answer, metrics: &str) -> &str
    ensures { Says metrics.now answer result.now }
{
    match answer {
        Answer::Page => PAGE,
        Answer::Script => SCRIPT,
        Answer::Metrics => metrics,
        Answer::Health => "ok\n",
        Answer::Unwell => "calls fail\n",
        Answer::Draining => "draining\n",
        Answer::BadRequest => "this is no request for a WebSocket of version 13\n",
        Answer::NoHost => "a request tells its host once, by the field Host\n",
        Answer::Forbidden => "pages of this origin are not let in\n",
        Answer::NotAllowed => "GET, HEAD and OPTIONS are answered\n",
        Answer::LongHead => "a request has at most 8192 bytes and 124 fields\n",
        Answer::LongBody => "a request has a body of at most 65536 bytes\n",
        Answer::Elsewhere => "this is at another port\n",
        Answer::Full => "no place is free\n",
        Answer::Crowded => "no further client of this address is taken\n",
        Answer::Hasty => "clients of this address come too fast\n",
        Answer::Unauthorized(why) => unsigned_text(why),
        Answer::NotFound | Answer::Options | Answer::Socket(_) => {
            "here are /, /health and /metrics\n"
        }
    }
}

// An answer with a text, which is sent but where it is left out.
fn text_reply(
    alloc: Global,
    answer: Answer,
    metrics: &str,
    is_sent: bool,
) -> Result<Reply, AllocError>
    ensures { IfOk result (IsTextReply metrics.now answer is_sent) }
{
    let body = body_of(answer, metrics);
    plain_reply(alloc, status_of(answer), kind_of(answer), body, is_sent)
}

/// An answer without a WebSocket, whose body is sent but where it is left out.
pub fn plain(
    alloc: Global,
    answer: Answer,
    metrics: &str,
    is_sent: bool,
) -> Result<Reply, AllocError>
    ensures { IfOk result (IsPlainReply metrics.now answer is_sent) }
{
    match answer {
        Answer::Options => bare_reply(alloc, status_of(answer)),
        _ => text_reply(alloc, answer, metrics, is_sent),
    }
}

/// What is sent for this answer to the request that these bytes begin with. Nothing is where a WebSocket is asked for and
/// the client didn't wait for it: bytes stand behind the request.
pub fn reply_of(
    alloc: Global,
    head: &[u8],
    request: &Request<'_>,
    answer: Answer,
    metrics: &str,
) -> Result<Option<Reply>, AllocError>
    requires { HasRequest head.now request.now }
    ensures { IfOk result (λ reply. IfSome reply (IsReplyTo request.now metrics.now answer)) }
{
    let Answer::Socket(has_protocol) = answer else {
        let is_sent = request.method != b"HEAD".as_slice();
        return Ok(Some(plain(alloc, answer, metrics, is_sent)?));
    };
    if request.bytes != head.len() {
        return Ok(None);
    }
    let Some(accept) = request.accept else {
        return Ok(None);
    };
    Ok(Some(opening(alloc, head, &accept, has_protocol)?))
}
