//! Whom a request is from, by what proxies tell.
ghost use Rattle.std.specs.Prelude.{◌≡◌, ◌∷◌, [], length, All, None, MatchOption};
ghost use Rattle.httparse.specs.Spans.{IsHeaderWithin, header_bytes};
ghost use Rattle.std.specs.Net.Grammar.{IsIpText};
ghost use Rattle.std.specs.declared.net.ip_addr.IpAddr.{IpAddr};
ghost use Rattle.websocket.specs.Headers.{fields_of};
ghost use Rattle.serve_handshakes.specs.Clients.{Behind, BehindAll, IsClientOf, Writes, farther, hops_of, is_proxy, is_same, pieces_from};

use crate::fields::same_but_for_case;
use crate::head::MAX_FIELDS;
use httparse::Status;
use httparse::spans::{EMPTY_HEADER_SPAN, HeaderSpan, parse_request};
use std::net::IpAddr;

// Whether two addresses are one.
fn is_same(one: &IpAddr, other: &IpAddr) -> bool
    ensures { result ≡ is_same one.now other.now }
{
    match (one, other) {
        (IpAddr::V4(one), IpAddr::V4(other)) => one.octets() == other.octets(),
        (IpAddr::V6(one), IpAddr::V6(other)) => one.segments() == other.segments(),
        _ => false,
    }
}

/// Whether one of these is the address.
pub fn is_proxy(proxies: &[IpAddr], address: &IpAddr) -> bool
    ensures { result ≡ is_proxy proxies.now address.now }
{
    for proxy in proxies {
        if is_same(proxy, address) {
            return true;
        }
    }
    false
}

// The client that is known behind a hop, where the hop before it knew this one.
fn farther(proxies: &[IpAddr], hop: IpAddr, before: Option<IpAddr>) -> IpAddr
    ensures { result ≡ farther proxies.now hop before }
{
    if is_proxy(proxies, &hop) {
        before.unwrap_or(hop)
    } else {
        hop
    }
}

/// The address that a text writes, as it counts.
pub(crate) fn address_in(text: &[u8]) -> Option<IpAddr>
    ensures { MatchOption result ((a : IpAddr) → IsIpText text.now a → ⊥) (Writes text.now) }
{
    match IpAddr::parse_ascii(text) {
        Ok(written) => Some(written.to_canonical()),
        Err(_) => None,
    }
}

// The client that is known behind the hop of this text.
#[tactic(auto, using(crate::proofs::Hops::behind_some))]
fn behind(proxies: &[IpAddr], hop: &[u8], before: Option<IpAddr>) -> Option<IpAddr>
    ensures { Behind proxies.now hop.now before result }
{
    if hop.is_empty() {
        return before;
    }
    match address_in(hop) {
        Some(hop) => Some(farther(proxies, hop, before)),
        None => None,
    }
}

// The client that is known behind the hops of a field.
fn behind_value(proxies: &[IpAddr], value: &[u8], before: Option<IpAddr>) -> Option<IpAddr>
    ensures { BehindAll proxies.now (pieces_from [] value.now) before result }
{
    let mut client = before;
    let mut start = 0;
    for i in 0..value.len() {
        if value[i] == b' ' || value[i] == b',' {
            client = behind(proxies, &value[start..i], client);
            start = i + 1;
        }
    }
    behind(proxies, &value[start..], client)
}

// The client that is known behind the hops of a field, if it is one of theirs.
#[tactic(auto, using(crate::proofs::Hops::one_field))]
fn behind_field(
    head: &[u8],
    span: &HeaderSpan,
    proxies: &[IpAddr],
    before: Option<IpAddr>,
) -> Option<IpAddr>
    requires { IsHeaderWithin (length head.now) span.now }
    ensures { BehindAll proxies.now (hops_of (header_bytes head.now span.now ∷ [])) before result }
{
    if same_but_for_case(span.name.of(head), b"X-Forwarded-For") {
        behind_value(proxies, span.value.of(head), before)
    } else {
        before
    }
}

// The client that is known behind the hops of these fields.
fn behind_fields(head: &[u8], spans: &[HeaderSpan], proxies: &[IpAddr]) -> Option<IpAddr>
    requires { All (IsHeaderWithin (length head.now)) spans.now }
    ensures { BehindAll proxies.now (hops_of (fields_of head.now spans.now)) None result }
{
    let mut client = None;
    for span in spans {
        client = behind_field(head, span, proxies, client);
    }
    client
}

/// Whom the request is from that these bytes begin with and that came from this peer, where these proxies are believed. The
/// addresses are as they count: none of IPv6 maps one of IPv4.
pub fn client_of(head: &[u8], peer: IpAddr, proxies: &[IpAddr]) -> IpAddr
    ensures { IsClientOf proxies.now head.now peer result }
{
    let mut spans = [EMPTY_HEADER_SPAN; MAX_FIELDS];
    match parse_request(head, &mut spans) {
        Ok(Status::Complete(found)) => {
            let told = behind_fields(head, &spans[..found.headers], proxies);
            farther(proxies, peer, told)
        }
        _ => peer,
    }
}
