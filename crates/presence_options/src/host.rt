//! What the host of a peer is.
ghost use Rattle.std.specs.Prelude.{◌≡◌};
ghost use Rattle.presence_options.specs.Hosts.{is_bracketed_address, is_host, is_host_name};

use crate::origin::{Part, behind};

// Whether the text is a name, or an IPv4 address.
fn is_host_name(text: &[u8]) -> bool
    ensures { result ≡ is_host_name text.now }
{
    !text.is_empty() && behind(Part::Host, text).is_empty()
}

// Whether the text is an IPv6 address and `]`.
fn is_bracketed_address(text: &[u8]) -> bool
    ensures { result ≡ is_bracketed_address text.now }
{
    let rest = behind(Part::Mixed, text);
    rest.len() < text.len() && rest == b"]".as_slice()
}

/// Whether the text is the host of a peer.
#[tactic(auto, unfolding(crate::specs::Hosts::is_host))]
pub(crate) fn is_host(text: &[u8]) -> bool
    ensures { result ≡ is_host text.now }
{
    if text.starts_with(b"[") {
        is_bracketed_address(&text[1..])
    } else {
        is_host_name(text)
    }
}
