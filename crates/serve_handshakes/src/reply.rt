//! Bytes for a client.
ghost use Rattle.std.specs.Prelude.{◌≡◌, ◌≤◌, drop, length, true};
ghost use Rattle.serve_handshakes.specs.Heads.{HasAsked};

use std::marker::Model;

/// Bytes for a client, and whether a WebSocket follows them. It is seen as the bytes that aren't sent yet, with that.
#[derive(Drop)]
pub struct Reply {
    bytes: Vec<u8>,
    /// How many of them are sent.
    at: usize,
    opens: bool,
}

impl Model for Reply {
    ghost use Rattle.std.specs.Coded.{coded×, coded_bool, coded_list, coded_ℕ};
    ghost use Rattle.std.specs.Prelude.{◌≡◌, ◌≤◌, Bool, List, ℕ, drop, length, true};
    ghost use Rattle.serve_handshakes.specs.Heads.{HasAsked};

    ghost Value = { List ℕ × Bool };

    ghost coded = { coded× (coded_list coded_ℕ) coded_bool };

    ghost view = { λ r. (drop r.at r.bytes.items, r.opens) };

    ghost invariant = { λ r. (r.at ≤ length r.bytes.items) × (r.opens ≡ true → HasAsked) };
}

impl Reply {
    /// A reply that isn't begun.
    pub(crate) fn new(bytes: Vec<u8>, opens: bool) -> Reply
        requires { opens ≡ true → HasAsked }
        ensures { result ≡ (bytes.items, opens) }
    {
        Reply {
            bytes,
            at: 0,
            opens,
        }
    }

    /// What isn't sent yet.
    pub fn rest(&self) -> &[u8]
        ensures { result.now ≡ self.now.0 }
    {
        &self.bytes.as_slice()[self.at..]
    }

    /// So many bytes more are sent.
    pub fn pass(&mut self, count: usize)
        requires { count ≤ length self.old.0 }
        ensures { self.new ≡ (drop count self.old.0, self.old.1) }
    {
        self.at += count;
    }

    /// Whether a WebSocket follows.
    pub fn opens(&self) -> bool
        ensures opens { result ≡ self.now.1 }
        ensures asked { result ≡ true → HasAsked }
    {
        self.opens
    }
}
