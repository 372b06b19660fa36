//! Node names, topics, keys, a topic's shard.
ghost use Rattle.std.specs.Prelude.{◌≡◌, ◌≤◌, ◌%◌, sum, IfOk, false};
ghost use Rattle.std.specs.List.{list_all};
ghost use Rattle.presence_base.specs.Names.{is_node_name, is_name_byte, is_short_text, guarded};

use crate::text::Text;
use std::alloc::{AllocError, Global};
use std::cmp::Ordering;
use std::fmt::{self, Debug, Formatter, Write};
use std::marker::Model;
use std::str;

/// The longest name of a node, in bytes.
pub const MAX_NAME_BYTES: usize = 32;

/// The longest topic or key, in bytes of UTF-8.
pub const MAX_TEXT_BYTES: usize = 255;

/// The most shards that a node's table is cut into.
pub const MAX_SHARDS: u32 = 4;

/// The name of a node: 1 to 32 lower case letters and digits.
///
/// The bytes lie in the value itself, with zeros after them, so that equal names are equal throughout and a name is copied.
#[derive(Clone, Copy)]
pub struct NodeName {
    bytes: [u8; MAX_NAME_BYTES],
    len: u8,
}

impl Model for NodeName {
    ghost use Rattle.std.specs.Prelude.{List, ℕ, length, take};
    ghost use Rattle.std.proofs.Common.{sym, length-take-le};
    ghost use Rattle.presence_base.specs.Names.{IsPadded, padded};

    ghost Value = { List ℕ };

    ghost view = { λ n. take n.len n.bytes };

    ghost invariant = { λ n. IsPadded n.len n.bytes };

    ghost inverse = { λ s. record { bytes = padded s; len = length s } };

    ghost inverse_ok = { λ n h i. record { bytes = sym h.zeros i; len = length-take-le n.len n.bytes h.fits i } };
}

impl PartialEq for NodeName {
    ghost use Rattle.std.specs.Prelude.{◌==◌};
    ghost use Rattle.std.proofs.Common.{rules};
    ghost use Rattle.std.specs.Cmp.Rules.{comparing};
    ghost use lib.Pointwise.{pointwise};

    ghost eq = { pointwise ◌==◌ };

    ghost laws = { Prim.search (comparing, rules) };

    fn eq(&self, other: &NodeName) -> bool {
        self.as_str() == other.as_str()
    }
}

impl Eq for NodeName {
    ghost use Rattle.std.proofs.Common.{rules};
    ghost use Rattle.std.specs.Cmp.Rules.{comparing};

    ghost laws = { Prim.search (comparing, rules) };
}

impl PartialOrd for NodeName {
    ghost use Rattle.std.proofs.Common.{rules};
    ghost use Rattle.std.specs.Cmp.{partial_order_from_own_ties};
    ghost use Rattle.std.specs.Cmp.Rules.{comparing};
    ghost use Rattle.std.specs.Ordering.{nat_cmp, as_partial_cmp};
    ghost use Rattle.std.specs.Cmp.Lexicographic.{slice_cmp};

    ghost partial_cmp = { as_partial_cmp (slice_cmp nat_cmp) };

    ghost laws = { partial_order_from_own_ties (Prim.search (comparing, rules)) (Prim.search (comparing, rules)) };

    fn partial_cmp(&self, other: &NodeName) -> Option<Ordering> {
        Some(self.cmp(other))
    }
}

impl Ord for NodeName {
    ghost use Rattle.std.proofs.Common.{rules};
    ghost use Rattle.std.specs.Cmp.Rules.{comparing};
    ghost use Rattle.std.specs.Ordering.{nat_cmp};
    ghost use Rattle.std.specs.Cmp.Lexicographic.{slice_cmp};

    ghost cmp = { slice_cmp nat_cmp };

    ghost total = { Prim.search (comparing, rules) };

    ghost matches_partial_cmp = { Prim.search (comparing, rules) };

    ghost matches_eq = { Prim.search (comparing, rules) };

    fn cmp(&self, other: &NodeName) -> Ordering {
        self.as_str().cmp(other.as_str())
    }
}

impl Debug for NodeName {
    fn fmt<W: Write>(&self, f: &mut Formatter<W>) -> fmt::Result {
        self.as_str().fmt(f)
    }
}

// Whether the byte may stand in a name.
fn may_be_in_name(byte: u8) -> bool
    ensures { result ≡ is_name_byte byte }
{
    byte.is_ascii_lowercase() || byte.is_ascii_digit()
}

// Whether each byte may stand in a name.
fn all_may_be_in_name(bytes: &[u8]) -> bool
    ensures { result ≡ list_all is_name_byte bytes.now }
{
    bytes.iter().all(|b| may_be_in_name(*b))
}

// Whether these bytes are a name.
pub(crate) fn is_name(bytes: &[u8]) -> bool
    ensures { result ≡ is_node_name bytes.now }
{
    if bytes.is_empty() || bytes.len() > MAX_NAME_BYTES {
        return false;
    }
    all_may_be_in_name(bytes)
}

impl NodeName {
    ghost use Rattle.std.specs.Prelude.{◌≡◌, IsTrue};
    ghost use Rattle.presence_base.specs.Names.{is_node_name, guarded};

    /// The name that the text is, or `None` where it is none. The allocator is not asked for anything.
    pub fn new(_alloc: Global, text: &str) -> Result<Option<NodeName>, AllocError>
        ensures { result ≡ Ok (guarded (is_node_name text.now) text.now) }
    {
        let text = text.as_bytes();
        if !is_name(text) {
            return Ok(None);
        }
        let len = text.len();
        let mut bytes = [0; MAX_NAME_BYTES];
        bytes[..len].copy_from_slice(text);
        Ok(Some(NodeName {
            bytes,
            len: len as u8,
        }))
    }

    pub fn as_bytes(&self) -> &[u8]
        ensures bytes { result.now ≡ self.now }
        ensures limits { IsTrue (is_node_name self.now) }
    {
        &self.bytes[..self.len as usize]
    }

    #[tactic(auto, using(crate::proofs::Inline::name_is_utf8))]
    pub fn as_str(&self) -> &str
        ensures text { result.now ≡ self.now }
        ensures limits { IsTrue (is_node_name self.now) }
    {
        unsafe { str::from_utf8_unchecked(self.as_bytes()) }
    }
}

// Whether the text is no longer than a topic or a key may be.
fn is_short(text: &str) -> bool
    ensures { result ≡ is_short_text text.now }
{
    !text.is_empty() && text.len() <= MAX_TEXT_BYTES
}

// The text, where it is no longer than a topic or a key may be.
fn short_text(alloc: Global, text: &str) -> Result<Option<Text>, AllocError>
    ensures text { IfOk result (λ o. o ≡ guarded (is_short_text text.now) text.now) }
    ensures none { is_short_text text.now ≡ false → result ≡ Ok None }
{
    if !is_short(text) {
        return Ok(None);
    }
    Ok(Some(Text::shared(alloc, text)?))
}

/// A topic: a text of 1 to 255 bytes.
#[derive(PartialEq, Eq, Hash, PartialOrd, Ord, Debug)]
pub struct Topic {
    text: Text,
}

impl Drop for Topic {
    fn drop(self) {
        let Topic { text } = self;
        drop(text);
    }
}

impl Model for Topic {
    ghost use Rattle.std.specs.Prelude.{List, ℕ, IsTrue};
    ghost use Rattle.presence_base.specs.Names.{is_short_text};

    ghost Value = { List ℕ };

    ghost view = { λ s. s.text };

    ghost invariant = { λ s. IsTrue (is_short_text s.text) };

    ghost inverse = { λ t. record { text = t } };
}

impl Clone for Topic {
    ghost use Rattle.std.specs.Prelude.{◌≡◌};

    ghost is_clone = { λ s t. t ≡ s };

    fn clone(&self) -> Result<Topic, AllocError> {
        let text = self.text.clone()?;
        Ok(Topic { text })
    }
}

impl Topic {
    ghost use Rattle.std.specs.Prelude.{◌≡◌, IfOk, IsTrue, false, string_bytes};
    ghost use Rattle.presence_base.specs.Names.{is_short_text, guarded};

    /// The topic that the text is, or `None` where it is empty or longer than 255 bytes.
    pub fn new(alloc: Global, text: &str) -> Result<Option<Topic>, AllocError>
        ensures text { IfOk result (λ o. o ≡ guarded (is_short_text text.now) text.now) }
        ensures none { is_short_text text.now ≡ false → result ≡ Ok None }
    {
        match short_text(alloc, text)? {
            Some(text) => Ok(Some(Topic { text })),
            None => Ok(None),
        }
    }

    /// The topic that the text is, as `new` has it, without taking memory.
    pub fn of_string(text: String) -> Option<Topic>
        ensures { result ≡ guarded (is_short_text (string_bytes text)) (string_bytes text) }
    {
        if !is_short(text.as_str()) {
            return None;
        }
        let text = Text::of_string(text);
        Some(Topic { text })
    }

    pub fn as_str(&self) -> &str
        ensures text { result.now ≡ self.now }
        ensures limits { IsTrue (is_short_text self.now) }
    {
        self.text.as_str()
    }
}

/// A key under which presences are tracked: a text of 1 to 255 bytes.
#[derive(PartialEq, Eq, PartialOrd, Ord, Debug)]
pub struct Key {
    text: Text,
}

impl Drop for Key {
    fn drop(self) {
        let Key { text } = self;
        drop(text);
    }
}

impl Model for Key {
    ghost use Rattle.std.specs.Prelude.{List, ℕ, IsTrue};
    ghost use Rattle.presence_base.specs.Names.{is_short_text};

    ghost Value = { List ℕ };

    ghost view = { λ s. s.text };

    ghost invariant = { λ s. IsTrue (is_short_text s.text) };

    ghost inverse = { λ t. record { text = t } };
}

impl Clone for Key {
    ghost use Rattle.std.specs.Prelude.{◌≡◌};

    ghost is_clone = { λ s t. t ≡ s };

    fn clone(&self) -> Result<Key, AllocError> {
        let text = self.text.clone()?;
        Ok(Key { text })
    }
}

impl Key {
    ghost use Rattle.std.specs.Prelude.{◌≡◌, IfOk, IsTrue, false};
    ghost use Rattle.presence_base.specs.Names.{is_short_text, guarded};

    /// The key that the text is, or `None` where it is empty or longer than 255 bytes.
    pub fn new(alloc: Global, text: &str) -> Result<Option<Key>, AllocError>
        ensures text { IfOk result (λ o. o ≡ guarded (is_short_text text.now) text.now) }
        ensures none { is_short_text text.now ≡ false → result ≡ Ok None }
    {
        match short_text(alloc, text)? {
            Some(text) => Ok(Some(Key { text })),
            None => Ok(None),
        }
    }

    pub fn as_str(&self) -> &str
        ensures text { result.now ≡ self.now }
        ensures limits { IsTrue (is_short_text self.now) }
    {
        self.text.as_str()
    }
}

/// The shard that has the topic: the sum of the topic's bytes modulo the number of shards.
pub fn shard_of(topic: &Topic, shards: u32) -> u32
    requires { 1 ≤ shards }
    ensures { result ≡ sum topic.now % shards }
{
    let mut total: u32 = 0;
    for byte in topic.as_str().as_bytes() {
        total += u32::from(*byte);
    }
    total % shards
}
