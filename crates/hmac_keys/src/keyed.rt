//! The code of a text under a key.
ghost use Rattle.std.specs.Prelude.{◌≡◌, ◌≤◌, length};
ghost use Rattle.hmac_keys.specs.Hmac.{block_key, hmac_sha256 as code_of, masked as masked_in, padded as padded_in};

use sha2::{Digest, Sha256};

/// How many bytes SHA-256 takes at a time.
const BLOCK_BYTES: usize = 64;

// The inner and the outer mask.
const INNER: u8 = 0x36;

const OUTER: u8 = 0x5C;

// The key with zeros behind it.
fn padded(key: &[u8]) -> [u8; 64]
    requires { length key.now ≤ 64 }
    ensures { result ≡ padded_in key.now }
{
    let mut block = [0; 64];
    for i in 0..key.len() {
        block[i] = key[i];
    }
    block
}

// The key as one block.
fn block_of(key: &[u8]) -> [u8; 64]
    ensures { result ≡ block_key key.now }
{
    if key.len() <= BLOCK_BYTES {
        padded(key)
    } else {
        let digest = Sha256::digest(key);
        padded(&digest)
    }
}

// The block with this mask.
fn masked(block: &[u8; 64], pad: u8) -> [u8; 64]
    ensures { result ≡ masked_in pad block.now }
{
    let mut out = [0; 64];
    for i in 0..64 {
        out[i] = block[i] ^ pad;
    }
    out
}

/// A code that is being made: a text is fed to it piece by piece.
#[derive(Drop)]
pub struct Hmac {
    inner: Sha256,
    outer: Sha256,
}

impl Hmac {
    ghost use Rattle.std.specs.Prelude.{◌≡◌, ◌++◌, ℕ, List, []};
    ghost use Rattle.hmac_keys.specs.Hmac.{Holds, hmac_sha256 as code_of};

    /// The code under this key of a text that is empty so far.
    pub fn new(key: &[u8]) -> Hmac
        ensures { Holds result key.now [] }
    {
        let block = block_of(key);
        Hmac {
            inner: Sha256::new_with_prefix(masked(&block, INNER)),
            outer: Sha256::new_with_prefix(masked(&block, OUTER)),
        }
    }

    /// Adds a piece to the text.
    pub fn update(&mut self, piece: &[u8])
        ensures { (key text : List ℕ) → Holds self.old key text → Holds self.new key (text ++ piece.now) }
    {
        self.inner.update(piece);
    }

    /// The code of the text.
    pub fn finalize(self) -> [u8; 32]
        ensures { (key text : List ℕ) → Holds self key text → result ≡ code_of key text }
    {
        let Hmac { inner, outer } = self;
        let mut outer = outer;
        outer.update(inner.finalize());
        outer.finalize()
    }
}

/// The code of a text under a key.
pub fn hmac_sha256(key: &[u8], text: &[u8]) -> [u8; 32]
    ensures { result ≡ code_of key.now text.now }
{
    let mut code = Hmac::new(key);
    code.update(text);
    code.finalize()
}
