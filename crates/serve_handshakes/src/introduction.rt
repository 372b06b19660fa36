//! Whom a connection is from, by the line that a proxy writes before all else: the PROXY protocol, version 1.
ghost use Rattle.std.specs.Prelude.{◌≡◌, ◌<◌, length, option_map, IfSome, List, ℕ};
ghost use denote.Ref.{Bor};
ghost use Rattle.serve_handshakes.specs.Introductions.{IsIntroduced, IsLine, IsLineBy, IsToldBy, TellsBy, feed_in, is_family, source_behind, space_in, word_at};
ghost use Rattle.serve_handshakes.specs.declared.introduction.TheConstants.{MAX_LINE_BYTES};

use crate::client::address_in;
use std::net::IpAddr;

/// How many bytes such a line has at most, with its end.
pub const MAX_LINE_BYTES: usize = 107;

/// What the first bytes of a connection are.
#[derive(Clone, Copy)]
pub enum Introduced {
    /// They may become such a line.
    Partial,
    /// They are none.
    Nothing,
    /// A line of so many bytes, and the address that it tells, if it tells one.
    Line(usize, Option<IpAddr>),
}

// What a line begins with.
const FRONT: &[u8] = b"PROXY ";

// Where the first space stands.
fn space_in(words: &[u8]) -> Option<usize>
    ensures place { result ≡ space_in words.now }
    ensures within { IfSome result (λ i. i < length words.now) }
{
    words.iter().position(|b| *b == b' ')
}

// The word before the first space, if there is one.
fn word_in(words: &[u8]) -> Option<&[u8]>
    ensures { option_map (λ (w : Bor (List ℕ)). w.now) result ≡ word_at (space_in words.now) words.now }
{
    match space_in(words) {
        Some(i) => Some(&words[..i]),
        None => None,
    }
}

// Whether a word is that of a family of addresses.
fn is_family(word: &[u8]) -> bool
    ensures { result ≡ is_family word.now }
{
    word == b"TCP4".as_slice() || word == b"TCP6".as_slice()
}

// The word of the source's address, behind that of its family.
fn source_in(words: &[u8]) -> Option<&[u8]>
    ensures { option_map (λ (w : Bor (List ℕ)). w.now) result ≡ source_behind (space_in words.now) words.now }
{
    match space_in(words) {
        Some(i) if is_family(&words[..i]) => word_in(&words[i + 1..]),
        _ => None,
    }
}

// The address that a word writes, if there is one.
fn address_by(source: Option<&[u8]>) -> Option<IpAddr>
    ensures { IsToldBy (option_map (λ (w : Bor (List ℕ)). w.now) source.entry) result }
{
    match source {
        Some(source) => address_in(source),
        None => None,
    }
}

// The address that the words of a line tell, of a family and of a source.
fn told_by(words: &[u8]) -> Option<IpAddr>
    ensures { TellsBy words.now result }
{
    address_by(source_in(words))
}

// Where the first line feed stands, if it does where it must.
fn feed_in(bytes: &[u8]) -> Option<usize>
    ensures place { result ≡ feed_in bytes.now }
    ensures within { IfSome result (λ feed. feed < length bytes.now) }
{
    let most = bytes.len().min(MAX_LINE_BYTES);
    bytes[..most].iter().position(|b| *b == b'\n')
}

// What bytes are that begin as a line does, whose first line feed stands there.
fn line_by(bytes: &[u8], feed: Option<usize>) -> Introduced
    requires { IfSome feed (λ feed. feed < length bytes.now) }
    ensures { IsLineBy feed bytes.now result }
{
    match feed {
        Some(feed) if feed >= FRONT.len() => {
            Introduced::Line(feed + 1, told_by(&bytes[FRONT.len()..=feed]))
        }
        None if bytes.len() < MAX_LINE_BYTES => Introduced::Partial,
        _ => Introduced::Nothing,
    }
}

// What bytes are that begin as a line does.
fn line_of(bytes: &[u8]) -> Introduced
    ensures { IsLine bytes.now result }
{
    line_by(bytes, feed_in(bytes))
}

/// What these first bytes of a connection are that came through a proxy. One that speaks another version of the protocol
/// isn't understood.
pub fn introduction_of(bytes: &[u8]) -> Introduced
    ensures { IsIntroduced bytes.now result }
{
    let given = bytes.len().min(FRONT.len());
    if bytes[..given] != FRONT[..given] {
        Introduced::Nothing
    } else if given < FRONT.len() {
        Introduced::Partial
    } else {
        line_of(bytes)
    }
}
