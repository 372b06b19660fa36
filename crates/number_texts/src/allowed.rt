//! Which numbers messages may have.
ghost use Rattle.std.specs.Prelude.{◌≡◌, ◌++◌, ◌∷◌, [], None, Ok, IfOk, map, string_bytes};
ghost use Rattle.number_texts.specs.Marks.{become};
ghost use Rattle.number_texts.specs.Allowed.{all_told, heard_text, numbers_where, told_text};

use crate::marks::{any_may_have_mark, marked, unmarked};
use std::alloc::{AllocError, Global};

/// Which numbers the messages of clients may have.
#[derive(Clone, Copy, PartialEq, Eq, Debug)]
pub enum Numbers {
    /// Whole numbers of 64 bits. Texts stay as they are.
    Whole,
    /// Any numbers. A session reads and writes those that aren't whole numbers of 64 bits as marked texts.
    Any,
}

// The text that it has become, or the text itself.
fn become_of(text: String, to: Option<String>) -> String
    ensures { string_bytes result ≡ become (string_bytes text) to }
{
    match to {
        Some(to) => to,
        None => text,
    }
}

// The texts, each unmarked.
fn all_unmarked(alloc: Global, texts: Vec<String>) -> Result<Vec<String>, AllocError>
    ensures { IfOk result (λ told. map string_bytes told.items ≡ all_told Numbers.Any (map string_bytes texts.items)) }
{
    let mut told = Vec::with_capacity(alloc, texts.len())?;
    for text in texts {
        let to = unmarked(alloc, text.as_str())?;
        told.push(become_of(text, to))?;
    }
    Ok(told)
}

impl Numbers {
    /// Any numbers where fractions are allowed.
    pub fn allowed(fractions: bool) -> Numbers
        ensures { result ≡ numbers_where fractions }
    {
        if fractions {
            Numbers::Any
        } else {
            Numbers::Whole
        }
    }

    /// What a session reads a client's text as, or nothing where that is the text itself.
    pub fn heard(self, alloc: Global, text: &str) -> Result<Option<String>, AllocError>
        ensures heard { IfOk result (λ to. become text.now to ≡ heard_text self text.now) }
        ensures whole { self ≡ Numbers.Whole → result ≡ Ok None }
    {
        match self {
            Numbers::Whole => Ok(None),
            Numbers::Any => marked(alloc, text),
        }
    }

    /// What a client gets of a session's texts. Where no mark stands in them, none is copied and no memory is asked for.
    #[tactic(auto, using(crate::proofs::Found::told_as_they_are))]
    pub fn told(self, alloc: Global, texts: Vec<String>) -> Result<Vec<String>, AllocError>
        ensures told { IfOk result (λ told. map string_bytes told.items ≡ all_told self (map string_bytes texts.items)) }
        ensures whole { self ≡ Numbers.Whole → result ≡ Ok texts }
    {
        match self {
            Numbers::Whole => Ok(texts),
            Numbers::Any if any_may_have_mark(texts.as_slice()) => all_unmarked(alloc, texts),
            Numbers::Any => Ok(texts),
        }
    }
}
