// The words of the command line.
use std::env::Env;
use std::{env, io};

/// The words, the program's own first.
pub fn words_of<R: Env + AllocGlobal>(rt: &R) -> io::Result<Vec<String>> {
    let mut words = Vec::new(rt.alloc());
    for word in env::args(rt)? {
        words.push(word)?;
    }
    Ok(words)
}

/// The number at a place, a whole one of 32 bits.
pub fn number_at(words: &[String], place: usize) -> Option<u32> {
    let word = words.get(place)?;
    word.as_str().parse::<u32>().ok()
}
