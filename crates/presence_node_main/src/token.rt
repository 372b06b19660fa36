//! `token`: a token by which a client signs in, to try it.
use crate::ending::{Ending, keys_ending, silent, token_ending};
use crate::serving::KeyFile;
use presence_options::TokenOptions;
use std::alloc::Global;
use std::io;
use std::rt::{Clock, Files};
use tokens::{Signing, TokenFault, Wanted};

// What a token of these options is to grant that is made at this second.
fn wanted_at(options: &TokenOptions, second: u64) -> Wanted<'_> {
    Wanted {
        subject: match &options.subject {
            Some(subject) => Some(subject.as_str()),
            None => None,
        },
        topics: match &options.topics {
            Some(topics) => Some(topics.as_slice()),
            None => None,
        },
        ends: second.saturating_add(options.lasts),
    }
}

// What is told of such a token.
fn told(alloc: Global, signing: Signing<'_>, options: &TokenOptions) -> io::Result<Ending> {
    match signing.sign(alloc, wanted_at(options, signing.second)) {
        Ok(token) => Ok(token_ending(token)),
        Err(TokenFault::OutOfMemory) => Ok(silent(2)),
        Err(fault) => {
            let words = format!(in alloc; "{fault}")?;
            Ok(keys_ending(alloc, words.as_str())?)
        }
    }
}

/// Makes a token of these options, under the first key of their file.
pub(crate) fn make_token<R: Files + Clock>(
    rt: &R,
    alloc: Global,
    options: &TokenOptions,
) -> io::Result<Ending> {
    let file = KeyFile {
        option: "key",
        path: options.key.as_str(),
    };
    let keys = match file.keys(rt, alloc) {
        Ok(keys) => keys,
        Err(Ok(words)) => return Ok(keys_ending(alloc, words.as_str())?),
        Err(Err(_)) => return Ok(silent(2)),
    };
    let Ok(time) = rt.since_1970() else {
        return Ok(keys_ending(alloc, "the clock can't be read")?);
    };
    let signing = Signing {
        keys: &keys,
        second: time.as_secs(),
    };
    told(alloc, signing, options)
}
