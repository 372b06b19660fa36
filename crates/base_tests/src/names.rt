//! Names, topics and keys at their limits, texts in their order, and a topic's shard.

ghost use Rattle.std.specs.Prelude.{◌<◌};

use crate::texts::letters;
use presence_base::{Key, NodeName, Text, Topic, shard_of};
use std::alloc::{AllocError, Global};
use std::test::Fail;

// Whether the text is a name, and the name's text.
fn is_name(alloc: Global, text: &str) -> Result<bool, AllocError> {
    Ok(NodeName::new(alloc, text)?.is_some_and(|name| name.as_str() == text))
}

#[test]
fn names_within_their_limits(rt: HostRuntime) -> Result<(), Fail> {
    let alloc = rt.alloc();
    for (text, want) in [
        ("a9", true),
        ("abcdefghijklmnopqrstuvwxyz012345", true),
        ("abcdefghijklmnopqrstuvwxyz0123456", false),
        ("", false),
        ("aB", false),
    ] {
        assert!(rt; is_name(alloc, text)? == want, "{text}");
    }
    Ok(())
}

#[test]
fn topics_within_their_limits(rt: HostRuntime) -> Result<(), Fail> {
    let alloc = rt.alloc();
    let most = letters(alloc, 255)?;
    assert!(rt; Topic::new(alloc, most.as_str())?.is_some_and(|t| t.as_str().len() == 255));
    let longer = letters(alloc, 256)?;
    assert!(rt; Topic::new(alloc, longer.as_str())?.is_none());
    assert!(rt; Topic::new(alloc, "")?.is_none());
    Ok(())
}

#[test]
fn keys_within_their_limits(rt: HostRuntime) -> Result<(), Fail> {
    let alloc = rt.alloc();
    let most = letters(alloc, 255)?;
    assert!(rt; Key::new(alloc, most.as_str())?.is_some_and(|k| k.as_str().len() == 255));
    let longer = letters(alloc, 256)?;
    assert!(rt; Key::new(alloc, longer.as_str())?.is_none());
    assert!(rt; Key::new(alloc, "")?.is_none());
    Ok(())
}

#[test]
fn texts_in_order_of_bytes(rt: HostRuntime) -> Result<(), Fail> {
    let alloc = rt.alloc();
    let first = Text::of_string(String::from_str(alloc, "ab")?);
    let second = Text::new(alloc, "b")?;
    assert!(rt; first < second);
    assert!(rt; second.clone()? == second);
    Ok(())
}

fn shard_of_text(alloc: Global, text: &str, shards: u32) -> Result<Option<u32>, AllocError>
    requires { 0 < shards }
{
    match Topic::new(alloc, text)? {
        Some(topic) => Ok(Some(shard_of(&topic, shards))),
        None => Ok(None),
    }
}

#[test]
fn shard_numbers(rt: HostRuntime) -> Result<(), Fail> {
    let alloc = rt.alloc();
    assert!(rt; shard_of_text(alloc, "room:lobby", 4)? == Some(3));
    assert!(rt; shard_of_text(alloc, "room:a", 2)? == Some(0));
    assert!(rt; shard_of_text(alloc, "room:b", 2)? == Some(1));
    Ok(())
}
