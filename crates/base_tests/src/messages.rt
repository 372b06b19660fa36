//! Messages that are read, refused, made and written.

use crate::texts::{letters, nested};
use phx_message::{
    Limits, MessageFault, MsgRef, Status, broadcast, close_of, decode, encode, push, reply,
    reply_error, reply_ok,
};
use presence_base::{Json, Text, Topic};
use serde_json::{Value, json};
use std::alloc::{AllocError, Global};
use std::test::Fail;

// What is wrong with a client's text.
fn fault_of(alloc: Global, text: &str) -> Option<MessageFault> {
    match decode(alloc, text, Limits::CLIENT) {
        Ok(_) => None,
        Err(fault) => Some(fault),
    }
}

// The text of a message with this topic, event and payload.
fn text_of(alloc: Global, topic: &str, event: &str, payload: &str) -> Result<String, AllocError> {
    format!(in alloc; "[null,\"1\",\"{topic}\",\"{event}\",{payload}]")
}

#[test]
fn refused_texts(rt: HostRuntime) -> Result<(), Fail> {
    let alloc = rt.alloc();
    let rows = [
        ("", MessageFault::NotJson),
        ("[null,\"1\",\"phoenix\",\"heartb", MessageFault::NotJson),
        (
            "[null,\"1\",\"phoenix\",\"heartbeat\",{}]0",
            MessageFault::NotJson,
        ),
        (
            "[null,\"1\",\"a\",\"b\",{\"x\":1e999}]",
            MessageFault::NotJson,
        ),
        ("[null,\"\\ud800\",\"a\",\"b\",{}]", MessageFault::NotJson),
        (
            "[null,\"1\",\"phoenix\",\"heartbeat\"]",
            MessageFault::NotFive,
        ),
        (
            "[null,\"1\",\"phoenix\",\"heartbeat\",{},0]",
            MessageFault::NotFive,
        ),
        ("{\"topic\":\"a\"}", MessageFault::NotFive),
        ("[null,-1,\"a\",\"b\",{}]", MessageFault::BadRef),
        ("[null,-0,\"a\",\"b\",{}]", MessageFault::BadRef),
        ("[1.0,null,\"a\",\"b\",{}]", MessageFault::BadRef),
        (
            "[18446744073709551616,null,\"a\",\"b\",{}]",
            MessageFault::BadRef,
        ),
        ("[null,\"1\",\"\",\"b\",{}]", MessageFault::BadTopic),
        ("[null,\"1\",7,\"b\",{}]", MessageFault::BadTopic),
        ("[null,\"1\",\"a\",\"\",{}]", MessageFault::BadEvent),
        (
            "[null,\"1\",\"a\",\"b\",{\"x\":1.5}]",
            MessageFault::Fraction,
        ),
        (
            "[null,\"1\",\"a\",\"b\",[18446744073709551616]]",
            MessageFault::Fraction,
        ),
        // Of several faults the first in their order.
        ("[true,\"1\",\"\",\"\",1.5]", MessageFault::BadRef),
        ("[null,\"1\",\"\",\"\",1.5]", MessageFault::BadTopic),
        ("[null,\"1\",\"a\",\"\",1.5]", MessageFault::BadEvent),
    ];
    for (text, fault) in rows {
        assert_eq!(rt; fault_of(alloc, text), Some(fault), "{text}");
    }
    Ok(())
}

#[test]
fn limits_of_a_client(rt: HostRuntime) -> Result<(), Fail> {
    let alloc = rt.alloc();
    let short = letters(alloc, 255)?;
    let long = letters(alloc, 256)?;
    let text = text_of(alloc, short.as_str(), "b", "{}")?;
    assert_eq!(rt; fault_of(alloc, text.as_str()), None);
    let text = text_of(alloc, long.as_str(), "b", "{}")?;
    assert_eq!(rt;
        fault_of(alloc, text.as_str()),
        Some(MessageFault::BadTopic)
    );
    let short = letters(alloc, 64)?;
    let long = letters(alloc, 65)?;
    let text = text_of(alloc, "a", short.as_str(), "{}")?;
    assert_eq!(rt; fault_of(alloc, text.as_str()), None);
    let text = text_of(alloc, "a", long.as_str(), "{}")?;
    assert_eq!(rt;
        fault_of(alloc, text.as_str()),
        Some(MessageFault::BadEvent)
    );
    Ok(())
}

#[test]
fn depths_of_a_frame(rt: HostRuntime) -> Result<(), Fail> {
    let alloc = rt.alloc();
    for (depth, is_read) in [(96, true), (97, false)] {
        let payload = nested(alloc, depth)?;
        let text = text_of(alloc, "a", "b", payload.as_str())?;
        match decode(alloc, text.as_str(), Limits::FRAME) {
            Ok(_) => assert!(rt; is_read),
            Err(fault) => assert!(rt; !is_read && fault == MessageFault::TooDeep),
        }
    }
    Ok(())
}

fn fault_at_depth(alloc: Global, depth: usize) -> Result<Option<MessageFault>, AllocError> {
    let payload = nested(alloc, depth)?;
    let text = text_of(alloc, "a", "b", payload.as_str())?;
    Ok(fault_of(alloc, text.as_str()))
}

#[test]
fn depths_of_a_client(rt: HostRuntime) -> Result<(), Fail> {
    let alloc = rt.alloc();
    assert_eq!(rt; fault_at_depth(alloc, 64)?, None);
    assert_eq!(rt; fault_at_depth(alloc, 65)?, Some(MessageFault::TooDeep));
    Ok(())
}

// A message with so many spaces in its payload, which is 21 bytes longer.
fn spaced(alloc: Global, spaces: usize) -> Result<String, AllocError> {
    let spaces = " ".repeat(alloc, spaces)?;
    let payload = format!(in alloc; "{}{spaces}", "{}")?;
    text_of(alloc, "a", "b", payload.as_str())
}

#[test]
fn sizes_of_a_client(rt: HostRuntime) -> Result<(), Fail> {
    let alloc = rt.alloc();
    for (spaces, bytes, fault) in [
        (65_515, 65_536, None),
        (65_516, 65_537, Some(MessageFault::TooLong)),
    ] {
        let text = spaced(alloc, spaces)?;
        assert!(rt; text.len() == bytes);
        assert!(rt; fault_of(alloc, text.as_str()) == fault);
    }
    Ok(())
}

const NUMBERED: &str = "[7,18446744073709551615,\"room:a\",\"phx_join\",{\"b\":2,\"a\":1}]";

#[test]
fn number_references(rt: HostRuntime) -> Result<(), Fail> {
    let message = decode(rt.alloc(), NUMBERED, Limits::CLIENT)?;
    assert!(rt; message.join_ref == Some(MsgRef::Number(7)));
    assert!(rt; message.msg_ref == Some(MsgRef::Number(u64::MAX)));
    assert!(rt; message.topic.as_str() == "room:a");
    assert!(rt; message.event.as_str() == "phx_join");
    Ok(())
}

// The text of a clone of what is read.
fn written_again(alloc: Global, text: &str) -> Result<Option<String>, AllocError> {
    let Ok(message) = decode(alloc, text, Limits::CLIENT) else {
        return Ok(None);
    };
    let copy = message.clone()?;
    Ok(Some(encode(alloc, &copy)?))
}

#[test]
fn a_clone_is_written_in_order(rt: HostRuntime) -> Result<(), Fail> {
    let want = "[7,18446744073709551615,\"room:a\",\"phx_join\",{\"a\":1,\"b\":2}]";
    let text = written_again(rt.alloc(), NUMBERED)?;
    assert!(rt; text.is_some_and(|text| text.as_str() == want));
    Ok(())
}

fn empty(alloc: Global) -> Result<Json, AllocError> {
    Ok(Json::new(json!(in alloc; {})?))
}

fn join_one(alloc: Global) -> Result<Option<MsgRef>, AllocError> {
    Ok(Some(MsgRef::Text(Text::new(alloc, "1")?)))
}

fn topic(alloc: Global, text: &str) -> Result<Topic, Fail> {
    Ok(Topic::new(alloc, text)?.ok_or("a topic")?)
}

fn ok_text(alloc: Global, topic: Topic) -> Result<String, AllocError> {
    let msg_ref = join_one(alloc)?;
    let made = reply_ok(alloc, None, msg_ref, topic, empty(alloc)?)?;
    encode(alloc, &made)
}

fn error_text(alloc: Global, topic: Topic) -> Result<String, AllocError> {
    let made = reply_error(alloc, join_one(alloc)?, None, topic, "already tracked")?;
    encode(alloc, &made)
}

fn null_text(alloc: Global, topic: Topic) -> Result<String, AllocError> {
    let answer = Json::new(Value::Null);
    let made = reply(alloc, None, None, topic, Status::Error, answer)?;
    encode(alloc, &made)
}

#[test]
fn texts_of_replies(rt: HostRuntime) -> Result<(), Fail> {
    let alloc = rt.alloc();
    assert_eq!(rt;
        ok_text(alloc, topic(alloc, "phoenix")?)?.as_str(),
        "[null,\"1\",\"phoenix\",\"phx_reply\",{\"response\":{},\"status\":\"ok\"}]"
    );
    assert_eq!(rt;
        error_text(alloc, topic(alloc, "room:lobby")?)?.as_str(),
        "[\"1\",null,\"room:lobby\",\"phx_reply\",{\"response\":{\"reason\":\"already tracked\"},\"status\":\"error\"}]"
    );
    assert_eq!(rt;
        null_text(alloc, topic(alloc, "room:lobby")?)?.as_str(),
        "[null,null,\"room:lobby\",\"phx_reply\",{\"response\":null,\"status\":\"error\"}]"
    );
    Ok(())
}

fn state_text(alloc: Global, topic: Topic) -> Result<String, AllocError> {
    let join_ref = join_one(alloc)?;
    let made = push(alloc, join_ref, topic, "presence_state", empty(alloc)?)?;
    encode(alloc, &made)
}

fn shout_text(alloc: Global, topic: Topic) -> Result<String, AllocError> {
    let payload = Json::new(json!(in alloc; {"b": 2})?);
    let made = broadcast(alloc, topic, "shout", payload)?;
    encode(alloc, &made)
}

fn close_text(alloc: Global, topic: Topic) -> Result<String, AllocError> {
    let made = close_of(alloc, join_one(alloc)?, topic)?;
    encode(alloc, &made)
}

#[test]
fn texts_of_other_messages(rt: HostRuntime) -> Result<(), Fail> {
    let alloc = rt.alloc();
    assert_eq!(rt;
        state_text(alloc, topic(alloc, "room:lobby")?)?.as_str(),
        "[\"1\",null,\"room:lobby\",\"presence_state\",{}]"
    );
    assert_eq!(rt;
        shout_text(alloc, topic(alloc, "room:lobby")?)?.as_str(),
        "[null,null,\"room:lobby\",\"shout\",{\"b\":2}]"
    );
    assert_eq!(rt;
        close_text(alloc, topic(alloc, "room:lobby")?)?.as_str(),
        "[\"1\",\"1\",\"room:lobby\",\"phx_close\",{}]"
    );
    Ok(())
}
