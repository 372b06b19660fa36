//! Metas at their limits, the depth of values, and rows that are cloned.

use crate::dots::dot;
use crate::texts::{letters, nested};
use presence_base::{Dot, Json, JsonText, Key, Meta, Row, Topic, has_float, is_within_depth};
use serde_json::Value;
use std::alloc::{AllocError, Global};
use std::test::Fail;

fn meta_of(alloc: Global, text: &str) -> Result<Option<Meta>, Fail> {
    let value = Value::from_str(alloc, text)?;
    Ok(Meta::new(alloc, value)?)
}

fn is_meta(alloc: Global, text: &str) -> Result<bool, Fail> {
    Ok(meta_of(alloc, text)?.is_some())
}

fn meta_written(alloc: Global, text: &str) -> Result<Option<String>, Fail> {
    match meta_of(alloc, text)? {
        Some(meta) => Ok(Some(meta.to_value(alloc)?.to_string(alloc)?)),
        None => Ok(None),
    }
}

#[test]
fn metas_are_plain_objects(rt: HostRuntime) -> Result<(), Fail> {
    let alloc = rt.alloc();
    let text = meta_written(alloc, "{\"x\":1}")?;
    assert!(rt; text.is_some_and(|text| text.as_str() == "{\"x\":1}"));
    for bad in [
        "null",
        "[]",
        "{\"phx_ref\":\"z\"}",
        "{\"phx_ref_prev\":1}",
        "{\"x\":1.5}",
        "{\"x\":[-0]}",
    ] {
        assert!(rt; !is_meta(alloc, bad)?);
    }
    Ok(())
}

fn is_read_back(alloc: Global, text: &str, written: &str) -> Result<bool, Fail> {
    let Some(meta) = meta_of(alloc, text)? else {
        return Ok(false);
    };
    let read = meta.clone()?.to_value(alloc)?.to_string(alloc)?;
    Ok(meta.text() == written && read.as_str() == written)
}

#[test]
fn metas_are_read_from_their_texts(rt: HostRuntime) -> Result<(), Fail> {
    let alloc = rt.alloc();
    assert!(rt; is_read_back(alloc, "{ }", "{}")?);
    assert!(rt;
        is_read_back(
            alloc,
            "{\"b\": [1, \"x\"], \"a\": {}}",
            "{\"a\":{},\"b\":[1,\"x\"]}"
        )?
    );
    assert!(rt; is_read_back(alloc, "{\"\\u0061\":-9}", "{\"a\":-9}")?);
    Ok(())
}

// Whether the meta's text is cut so at the place of the references.
fn is_split(alloc: Global, text: &str, front: &str, rest: &str) -> Result<bool, Fail> {
    let Some(meta) = meta_of(alloc, text)? else {
        return Ok(false);
    };
    let Some(parts) = meta.split_at_refs() else {
        return Ok(false);
    };
    Ok(parts.0 == front && parts.1 == rest)
}

#[test]
fn places_of_references_in_metas(rt: HostRuntime) -> Result<(), Fail> {
    let alloc = rt.alloc();
    assert!(rt; is_split(alloc, "{}", "{", "}")?);
    assert!(rt; is_split(alloc, "{\"q\":1}", "{", "\"q\":1}")?);
    assert!(rt; is_split(alloc, "{\"a\":1,\"b\":2}", "{\"a\":1,\"b\":2", "}")?);
    assert!(rt; is_split(alloc, "{\"q\":[2],\"a\":{}}", "{\"a\":{}", ",\"q\":[2]}")?);
    assert!(rt; is_split(alloc, "{\"a\":\"é\",\"é\":1}", "{\"a\":\"é\"", ",\"é\":1}")?);
    let meta = meta_of(alloc, "{\"a\":1,\"phx_ref_a\":2}")?.ok_or("a meta")?;
    assert!(rt; meta.split_at_refs().is_none());
    Ok(())
}

#[test]
fn values_that_are_kept_as_texts(rt: HostRuntime) -> Result<(), Fail> {
    let alloc = rt.alloc();
    let value = Value::from_str(alloc, "[null, {\"b\": \"y\"}]")?;
    assert!(rt; is_within_depth(&value, 3) && !has_float(&value));
    if !is_within_depth(&value, 3) || has_float(&value) {
        return Ok(());
    }
    let kept = JsonText::new(alloc, &value)?;
    assert!(rt; kept.clone()?.as_str() == "[null,{\"b\":\"y\"}]");
    assert!(rt; kept.to_value(alloc)?.is_array());
    Ok(())
}

// A meta of this many letters in one member: its compact text has eight bytes more.
fn meta_text(alloc: Global, count: usize) -> Result<String, AllocError> {
    let letters = letters(alloc, count)?;
    format!(in alloc; "{{\"x\":\"{letters}\"}}")
}

#[test]
fn metas_of_16384_bytes(rt: HostRuntime) -> Result<(), Fail> {
    let alloc = rt.alloc();
    let most = meta_text(alloc, 16_376)?;
    assert!(rt; is_meta(alloc, most.as_str())?);
    let longer = meta_text(alloc, 16_377)?;
    assert!(rt; !is_meta(alloc, longer.as_str())?);
    Ok(())
}

// An object with this many arrays, one in the other.
fn deep_object(alloc: Global, arrays: usize) -> Result<String, AllocError> {
    let arrays = nested(alloc, arrays)?;
    format!(in alloc; "{{\"a\":{arrays}}}")
}

#[test]
fn metas_of_depth_32(rt: HostRuntime) -> Result<(), Fail> {
    let alloc = rt.alloc();
    let deepest = deep_object(alloc, 31)?;
    assert!(rt; is_meta(alloc, deepest.as_str())?);
    let deeper = deep_object(alloc, 32)?;
    assert!(rt; !is_meta(alloc, deeper.as_str())?);
    Ok(())
}

#[test]
fn depth_of_values(rt: HostRuntime) -> Result<(), Fail> {
    let alloc = rt.alloc();
    let value = Value::from_str(alloc, "{\"a\":[[]],\"b\":1e1}")?;
    assert!(rt; is_within_depth(&value, 3));
    assert!(rt; !is_within_depth(&value, 2));
    assert!(rt; has_float(&value));
    let json = Json::new(value);
    assert!(rt; json.clone()?.as_value().is_object());
    assert!(rt; json.into_value().is_object());
    Ok(())
}

fn row_of(topic: Topic, key: Key, meta: Meta, prev: Option<Dot>) -> Row {
    Row {
        topic,
        key,
        pid: 5,
        meta,
        prev,
    }
}

fn some_row(alloc: Global) -> Result<Row, Fail> {
    let topic = Topic::new(alloc, "room:a")?.ok_or("a topic")?;
    let key = Key::new(alloc, "u1")?.ok_or("a key")?;
    let meta = meta_of(alloc, "{}")?.ok_or("a meta")?;
    let prev = dot(alloc, "a", 1, 3)?;
    Ok(row_of(topic, key, meta, prev))
}

fn are_alike(row: &Row, other: &Row) -> bool {
    row.topic == other.topic && row.key == other.key && row.pid == other.pid
}

fn replaces(row: &Row, count: u64) -> bool {
    row.prev.as_ref().is_some_and(|dot| dot.count == count)
}

#[test]
fn rows_are_cloned_whole(rt: HostRuntime) -> Result<(), Fail> {
    let alloc = rt.alloc();
    let row = some_row(alloc)?;
    let copy = row.clone()?;
    assert!(rt; copy.pid == 5 && are_alike(&copy, &row));
    assert!(rt; replaces(&copy, 3));
    Ok(())
}
