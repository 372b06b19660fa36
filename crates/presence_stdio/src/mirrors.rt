//! Lists by topic.
ghost use Rattle.std.specs.Prelude.{◌≡◌, ◌++◌, ◌∷◌, [], false, IfOk, OnOk};
ghost use Rattle.serde_json.specs.View.{view, members_view};
ghost use Rattle.serde_json.specs.Written.{has_float, compact_text};
ghost use Rattle.presence_stdio.specs.Folding.{FoldsMessage};
ghost use Rattle.presence_stdio.specs.Mirrors.{held, without_topic, with_frame, with_topic, mirrors_value, mirrors_text};

use phx_message::Message;
use presence_base::Topic;
use presence_metas::{Frame, FrameFault, Mirror, put_member, read_frame};
use serde_json::{Map, Value};
use std::alloc::{AllocError, Global};
use std::collections::BTreeMap;

// Takes out what is held of a topic.
fn take_mirror(alloc: Global, mirrors: &mut BTreeMap<Topic, Mirror>, topic: &Topic) -> Mirror
    ensures mirror { result ≡ held mirrors.old.entries topic.now }
    ensures rest { mirrors.new.entries ≡ without_topic mirrors.old.entries topic.now }
{
    if let Some(mirror) = mirrors.remove(topic) {
        return mirror;
    }
    Mirror::new(alloc)
}

// Folds a frame into the lists of its topic.
fn take_frame(
    alloc: Global,
    mirrors: &mut BTreeMap<Topic, Mirror>,
    topic: &Topic,
    frame: Frame,
) -> Result<(), AllocError>
    ensures { OnOk result (mirrors.new.entries ≡ with_frame mirrors.old.entries topic.now frame) }
{
    let mut mirror = take_mirror(alloc, mirrors, topic);
    mirror.take_frame(alloc, frame)?;
    let topic = topic.clone()?;
    mirrors.insert(topic, mirror)?;
    Ok(())
}

/// Folds in the frame that a message carries. One of another event changes nothing.
pub(crate) fn take_message(
    alloc: Global,
    mirrors: &mut BTreeMap<Topic, Mirror>,
    message: &Message,
) -> Result<(), FrameFault>
    ensures { FoldsMessage mirrors.old.entries mirrors.new.entries message.now result }
{
    match read_frame(alloc, message) {
        Ok(frame) => match take_frame(alloc, mirrors, &message.topic, frame) {
            Ok(()) => Ok(()),
            Err(_) => Err(FrameFault::OutOfMemory),
        },
        Err(FrameFault::NotPresence) => Ok(()),
        Err(fault) => Err(fault),
    }
}

// Puts a topic's lists at its name.
fn put_mirror(
    alloc: Global,
    members: &mut Map<String, Value>,
    topic: &Topic,
    mirror: &Mirror,
) -> Result<(), AllocError>
    ensures { OnOk result (members_view members.new.entries
        ≡ with_topic (members_view members.old.entries) (topic.now, mirror.now)) }
{
    let value = mirror.to_value(alloc)?;
    put_member(alloc, members, topic.as_str(), value)
}

// The object from topic to map.
fn value_of_mirrors(alloc: Global, mirrors: &BTreeMap<Topic, Mirror>) -> Result<Value, AllocError>
    ensures { IfOk result (λ v. view v ≡ mirrors_value mirrors.now.entries) }
{
    let mut members = Map::new(alloc);
    for (topic, mirror) in mirrors.iter() {
        put_mirror(alloc, &mut members, topic, mirror)?;
    }
    Ok(Value::Object(members))
}

/// The text of the object from topic to map, with a line feed.
pub(crate) fn text_of_mirrors(
    alloc: Global,
    mirrors: &BTreeMap<Topic, Mirror>,
) -> Result<Vec<u8>, AllocError>
    ensures { IfOk result (λ t. has_float (mirrors_value mirrors.now.entries) ≡ false
        → t.items ≡ mirrors_text mirrors.now.entries) }
{
    let value = value_of_mirrors(alloc, mirrors)?;
    let mut text = value.to_string(alloc)?.into_bytes();
    text.push(b'\n')?;
    Ok(text)
}
