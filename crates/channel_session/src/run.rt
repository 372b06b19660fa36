//! A text of a client, answered.
ghost use Rattle.std.specs.Prelude.{◌≡◌, [], ◌<◌, ◌≤◌, length, map, vec_capacity, false, Err, IsTrue, IfOk, if◌then◌else◌};
ghost use Rattle.presence_journal.specs.Limits.{is_payload};
ghost use Rattle.phx_message.specs.declared.message.MessageFault.TheVariants.{TooLong};
ghost use Rattle.channel_rules.specs.Replies.{messages_of};
ghost use Rattle.channel_rules.specs.Said.{text_of};
ghost use Rattle.channel_session.specs.Wording.{worded_by};
ghost use Rattle.channel_session.specs.declared.fault.SessionFault.TheVariants.{BadMessage};
ghost use Rattle.channel_session.specs.Ran.{MessageRanBy, TextRan, failed_at, fault_of, texts_in};

use crate::channels::Channels;
use crate::fault::{SessionFault, fault_of_stop};
use crate::session::Session;
use channel_rules::{Port, Reply, Stop};
use hook_registry::PresenceHooks;
use phx_message::{Limits, Message, MessageFault, decode};
use presence_base::Topic;
use std::alloc::{AllocError, Global};

// The texts of a reply, in the list that was made for them.
fn list_texts(mut texts: Vec<String>, reply: Reply) -> Vec<String>
    requires empty { texts.items ≡ [] }
    requires room { 2 ≤ vec_capacity texts }
    ensures { texts_in result ≡ map text_of (messages_of reply) }
{
    match reply {
        Reply::Nothing => texts,
        Reply::One(reply) => {
            let _pushed = texts.push(reply.text);
            texts
        }
        Reply::Two(reply, next) => {
            let _pushed = texts.push(reply.text);
            let _then = texts.push(next.text);
            texts
        }
        Reply::Listed(reply) => {
            let _pushed = texts.push(reply.text);
            texts
        }
    }
}

impl Session {
    // Leaves a session behind in which a fault left something of this topic.
    fn fail(&mut self, topic: Topic)
        ensures { self.new ≡ failed_at self.old topic }
    {
        let known = self.topics.find(&topic).is_some();
        self.failed = true;
        if !known {
            self.cut_short = Some(topic);
        }
    }

    // What a fault leaves.
    fn leave_behind(&mut self, topic: Topic, stop: &Stop) -> SessionFault
        ensures after { self.new ≡ (if stop.now.spoiled then failed_at self.old topic else self.old) }
        ensures fault { result ≡ fault_of stop.now.kind }
    {
        if stop.spoiled {
            self.fail(topic);
        }
        fault_of_stop(stop)
    }

    // The message with a topic whose clones share its bytes: that of the session, where it is joined.
    fn with_shared_topic(&self, message: Message) -> Result<Message, AllocError>
        ensures { IfOk result (λ m. m ≡ message) }
    {
        let topic = self.topics.kept(&message.topic).clone()?;
        let Message {
            join_ref,
            msg_ref,
            topic: _topic,
            event,
            payload,
        } = message;
        Ok(Message {
            join_ref,
            msg_ref,
            topic,
            event,
            payload,
        })
    }

    // Answers a message.
    fn run_message<P: Port, H: PresenceHooks>(
        &mut self,
        alloc: Global,
        port: &mut P,
        channels: Channels<'_, H>,
        message: Message,
        texts: Vec<String>,
    ) -> Result<Vec<String>, SessionFault>
        requires payload { IsTrue (is_payload message.payload) }
        requires empty { texts.items ≡ [] }
        requires room { 2 ≤ vec_capacity texts }
        ensures { MessageRanBy (worded_by H.PresenceHooks channels.entry.hooks.now) (P.step self.old.pid)
            channels.entry.routes.now self.old message port.old port.new self.new result }
    {
        match self.act(alloc, port, channels, &message) {
            Ok(reply) => Ok(list_texts(texts, reply)),
            Err(stop) => Err(self.leave_behind(message.topic, &stop)),
        }
    }
}

/// Answers a text of a client by the rules of the built-in channel: the texts for the client, in
/// the order in which they are to be sent.
///
/// A topic is joined where one of the routes matches it, as one of that route's kind. Rows in a
/// reply are told with what `fetch` adds; a fetch that wants memory gives `OutOfMemory`. A client's limits are those of
/// `Limits::CLIENT`. A fault leaves the session and the port as they were, unless a call was made
/// that leaves something behind: one that was accepted (asking what waits is none), or one of the
/// two that end a join, accepted or not. Then the session has failed, the topic is among those
/// that `joined` names, and only `end` acts. A text that is too long is refused without memory.
pub fn run_text<P: Port, H: PresenceHooks>(
    alloc: Global,
    session: &mut Session,
    port: &mut P,
    channels: Channels<'_, H>,
    text: &str,
) -> Result<Vec<String>, SessionFault>
    ensures ran { TextRan H.PresenceHooks channels.entry.hooks.now (P.step session.old.pid) channels.entry.routes.now text.now
        session.old port.old port.new session.new result }
    ensures long { session.old.failed ≡ false → Limits.CLIENT.bytes < length text.now
        → result ≡ Err (BadMessage TooLong) }
{
    if session.failed {
        return Err(SessionFault::Failed);
    }
    let message = match decode(alloc, text, Limits::CLIENT) {
        Ok(message) => message,
        Err(MessageFault::OutOfMemory) => return Err(SessionFault::OutOfMemory),
        Err(fault) => return Err(SessionFault::BadMessage(fault)),
    };
    let Ok(texts) = Vec::with_capacity(alloc, 2) else {
        return Err(SessionFault::OutOfMemory);
    };
    let Ok(message) = session.with_shared_topic(message) else {
        return Err(SessionFault::OutOfMemory);
    };
    session.run_message(alloc, port, channels, message, texts)
}
