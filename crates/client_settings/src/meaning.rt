//! What comes of a client's text before its session reads it.
ghost use Rattle.std.specs.Prelude.{◌≡◌, ◌&&◌, not, [], true, false, is_ok, None, Ok, IfOk, map, string_bytes};
ghost use Rattle.serde_json.specs.Written.{has_float};
ghost use Rattle.number_texts.specs.Marks.{become};
ghost use Rattle.phx_message.specs.Reading.{decoded};
ghost use Rattle.channel_rules.specs.Rules.{kind_of as kind_in};
ghost use Rattle.channel_rules.specs.Said.{text_of};
ghost use Rattle.client_settings.specs.Events.{is_own};
ghost use Rattle.client_settings.specs.Meaning.{IsAsItCame, IsPlain, Means, answer_to, as_shout, is_join, is_late as is_late_in, is_own_event as is_own_event_in, is_shout as is_shout_kind, is_taken_for_kept as is_taken_in, late_reply, meaning, meant_by, meant_by_message, meant_in_time, reads, same_msg_ref, same_ref, sender_of, shouting};

use crate::kept::{is_taken_for_kept, keep_event, keep_shout};
use crate::settings::Settings;
use channel_rules::{EventKind, Join, TopicEvent, empty_object, kind_of, write_error, write_ok};
use channel_session::Session;
use phx_message::{Limits, Message, MessageFault, MsgRef, decode, encode};
use presence_base::{Json, Text};
use std::alloc::{AllocError, Global};

/// What a session reads of a text.
#[derive(Debug, Drop)]
pub struct Reading {
    /// The text, or none where it is the one that came.
    pub text: Option<String>,
    /// What is said where the session says nothing.
    pub ok: Vec<String>,
}

/// What comes of a text.
#[derive(Debug, Drop)]
pub enum Meaning {
    /// The session reads it.
    Reads(Reading),
    /// This is said, and the session isn't asked.
    Answers(Vec<String>),
}

// Whether two references are the same.
fn is_same(first: &MsgRef, second: &MsgRef) -> bool
    ensures { result ≡ same_msg_ref first.now second.now }
{
    match (first, second) {
        (MsgRef::Text(first), MsgRef::Text(second)) => first.as_str() == second.as_str(),
        (MsgRef::Number(first), MsgRef::Number(second)) => *first == *second,
        _ => false,
    }
}

// Whether two references are the same: a text is never a number, and none is only none.
fn is_same_ref(first: &Option<MsgRef>, second: &Option<MsgRef>) -> bool
    ensures { result ≡ same_ref first.now second.now }
{
    match (first, second) {
        (None, None) => true,
        (Some(first), Some(second)) => is_same(first, second),
        _ => false,
    }
}

// Whether a message, other than a join, is under another reference than that of this join.
fn is_under_another_ref(join: &Join, message: &Message) -> bool
    ensures { result ≡ (not (is_join (kind_in message.now.event)) && not (same_ref message.now.join_ref join.now.join_ref)) }
{
    !matches!(kind_of(message.event.as_str()), EventKind::Join)
        && !is_same_ref(&message.join_ref, &join.join_ref)
}

// The reply to a message that is late.
fn late_text(alloc: Global, message: &Message) -> Result<String, AllocError>
    ensures { IfOk result (λ t. string_bytes t ≡ text_of (late_reply (kind_in message.now.event) message.now)) }
{
    let reply = match kind_of(message.event.as_str()) {
        EventKind::Leave => write_ok(alloc, &message.join_ref, message, empty_object(alloc))?,
        _ => write_error(alloc, &message.join_ref, message, "unmatched topic")?,
    };
    Ok(reply.text)
}

// The text of the shout of this payload that stands for a message.
fn shout_text(alloc: Global, message: Message, payload: Json) -> Result<String, AllocError>
    requires { has_float payload ≡ false }
    ensures { IfOk result (λ t. string_bytes t ≡ text_of (shouting message payload)) }
{
    let Message {
        join_ref,
        msg_ref,
        topic,
        event: _event,
        payload: _sent,
    } = message;
    let shout = Message {
        join_ref,
        msg_ref,
        topic,
        event: Text::new(alloc, "shout")?,
        payload,
    };
    encode(alloc, &shout)
}

/// Whether an event is a shout.
pub(crate) fn is_shout(event: &str) -> bool
    ensures { result ≡ is_shout_kind (kind_in event.now) }
{
    matches!(kind_of(event), EventKind::Topic(TopicEvent::Shout))
}

// What is read of a text that is read as it is, with its numbers as texts.
fn as_it_came(alloc: Global, text: Option<String>) -> Meaning
    ensures means { Means (λ came. reads (become came text) []) result }
    ensures untouched { text ≡ None → IsAsItCame result }
{
    let ok = Vec::new(alloc);
    Meaning::Reads(Reading { text, ok })
}

impl Settings {
    // Whether a message is to an earlier join of its topic.
    fn is_late(&self, session: &Session, message: &Message) -> bool
        ensures { result ≡ is_late_in self.now session.now message.now }
    {
        match session.join_of(&message.topic) {
            Some(join) => self.match_joins && is_under_another_ref(join, message),
            None => false,
        }
    }

    // Whether an event is a client's own.
    fn is_own(&self, event: &str) -> bool
        ensures { result ≡ is_own self.now.events event.now }
    {
        match &self.events {
            Some(events) => events.is_own(event),
            None => false,
        }
    }

    // Whether a message is an event of a client's own, on a topic that is joined.
    fn is_own_event(&self, session: &Session, message: &Message) -> bool
        ensures { result ≡ is_own_event_in self.now session.now message.now }
    {
        self.is_own(message.event.as_str()) && session.join_of(&message.topic).is_some()
    }

    // The session that an event doesn't go to.
    fn sender_of(&self, pid: u64, event: &str) -> Option<u64>
        ensures { result ≡ sender_of self.now pid event.now }
    {
        match &self.events {
            Some(events) if events.goes_to_others(event) => Some(pid),
            _ => None,
        }
    }

    // What is said to an event of a client's own.
    fn answer_to(&self, alloc: Global, message: &Message) -> Result<Vec<String>, AllocError>
        ensures { IfOk result (λ v. map string_bytes v.items ≡ answer_to self.now message.now) }
    {
        match &self.events {
            Some(events) if events.is_answered(message.event.as_str()) => {
                let reply = write_ok(alloc, &message.join_ref, message, empty_object(alloc))?;
                Ok(vec![in alloc; reply.text]?)
            }
            _ => Ok(Vec::new(alloc)),
        }
    }

    // What is read of an event of a client's own.
    fn own_event(&self, alloc: Global, pid: u64, message: Message) -> Result<Meaning, AllocError>
        requires { has_float message.payload ≡ false }
        ensures { IfOk result (Means (λ text. reads (text_of (as_shout self.now pid message)) (answer_to self.now message))) }
    {
        let ok = self.answer_to(alloc, &message)?;
        let sender = self.sender_of(pid, message.event.as_str());
        let payload = keep_event(alloc, message.event.as_str(), sender, &message.payload)?;
        let text = shout_text(alloc, message, payload)?;
        Ok(Meaning::Reads(Reading {
            text: Some(text),
            ok,
        }))
    }

    // Whether a message is a shout that would be taken for something else.
    fn is_taken_for_kept(&self, message: &Message) -> bool
        ensures { result ≡ is_taken_in self.now message.now }
    {
        self.events.is_some()
            && is_shout(message.event.as_str())
            && is_taken_for_kept(&message.payload)
    }

    // What is read of a message that isn't late.
    #[tactic(auto, using(crate::proofs::Taken::taken_kept))]
    fn in_time(
        &self,
        alloc: Global,
        session: &Session,
        marked: Option<String>,
        message: Message,
    ) -> Result<Meaning, AllocError>
        requires { has_float message.payload ≡ false }
        ensures { IfOk result (Means (λ text. meant_in_time self.now session.now (become text marked) message)) }
    {
        if self.is_own_event(session, &message) {
            return self.own_event(alloc, session.pid(), message);
        }
        if self.is_taken_for_kept(&message) {
            let payload = keep_shout(alloc, &message.payload)?;
            let text = shout_text(alloc, message, payload)?;
            return Ok(Meaning::Reads(Reading {
                text: Some(text),
                ok: Vec::new(alloc),
            }));
        }
        Ok(as_it_came(alloc, marked))
    }

    // What comes of a message.
    fn of_message(
        &self,
        alloc: Global,
        session: &Session,
        marked: Option<String>,
        message: Message,
    ) -> Result<Meaning, AllocError>
        requires { has_float message.payload ≡ false }
        ensures { IfOk result
            (Means (λ text. meant_by_message self.now session.now (become text marked) (Ok message))) }
    {
        if self.is_late(session, &message) {
            let reply = late_text(alloc, &message)?;
            return Ok(Meaning::Answers(vec![in alloc; reply]?));
        }
        self.in_time(alloc, session, marked, message)
    }

    // What comes of a text with its numbers as texts.
    fn of_marked(
        &self,
        alloc: Global,
        session: &Session,
        text: &str,
        marked: Option<String>,
    ) -> Result<Meaning, AllocError>
        ensures { IfOk result (λ h. meant_by text.now h ≡ meant_by_message self.now session.now (become text.now marked)
            (decoded Limits.CLIENT (become text.now marked))) }
    {
        let read = match &marked {
            Some(marked) => marked.as_str(),
            None => text,
        };
        match decode(alloc, read, Limits::CLIENT) {
            Ok(message) => self.of_message(alloc, session, marked, message),
            Err(MessageFault::OutOfMemory) => Err(AllocError),
            Err(_) => Ok(as_it_came(alloc, marked)),
        }
    }

    /// What comes of a text that came for this session. By default it is read as it came, and no memory is wanted.
    #[tactic(auto, unfolding(crate::specs::Meaning::meaning))]
    pub fn meaning(
        &self,
        alloc: Global,
        session: &Session,
        text: &str,
    ) -> Result<Meaning, AllocError>
        ensures meaning { IfOk result (λ h. meant_by text.now h ≡ meaning self.now session.now text.now) }
        ensures plain { IsPlain self.now → is_ok result ≡ true }
        ensures untouched { IsPlain self.now → IfOk result IsAsItCame }
    {
        let marked = self.numbers.heard(alloc, text)?;
        if !self.looks() || session.failed() {
            return Ok(as_it_came(alloc, marked));
        }
        self.of_marked(alloc, session, text, marked)
    }
}
