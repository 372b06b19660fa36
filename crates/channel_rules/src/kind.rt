//! Events by name.
ghost use Rattle.std.specs.Prelude.{◌≡◌};
ghost use Rattle.channel_rules.specs.Rules.{kind_of as kind_of_text, topic_event_of as topic_event_of_text, is_phoenix as is_phoenix_text};

use presence_base::Topic;

/// The events that the built-in channel knows.
#[derive(Clone, Copy, PartialEq, Eq, Debug)]
pub enum EventKind {
    Heartbeat,
    Join,
    Leave,
    Topic(TopicEvent),
}

/// The events of a joined topic.
#[derive(Clone, Copy, PartialEq, Eq, Debug)]
pub enum TopicEvent {
    Ping,
    Shout,
    Track,
    Update,
    Untrack,
    List,
    Get,
    Unknown,
}

// The event of a joined topic that a text names.
fn topic_event_of(event: &str) -> TopicEvent
    ensures { result ≡ topic_event_of_text event.now }
{
    if event == "ping" {
        TopicEvent::Ping
    } else if event == "shout" {
        TopicEvent::Shout
    } else if event == "track" {
        TopicEvent::Track
    } else if event == "update" {
        TopicEvent::Update
    } else if event == "untrack" {
        TopicEvent::Untrack
    } else if event == "list" {
        TopicEvent::List
    } else if event == "get" {
        TopicEvent::Get
    } else {
        TopicEvent::Unknown
    }
}

/// The event that a text names.
pub fn kind_of(event: &str) -> EventKind
    ensures { result ≡ kind_of_text event.now }
{
    if event == "heartbeat" {
        EventKind::Heartbeat
    } else if event == "phx_join" {
        EventKind::Join
    } else if event == "phx_leave" {
        EventKind::Leave
    } else {
        EventKind::Topic(topic_event_of(event))
    }
}

/// Whether the topic is that of heartbeats, which is never joined.
pub fn is_phoenix(topic: &Topic) -> bool
    ensures { result ≡ is_phoenix_text topic.now }
{
    topic.as_str() == "phoenix"
}
