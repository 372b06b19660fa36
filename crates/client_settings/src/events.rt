//! Events of one's own, by their names.
ghost use Rattle.std.specs.Prelude.{◌≡◌};
ghost use Rattle.channel_rules.specs.Rules.{kind_of as kind_in};
ghost use Rattle.client_settings.specs.Events.{is_free as is_free_event, is_named as is_named_in, is_reserved as is_reserved_event, is_unknown_kind, names as names_event};

use channel_rules::{EventKind, TopicEvent, kind_of};
use presence_base::Text;
use std::alloc::{AllocError, Global};
use std::fmt::{self, Debug, Formatter, Write};
use std::marker::Model;
use std::sync::Arc;

/// The names of events of one's own, of which `*` is that of all. Each list names events.
#[derive(Debug, Drop)]
pub struct EventNames {
    /// Those of which nothing more is said.
    pub sent: Vec<Text>,
    /// Those that are answered.
    pub answered: Vec<Text>,
    /// Those that don't go to who sent them.
    pub to_others: Vec<Text>,
}

/// The events of one's own that clients may send. Those who share them share their names.
pub struct OwnEvents {
    names: Arc<EventNames, Global>,
}

impl Drop for OwnEvents {
    fn drop(self) {
        let OwnEvents { names } = self;
        drop(names);
    }
}

impl Model for OwnEvents {
    ghost use Rattle.std.specs.Arc.{arc_value};
    ghost use Rattle.client_settings.specs.Names.{Names, names_of};

    ghost Value = { Names };

    ghost view = { λ s. names_of (arc_value s.names) };
}

impl Debug for OwnEvents {
    fn fmt<W: Write>(&self, f: &mut Formatter<W>) -> fmt::Result {
        self.names.fmt(f)
    }
}

impl Clone for OwnEvents {
    ghost use Rattle.std.specs.Prelude.{◌≡◌};

    ghost is_clone = { λ s t. t ≡ s };

    fn clone(&self) -> Result<OwnEvents, AllocError> {
        let names = Arc::try_clone(&self.names)?;
        Ok(OwnEvents { names })
    }
}

// Whether the channel knows nothing of an event.
fn is_unknown(event: &str) -> bool
    ensures { result ≡ is_unknown_kind (kind_in event.now) }
{
    matches!(kind_of(event), EventKind::Topic(TopicEvent::Unknown))
}

// Whether an event is none of clients' own: a server alone sends it, or it shows a token, which nobody else may see.
fn is_reserved(event: &str) -> bool
    ensures { result ≡ is_reserved_event event.now }
{
    event.as_bytes().starts_with(b"phx_")
        || event == "presence_state"
        || event == "presence_diff"
        || event == "access_token"
}

// Whether a client may have an event as its own.
fn is_free(event: &str) -> bool
    ensures { result ≡ is_free_event event.now }
{
    is_unknown(event) && !is_reserved(event)
}

// Whether a name is that of an event, or of all.
fn names(name: &Text, event: &str) -> bool
    ensures { result ≡ names_event event.now name.now }
{
    name.as_str() == "*" || name.as_str() == event
}

// Whether one of these names is that of an event, or of all.
fn is_named(given: &[Text], event: &str) -> bool
    ensures { result ≡ is_named_in given.now event.now }
{
    for name in given {
        if names(name, event) {
            return true;
        }
    }
    false
}

impl OwnEvents {
    ghost use Rattle.std.specs.Prelude.{◌≡◌, IfOk};
    ghost use Rattle.client_settings.specs.Events.{is_named as is_named_in, is_own_by};
    ghost use Rattle.client_settings.specs.Names.{names_of};

    pub fn new(alloc: Global, names: EventNames) -> Result<OwnEvents, AllocError>
        ensures { IfOk result (λ events. events ≡ names_of names) }
    {
        let names = Arc::new(alloc, names)?;
        Ok(OwnEvents { names })
    }

    /// Whether an event is one's own.
    pub fn is_own(&self, event: &str) -> bool
        ensures { result ≡ is_own_by self.now event.now }
    {
        is_free(event)
            && (is_named(self.names.sent.as_slice(), event)
                || is_named(self.names.answered.as_slice(), event)
                || is_named(self.names.to_others.as_slice(), event))
    }

    /// Whether an event is answered.
    pub(crate) fn is_answered(&self, event: &str) -> bool
        ensures { result ≡ is_named_in self.now.answered event.now }
    {
        is_named(self.names.answered.as_slice(), event)
    }

    /// Whether an event doesn't go to who sent it.
    pub(crate) fn goes_to_others(&self, event: &str) -> bool
        ensures { result ≡ is_named_in self.now.to_others event.now }
    {
        is_named(self.names.to_others.as_slice(), event)
    }
}
