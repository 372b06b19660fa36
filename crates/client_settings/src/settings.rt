//! What clients may do beyond the usual.
ghost use Rattle.std.specs.Prelude.{◌≡◌, IfOk};
ghost use Rattle.client_settings.specs.Meaning.{looks};

use crate::events::OwnEvents;
use number_texts::Numbers;
use std::alloc::AllocError;

/// What a server's clients may do beyond the usual. By default they may nothing of it.
#[derive(Debug, Drop)]
pub struct Settings {
    /// Which numbers their messages may have.
    pub numbers: Numbers,
    /// Whether a message to a topic counts only under the reference of the topic's present join.
    pub match_joins: bool,
    /// Which events of their own they may send.
    pub events: Option<OwnEvents>,
}

impl Settings {
    /// The same for one more. It costs no copy.
    pub fn share(&self) -> Result<Settings, AllocError>
        ensures { IfOk result (λ given. given ≡ self.now) }
    {
        let events = self.events.clone()?;
        Ok(Settings {
            numbers: self.numbers,
            match_joins: self.match_joins,
            events,
        })
    }

    /// Whether a client's messages are looked at before its session reads them.
    pub(crate) fn looks(&self) -> bool
        ensures { result ≡ looks self.now }
    {
        self.match_joins || self.events.is_some()
    }
}
