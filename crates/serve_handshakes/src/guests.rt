//! The clients whose handshakes are not over.
ghost use Rattle.std.specs.Prelude.{◌≡◌, ◌≤◌, ◌+◌, ◌==◌, [], map, filter, vec_len, vec_capacity, OnOk, OnErr, IfOk};
ghost use Rattle.serve_handshakes.specs.declared.guests.TheConstants.{MAX_HANDSHAKES};
ghost use Rattle.serve_handshakes.specs.Guests.{Admits, Fits, Looks, LooksAll, LooksInto, Turns, is_under_way, marked, readied};

use crate::front::{Front, Keeper, Tells};
use crate::greeting::{Greeted, Greeting};
use crate::party::Party;
use crate::seating::Admission;
use serve_sockets::WebSocket;
use std::alloc::{AllocError, Global};
use std::io::{Read, Write};
use std::net::IpAddr;
use tungstenite::{NoMask, WebSocketConfig};

/// How many handshakes may be under way.
pub const MAX_HANDSHAKES: usize = 1_024;

/// A client under a number, by which its stream is known where it is ready.
pub struct Guest<S: Read + Write + Drop> {
    number: u64,
    /// Whether it is looked at in the next turn.
    ready: bool,
    /// None where its handshake is over.
    greeting: Option<Greeting<S>>,
}

impl<S: Read + Write + Drop> Drop for Guest<S> {
    fn drop(self) {
        let Guest {
            number: _,
            ready: _,
            greeting,
        } = self;
        drop(greeting);
    }
}

/// A client that has come: its number, its stream, whose address that is, and how it stands, or none where that is a proxy
/// which tells of it, and the keeper is asked.
pub struct Newcomer<S: Drop> {
    pub number: u64,
    pub stream: S,
    pub address: IpAddr,
    pub standing: Option<Admission>,
}

impl<S: Drop> Drop for Newcomer<S> {
    fn drop(self) {
        let Newcomer {
            number: _,
            stream,
            address: _,
            standing: _,
        } = self;
        drop(stream);
    }
}

impl<S: Read + Write + Drop> Newcomer<S> {
    // Its number, and its handshake, which begins.
    fn greeted(self, alloc: Global, config: WebSocketConfig) -> (u64, Greeting<S>)
        ensures number { result.0 ≡ self.number }
        ensures reads { result.1.party.empty_reads ≡ 0 }
        ensures config { result.1.party.config ≡ config }
    {
        let Newcomer {
            number,
            stream,
            address,
            standing,
        } = self;
        let party = Party {
            stream,
            address,
            standing,
            is_introduced: false,
            config,
            empty_reads: 0,
        };
        (number, Greeting::new(alloc, party))
    }
}

/// A socket whose handshake is done, under the number of its client.
pub type Opened<S> = (u64, WebSocket<S, NoMask>);

/// Clients in the order in which they came.
pub struct Guests<S: Read + Write + Drop> {
    guests: Vec<Guest<S>>,
}

impl<S: Read + Write + Drop> Drop for Guests<S> {
    fn drop(self) {
        let Guests { guests } = self;
        drop(guests);
    }
}

impl<S: Read + Write + Drop> Guest<S> {
    // Whether it is being told that a WebSocket follows.
    fn is_promised(&self) -> bool {
        match &self.greeting {
            Some(greeting) => greeting.is_promised(),
            None => false,
        }
    }

    // Lets it be looked at in the next turn, if this is its number.
    fn mark(&mut self, number: u64)
        ensures { self.new ≡ marked number self.old }
    {
        self.ready = self.ready || self.number == number;
    }

    // Goes on with the handshake, if the client is ready: the socket, if it is done.
    fn look<T: Tells, K: Keeper<S>>(
        &mut self,
        alloc: Global,
        front: &mut Front<'_, T, K>,
    ) -> Option<WebSocket<S, NoMask>>
        ensures { Looks self.old self.new result }
    {
        if !self.ready {
            return None;
        }
        self.ready = false;
        match self.greeting.take()?.go_on(alloc, front) {
            Greeted::Open(socket) => Some(socket),
            Greeted::Waits(greeting) => {
                self.greeting = Some(greeting);
                None
            }
            Greeted::GivenUp(cause, address) => {
                front.tells.gave_up(cause, &address);
                None
            }
        }
    }

    // Goes on with the handshake, and puts its socket behind the others, if it is done.
    fn look_into<T: Tells, K: Keeper<S>>(
        &mut self,
        alloc: Global,
        front: &mut Front<'_, T, K>,
        opened: &mut Vec<Opened<S>>,
    ) -> Result<(), AllocError>
        ensures looked { OnOk result (LooksInto self.old self.new opened.old.items opened.new.items) }
        ensures one { vec_len opened.new ≤ vec_len opened.old + 1 }
        ensures capacity { vec_capacity opened.old ≤ vec_capacity opened.new }
        ensures full { OnErr result (vec_capacity opened.old ≤ vec_len opened.old) }
    {
        let number = self.number;
        if let Some(socket) = self.look(alloc, front) {
            opened.push((number, socket))?;
        }
        Ok(())
    }
}

impl<S: Read + Write + Drop> Guests<S> {
    /// No client has come.
    pub fn new(alloc: Global) -> Guests<S>
        ensures { result.guests.items ≡ [] }
    {
        Guests {
            guests: Vec::new(alloc),
        }
    }

    /// How many handshakes are not over.
    pub fn len(&self) -> usize
        ensures { result ≡ vec_len self.now.guests }
    {
        self.guests.len()
    }

    /// Whether all are over.
    pub fn is_empty(&self) -> bool
        ensures { result ≡ (vec_len self.now.guests == 0) }
    {
        self.guests.is_empty()
    }

    // The client that came first gives way to one too many: whether it does.
    fn fit(&mut self) -> bool
        ensures { Fits self.old.guests.items result self.new.guests.items }
    {
        if self.guests.len() <= MAX_HANDSHAKES {
            return false;
        }
        let oldest = self.guests.remove(0);
        drop(oldest);
        true
    }

    /// Begins a handshake, which the next turn looks at. Each client has a number of its own. Where as many handshakes as
    /// may be are under way the oldest gives way: whether it did.
    pub fn admit(
        &mut self,
        alloc: Global,
        newcomer: Newcomer<S>,
        config: WebSocketConfig,
    ) -> Result<bool, AllocError>
        ensures admitted { IfOk result (λ gave_way.
            Admits newcomer.number config self.old.guests.items gave_way self.new.guests.items) }
        ensures no_room { OnErr result (self.new.guests.items ≡ self.old.guests.items) }
    {
        let (number, greeting) = newcomer.greeted(alloc, config);
        self.guests.push(Guest {
            number,
            ready: true,
            greeting: Some(greeting),
        })?;
        Ok(self.fit())
    }

    /// How many clients are being told that a WebSocket follows.
    pub fn promised(&self) -> u64 {
        let mut promised = 0u64;
        for guest in self.guests.iter() {
            promised = promised.saturating_add(u64::from(guest.is_promised()));
        }
        promised
    }

    /// Bytes may have come for the client of this number: it is looked at in the next turn.
    pub fn mark(&mut self, number: u64)
        ensures { self.new.guests.items ≡ map (marked number) self.old.guests.items }
    {
        for guest in self.guests.iter_mut() {
            guest.mark(number);
        }
    }

    /// Each is looked at in the next turn.
    pub fn mark_all(&mut self)
        ensures { self.new.guests.items ≡ map readied self.old.guests.items }
    {
        for guest in self.guests.iter_mut() {
            guest.ready = true;
        }
    }

    // Goes on with each handshake that is ready: the sockets of those that are done.
    fn look_at_all<T: Tells, K: Keeper<S>>(
        &mut self,
        alloc: Global,
        front: &mut Front<'_, T, K>,
    ) -> Result<Vec<Opened<S>>, AllocError>
        ensures looked { IfOk result (λ opened. LooksAll self.old.guests.items self.new.guests.items opened.items) }
        ensures no_room { OnErr result (self.new ≡ self.old) }
    {
        let mut opened = Vec::with_capacity(alloc, self.guests.len())?;
        for guest in self.guests.iter_mut() {
            guest.look_into(alloc, front, &mut opened)?;
        }
        Ok(opened)
    }

    // Those whose handshakes are over go.
    fn give_up(&mut self)
        ensures { self.new.guests.items ≡ filter is_under_way self.old.guests.items }
    {
        self.guests.retain(|guest| guest.greeting.is_some());
    }

    /// Goes on with each handshake that is ready: the sockets of those that are done, in the order of their clients.
    /// Clients whose handshakes are over go, and so do those whose requests were answered otherwise, from `front`, as all are
    /// who ask for a WebSocket where none of its places is left. Where memory for all that may be done is wanting, nothing is
    /// done.
    pub fn turn<T: Tells, K: Keeper<S>>(
        &mut self,
        alloc: Global,
        front: &mut Front<'_, T, K>,
    ) -> Result<Vec<Opened<S>>, AllocError>
        ensures turned { IfOk result (λ opened. Turns self.old.guests.items self.new.guests.items opened.items) }
        ensures no_room { OnErr result (self.new.guests.items ≡ self.old.guests.items) }
    {
        let opened = self.look_at_all(alloc, front)?;
        self.give_up();
        Ok(opened)
    }
}
