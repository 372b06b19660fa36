//! Who is at the other end of a handshake.
ghost use Rattle.std.specs.Prelude.{◌≡◌, ◌<◌};
ghost use Rattle.serve_handshakes.specs.declared.party.TheConstants.{MAX_EMPTY_READS};

use crate::client::{client_of, is_proxy};
use crate::front::{Front, Keeper, Tells};
use crate::introduction::{Introduced, introduction_of};
use crate::seating::Admission;
use std::alloc::{AllocError, Global};
use std::io::{Read, Write};
use std::net::IpAddr;
use tungstenite::WebSocketConfig;

/// After so many looks that end with nothing more to read a handshake is given up.
pub const MAX_EMPTY_READS: u32 = 200;

/// Who is at the other end of a handshake, and how the handshake is done.
pub struct Party<S: Read + Write + Drop> {
    pub stream: S,
    /// Of the client, as far as it is known.
    pub address: IpAddr,
    /// How the client stands; none where its keeper has to be asked.
    pub standing: Option<Admission>,
    /// Whether the line is past that a proxy may write before all else.
    pub is_introduced: bool,
    pub config: WebSocketConfig,
    pub empty_reads: u32,
    ghost patient: { empty_reads < MAX_EMPTY_READS },
}

impl<S: Read + Write + Drop> Drop for Party<S> {
    fn drop(self) {
        let Party {
            stream,
            address: _,
            standing: _,
            is_introduced: _,
            config,
            empty_reads: _,
        } = self;
        drop(stream);
        drop(config);
    }
}

impl<S: Read + Write + Drop> Party<S> {
    ghost use Rattle.std.specs.Prelude.{◌≡◌};
    ghost use Rattle.serve_handshakes.specs.Clients.{IsClientOf};
    ghost use Rattle.serve_handshakes.specs.Greeting.{IsKnownFrom};

    /// Its stream, and how what follows is done.
    pub(crate) fn into_parts(self) -> (S, WebSocketConfig)
        ensures { result.1 ≡ self.config }
    {
        let Party {
            stream,
            address: _,
            standing: _,
            is_introduced: _,
            config,
            empty_reads: _,
        } = self;
        (stream, config)
    }

    /// Whose address it is that sends this head, as far as these proxies tell.
    pub(crate) fn find_client(&mut self, head: &[u8], proxies: &[IpAddr])
        ensures config { self.new.config ≡ self.old.config }
        ensures reads { self.new.empty_reads ≡ self.old.empty_reads }
        ensures client { IsClientOf proxies.now head.now self.old.address self.new.address }
    {
        self.address = client_of(head, self.address, proxies);
    }

    /// How the client stands.
    pub(crate) fn stands<T: Tells, K: Keeper<S>>(
        &mut self,
        alloc: Global,
        front: &mut Front<'_, T, K>,
    ) -> Admission
        ensures config { self.new.config ≡ self.old.config }
        ensures reads { self.new.empty_reads ≡ self.old.empty_reads }
        ensures address { self.new.address ≡ self.old.address }
        ensures proxies { front.new.proxies ≡ front.old.proxies }
        ensures places { front.new.places ≡ front.old.places }
        ensures signing { front.new.signing ≡ front.old.signing }
    {
        if let Some(standing) = self.standing {
            return standing;
        }
        let standing = front
            .keeper
            .standing_of(alloc, &mut self.stream, self.address);
        self.standing = Some(standing);
        standing
    }

    /// Takes the line from the front of these bytes that one of these proxies may write before all else: whether they are a
    /// request's.
    pub(crate) fn introduce(
        &mut self,
        alloc: Global,
        bytes: &mut Vec<u8>,
        proxies: &[IpAddr],
    ) -> Result<bool, AllocError>
        ensures config { self.new.config ≡ self.old.config }
        ensures reads { self.new.empty_reads ≡ self.old.empty_reads }
        ensures address { IsKnownFrom proxies.now self.old.address self.new.address }
    {
        if self.is_introduced || !is_proxy(proxies, &self.address) {
            return Ok(true);
        }
        match introduction_of(bytes.as_slice()) {
            Introduced::Partial => return Ok(false),
            Introduced::Nothing => {}
            Introduced::Line(end, told) => {
                let mut rest = Vec::new(alloc);
                rest.extend_from_slice(&bytes[end..])?;
                *bytes = rest;
                self.address = told.unwrap_or(self.address);
            }
        }
        self.is_introduced = true;
        Ok(true)
    }
}
