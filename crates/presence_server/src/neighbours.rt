//! The clients of each address: how many there are, and how often they come.
use serve_handshakes::{Admission, Pace, counted_by, is_near};
use serve_sockets::{Ticket, TicketCount};
use std::alloc::{AllocError, Global};
use std::mem;
use std::net::IpAddr;

/// How many handshakes a second clients of one address have beyond a burst, where nothing else is asked for.
const HANDSHAKES_PER_SECOND: u64 = 20;

/// How many microseconds a second has.
const SECOND: u64 = 1_000_000;

/// How many microseconds a millisecond has.
const MILLISECOND: u64 = 1_000;

/// One address may have this part of the places, where nothing else is asked for.
const SHARE: u64 = 2;

/// How many clients of one address are let in.
#[derive(Clone, Copy, PartialEq, Eq, Debug)]
pub struct AddressLimits {
    /// How many at once: what was asked for, if anything was.
    pub at_once: Option<u64>,
    /// How many a second, beyond a burst: what was asked for, if anything was.
    pub per_second: Option<u64>,
}

// The clients of an address, or of a network of IPv6.
#[derive(Drop)]
struct Neighbourhood {
    /// What they are counted by.
    address: IpAddr,
    here: TicketCount,
    pace: Pace,
}

/// The addresses that have clients.
#[derive(Drop)]
pub(crate) struct Neighbours {
    all: Vec<Neighbourhood>,
    limits: AddressLimits,
    /// How many places there are for all clients.
    places: u64,
}

impl Neighbourhood {
    // How a further client stands, where so many may be here.
    fn standing(&mut self, most: u64, now: u64) -> Admission {
        if self.here.count() >= most {
            return Admission::OneTooMany;
        }
        if self.pace.comes(now.saturating_mul(MILLISECOND)) {
            Admission::Welcome
        } else {
            Admission::TooSoon
        }
    }
}

impl Neighbours {
    /// There is none.
    pub(crate) fn new(alloc: Global, limits: AddressLimits, places: u64) -> Neighbours {
        Neighbours {
            all: Vec::new(alloc),
            limits,
            places,
        }
    }

    /// All of them, until they are given back. What stays knows nobody.
    pub(crate) fn lend(&mut self, alloc: Global) -> Neighbours {
        let nobody = Neighbours {
            all: Vec::new(alloc),
            limits: self.limits,
            places: self.places,
        };
        mem::replace(self, nobody)
    }

    // How many clients of an address may be here.
    fn most_at(&self, address: &IpAddr) -> u64 {
        match self.limits.at_once {
            Some(most) => most,
            None if is_near(address) => u64::MAX,
            None => self.places / SHARE,
        }
    }

    // How many microseconds lie between two handshakes of an address.
    fn between_at(&self, address: &IpAddr) -> u64 {
        match self.limits.per_second {
            Some(per_second) => SECOND / per_second.max(1),
            None if is_near(address) => 0,
            None => SECOND / HANDSHAKES_PER_SECOND,
        }
    }

    // The place among them of those that are counted by this, if they are there.
    fn found(&self, address: &IpAddr) -> Option<usize> {
        for (place, neighbourhood) in self.all.iter().enumerate() {
            if neighbourhood.address == *address {
                return Some(place);
            }
        }
        None
    }

    // The place among them of the clients of an address.
    fn place_of(&mut self, alloc: Global, address: &IpAddr) -> Result<usize, AllocError> {
        let by = counted_by(address);
        if let Some(place) = self.found(&by) {
            return Ok(place);
        }
        let place = self.all.len();
        let pace = Pace::new(self.between_at(address));
        let here = TicketCount::new(alloc)?;
        self.all.push(Neighbourhood {
            address: by,
            here,
            pace,
        })?;
        Ok(place)
    }

    /// A client of this address comes at this time, in milliseconds: how it stands, and what it is counted by.
    pub(crate) fn comes(
        &mut self,
        alloc: Global,
        address: &IpAddr,
        now: u64,
    ) -> Result<(Admission, Ticket), AllocError> {
        let most = self.most_at(address);
        let place = self.place_of(alloc, address)?;
        match self.all.get_mut(place) {
            Some(neighbourhood) => {
                let standing = neighbourhood.standing(most, now);
                Ok((standing, neighbourhood.here.ticket()?))
            }
            None => Err(AllocError),
        }
    }

    /// Addresses are forgotten that have no client, and had none for a while.
    pub(crate) fn forget(&mut self, now: u64) {
        let now = now.saturating_mul(MILLISECOND);
        self.all
            .retain(|one| one.here.count() > 0 || !one.pace.is_at_rest(now));
    }
}
