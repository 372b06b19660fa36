//! Where lines go.
use crate::lines::{LogFormat, Told, client_members, client_words, own_members, own_words};
use crate::quotas::Quotas;
use crate::reasons::{EACH_REASON, Level, Reason, Shown};
use crate::time::{shown_behind, time_words};
use std::alloc::{AllocError, Global};
use std::net::IpAddr;
use std::sync::{Mutex, Wait};
use std::time::{Clock, Duration, SystemTime, UNIX_EPOCH};

/// The address of a line that stands for several clients, and the time where the clock shows none.
const UNKNOWN: &str = "-";

/// Writes what befalls clients, on standard error: no more than `LINES_A_SECOND` lines for each reason in a second. What has
/// no line is counted, and a later one tells how often it was. The threads of the server share it.
pub struct Log {
    alloc: Global,
    shown: Shown,
    format: LogFormat,
    quotas: Mutex<Quotas>,
}

impl Drop for Log {
    fn drop(self) {
        let Log {
            alloc: _,
            shown: _,
            format: _,
            quotas,
        } = self;
        drop(quotas);
    }
}

// How long it is since 1970 began.
fn since_1970<R: Clock>(rt: &R) -> Duration {
    match SystemTime::now(rt) {
        Ok(now) => now.duration_since(UNIX_EPOCH).unwrap_or(Duration::ZERO),
        Err(_) => Duration::ZERO,
    }
}

// A time in words.
fn words_of(alloc: Global, since: Duration) -> Result<String, AllocError> {
    match shown_behind(since) {
        Some(shown) => time_words(alloc, shown),
        None => String::from_str(alloc, UNKNOWN),
    }
}

// A line of clients.
fn client_line(
    alloc: Global,
    format: LogFormat,
    since: Duration,
    reason: Reason,
    told: (&str, u64),
) -> Result<String, AllocError> {
    let time = words_of(alloc, since)?;
    let (address, count) = told;
    let told = Told {
        time: time.as_str(),
        level: reason.level().as_str(),
        deed: reason.deed().as_str(),
        label: reason.label(),
        words: reason.words(),
        address,
        count,
    };
    match format {
        LogFormat::Text => client_words(alloc, &told),
        LogFormat::Json => client_members(alloc, &told),
    }
}

// A line of the server's own.
fn own_line(
    alloc: Global,
    format: LogFormat,
    since: Duration,
    level: Level,
    words: &str,
) -> Result<String, AllocError> {
    let time = words_of(alloc, since)?;
    match format {
        LogFormat::Text => own_words(alloc, time.as_str(), level.as_str(), words),
        LogFormat::Json => own_members(alloc, time.as_str(), level.as_str(), words),
    }
}

/// Writes a line of the server's own, with its time and level. Where memory is wanting it is left out.
pub fn say_line<R: Clock + Eprint>(
    rt: &R,
    alloc: Global,
    format: LogFormat,
    level: Level,
    words: &str,
) {
    if let Ok(line) = own_line(alloc, format, since_1970(rt), level, words) {
        let _told = rt.eprint(line.as_str());
    }
}

impl Log {
    /// Nothing is written yet.
    pub fn new(alloc: Global, shown: Shown, format: LogFormat) -> Log {
        Log {
            alloc,
            shown,
            format,
            quotas: Mutex::new(Quotas::new()),
        }
    }

    // Writes a line of clients.
    fn write<R: Eprint>(&self, rt: &R, since: Duration, reason: Reason, told: (&str, u64)) {
        if let Ok(line) = client_line(self.alloc, self.format, since, reason, told) {
            let _told = rt.eprint(line.as_str());
        }
    }

    /// This befell a client of this address.
    pub fn tell<R: Wait + Clock + Eprint>(&self, rt: &R, reason: Reason, address: IpAddr) {
        if !self.shown.has(reason.deed()) {
            return;
        }
        let since = since_1970(rt);
        let mut quotas = self.quotas.lock(rt);
        let count = quotas.comes(reason, since.as_secs());
        drop(quotas);
        let Some(count) = count else {
            return;
        };
        if let Ok(address) = address.to_string(self.alloc) {
            self.write(rt, since, reason, (address.as_str(), count));
        }
    }

    // Tells how often this happened without a line, if a later second has come.
    fn catch_up_on<R: Wait + Eprint>(&self, rt: &R, since: Duration, reason: Reason) {
        let mut quotas = self.quotas.lock(rt);
        let count = quotas.catch_up(reason, since.as_secs());
        drop(quotas);
        if let Some(count) = count {
            self.write(rt, since, reason, (UNKNOWN, count));
        }
    }

    /// Tells how often what happened that has no line, once in each second in which it is called.
    pub fn catch_up<R: Wait + Clock + Eprint>(&self, rt: &R) {
        if self.shown == Shown::None {
            return;
        }
        let since = since_1970(rt);
        let mut quotas = self.quotas.lock(rt);
        let begins = quotas.begins(since.as_secs());
        drop(quotas);
        if !begins {
            return;
        }
        for reason in EACH_REASON {
            self.catch_up_on(rt, since, reason);
        }
    }

    /// Writes a line of the server's own. As a text it stands alone.
    pub fn say<R: Clock + Eprint>(&self, rt: &R, level: Level, words: &str) {
        match self.format {
            LogFormat::Text => {
                let _told = rt.eprintln(words);
            }
            LogFormat::Json => say_line(rt, self.alloc, self.format, level, words),
        }
    }
}
