//! A port that notes what it was asked, and refuses one of its calls.
use crate::counted::{counted_told, rows_told};
use link_lines::{Hearer, Line, decode_line};
use node_links::{ActFault, LinkPort};
use orswot_core::{Form, RawRow, RawTold, Told};
use presence_base::{Dot, Meta, NodeName, Replica};
use replica_status::Status;
use serde_json::Value;
use std::alloc::{AllocError, Global};

#[derive(Clone, Copy, PartialEq, Eq, Debug)]
pub(super) enum Call {
    Status(u32, Replica),
    Heard(u32, Replica, u64),
    Merge(u32, usize),
    PermDown(u32, Replica),
    Top(u32, Replica),
    ToldFrom(u32, u64),
    Full(u32),
}

// What is told: the range of both counts of b.1, what is too long for a line, a row and extras, so many in
// all, or so many rows.
#[derive(Clone, Copy, PartialEq, Eq, Debug)]
pub(super) enum Much {
    Little,
    Long,
    Counted(u64),
    Rows(u64),
}

// Each replica has this status and this top, and so much is told from a count and in all. The call of number `refused`,
// from 0, is refused.
pub(super) struct TestPort {
    pub shards: u32,
    pub status: Status,
    pub top: u64,
    pub from: Much,
    pub all: Much,
    pub calls: Vec<Call>,
    pub refused: usize,
    pub fault: ActFault,
}

impl Drop for TestPort {
    fn drop(self) {
        let TestPort {
            shards: _,
            status: _,
            top: _,
            from: _,
            all: _,
            calls,
            refused: _,
            fault: _,
        } = self;
        drop(calls);
    }
}

impl TestPort {
    // The call of this number is refused so.
    pub fn refuse(&mut self, refused: usize, fault: ActFault) {
        self.refused = refused;
        self.fault = fault;
    }

    // Each replica has this status.
    pub fn set_status(&mut self, status: Status) {
        self.status = status;
    }

    // So much is told from a count and in all.
    pub fn tells(&mut self, from: Much, all: Much) {
        self.from = from;
        self.all = all;
    }

    // Notes the call, unless it is the one that is refused.
    fn note(&mut self, call: Call) -> Result<(), ActFault> {
        if self.calls.len() == self.refused {
            return Err(self.fault);
        }
        match self.calls.push(call) {
            Ok(()) => Ok(()),
            Err(_) => Err(ActFault::OutOfMemory),
        }
    }
}

// A row whose meta is as long as one may be.
fn long_row(alloc: Global, replica: &Replica, count: u64, meta: &str) -> Option<(Dot, RawRow)> {
    let Ok(topic) = String::from_str(alloc, "room:a") else {
        return None;
    };
    let Ok(key) = String::from_str(alloc, "u2") else {
        return None;
    };
    let Ok(meta) = Value::from_str(alloc, meta) else {
        return None;
    };
    let Ok(meta) = Meta::new(alloc, meta) else {
        return None;
    };
    let row = RawRow {
        topic,
        key,
        pid: 5,
        meta,
        prev: None,
    };
    let dot = Dot {
        replica: *replica,
        count,
    };
    Some((dot, row))
}

// The text of a meta of 16,384 bytes.
fn long_meta(alloc: Global) -> Result<String, AllocError> {
    let mut meta = String::from_str(alloc, "{\"x\":\"")?;
    for _ in 0..16_376 {
        meta.push('a')?;
    }
    meta.push_str("\"}")?;
    Ok(meta)
}

fn long_rows(alloc: Global, replica: &Replica, meta: &str) -> Option<Vec<(Dot, RawRow)>> {
    let mut rows = Vec::new(alloc);
    for count in 1..258u64 {
        let row = long_row(alloc, replica, count, meta)?;
        if rows.push(row).is_err() {
            return None;
        }
    }
    Some(rows)
}

fn long_raw(alloc: Global, replica: &Replica) -> Option<RawTold> {
    let Ok(meta) = long_meta(alloc) else {
        return None;
    };
    let live = long_rows(alloc, replica, meta.as_str())?;
    let mut ranges = Vec::new(alloc);
    if ranges.push((*replica, 0, 257)).is_err() {
        return None;
    }
    Some(RawTold {
        form: Form::One,
        ranges,
        extras: Vec::new(alloc),
        live,
    })
}

// A told value whose line is too long: 257 rows of `b.1` with such metas.
pub(super) fn long_told(alloc: Global) -> Result<Told, ActFault> {
    let Ok(Some(name)) = NodeName::new(alloc, "b") else {
        return Err(ActFault::OutOfMemory);
    };
    let replica = Replica {
        name,
        incarnation: 1,
    };
    let Some(raw) = long_raw(alloc, &replica) else {
        return Err(ActFault::OutOfMemory);
    };
    match Told::check(alloc, raw, 0, 2) {
        Ok(told) => Ok(told),
        Err(_) => Err(ActFault::OutOfMemory),
    }
}

fn made(told: Result<Told, AllocError>) -> Result<Told, ActFault> {
    match told {
        Ok(told) => Ok(told),
        Err(_) => Err(ActFault::OutOfMemory),
    }
}

fn told(alloc: Global, shards: u32, much: Much, form: Form) -> Result<Told, ActFault> {
    match much {
        Much::Little => little_told(alloc, shards),
        Much::Long => long_told(alloc),
        Much::Counted(things) => made(counted_told(alloc, things, form)),
        Much::Rows(rows) => made(rows_told(alloc, rows, form)),
    }
}

fn little_told(alloc: Global, shards: u32) -> Result<Told, ActFault> {
    if shards == 0 {
        return Err(ActFault::ShardFull);
    }
    let hearer = Hearer {
        shards,
        form: Some(Form::One),
    };
    match decode_line(alloc, r#"["told",0,[[["b",1,0,2]],[],[]]]"#, hearer) {
        Ok(Line::Told { told, .. }) => Ok(told.told),
        _ => Err(ActFault::OutOfMemory),
    }
}

impl LinkPort for TestPort {
    ghost step = { λ old q a new. Unit {0} };

    ghost shard_count = { λ p. p.shards };

    fn shards(&self) -> u32 {
        self.shards
    }

    fn status(&mut self, alloc: Global, shard: u32, replica: &Replica) -> Result<Status, ActFault> {
        self.note(Call::Status(shard, *replica))?;
        Ok(self.status)
    }

    fn heard(
        &mut self,
        alloc: Global,
        shard: u32,
        replica: Replica,
        now: u64,
    ) -> Result<(), ActFault> {
        self.note(Call::Heard(shard, replica, now))
    }

    fn merge(&mut self, alloc: Global, shard: u32, told: Told) -> Result<(), ActFault> {
        self.note(Call::Merge(shard, told.live().len()))
    }

    fn permdown(&mut self, alloc: Global, shard: u32, replica: Replica) -> Result<(), ActFault> {
        self.note(Call::PermDown(shard, replica))
    }

    fn top(&mut self, alloc: Global, shard: u32, replica: &Replica) -> Result<u64, ActFault> {
        self.note(Call::Top(shard, *replica))?;
        Ok(self.top)
    }

    fn told_from(
        &mut self,
        alloc: Global,
        shard: u32,
        from: u64,
        form: Form,
    ) -> Result<Option<Told>, ActFault> {
        self.note(Call::ToldFrom(shard, from))?;
        Ok(Some(told(alloc, self.shards, self.from, form)?))
    }

    fn full(&mut self, alloc: Global, shard: u32, form: Form) -> Result<Option<Told>, ActFault> {
        self.note(Call::Full(shard))?;
        Ok(Some(told(alloc, self.shards, self.all, form)?))
    }
}
