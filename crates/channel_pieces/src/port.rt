//! The port that gives a long state in pieces.
ghost use Rattle.std.specs.Prelude.{◌≡◌, ◌≤◌, ◌^◌, None, Some, is_some, MatchResult};
ghost use Rattle.channel_rules.specs.Seen.{seen_by};
ghost use Rattle.channel_rules.specs.Asks.{list as lists, get as gets};
ghost use Rattle.channel_pieces.specs.Piecewise.{lone, GivesOn, Lists, Piecewise, Takes, TellsOr};

use crate::piece::{MAX_LISTED_BYTES, is_text_within, text_within};
use crate::telling::Telling;
use channel_rules::{
    Call, Get, List, Port, Question, Refusal, Take, Told, Unsubscribe, Waits, told_to,
};
use presence_base::{Dot, Row, Topic};
use presence_journal::{Item, SharedRows};
use std::alloc::Global;
use tracker_shard::ShardFault;

/// A port whose calls are those of the port inside, but that a long state that comes alone is given in pieces, one for each
/// take. Until all of it is given, nothing else is said to wait. A list or a get of too many rows for a reply is refused
/// as what is more than the caller may have.
#[derive(Drop)]
pub struct PiecewisePort<'a, P> {
    port: &'a mut P,
    telling: &'a mut Telling,
}

// Whether the items are a state alone.
fn is_state(items: &[Item]) -> bool
    ensures { result ≡ is_some (lone items.now) }
{
    matches!(items, [Item::State(_)])
}

// The state that comes alone, or else all items.
fn state_alone(items: Vec<Item>) -> Result<SharedRows, Vec<Item>>
    ensures { MatchResult result (λ rows. lone items.items ≡ Some rows)
        (λ others. (lone items.items ≡ None) × (others ≡ items)) }
{
    if !is_state(items.as_slice()) {
        return Err(items);
    }
    let mut items = items;
    match items.pop() {
        Some(Item::State(rows)) => Ok(rows),
        _ => unreachable!(),
    }
}

// Rows that a reply lists, or their refusal where they are too many for one.
fn listed(alloc: Global, rows: &SharedRows) -> Result<SharedRows, Refusal>
    ensures { Lists rows.now result }
{
    match text_within(alloc, rows, MAX_LISTED_BYTES) {
        Ok(Some(state)) => Ok(state),
        Ok(None) => Err(Refusal::OverRation),
        Err(_) => Err(Refusal::Table(ShardFault::OutOfMemory)),
    }
}

// The same of the rows under a key.
fn got(alloc: Global, rows: Vec<(Dot, Row)>) -> Result<Vec<(Dot, Row)>, Refusal>
    ensures { Lists rows.items (seen_by (λ v. v.items) result) }
{
    match is_text_within(alloc, rows.as_slice(), MAX_LISTED_BYTES) {
        Ok(true) => Ok(rows),
        Ok(false) => Err(Refusal::OverRation),
        Err(_) => Err(Refusal::Table(ShardFault::OutOfMemory)),
    }
}

impl<'a, P: Port> PiecewisePort<'a, P> {
    /// The port round this one, which goes on with what is untold.
    pub fn new(port: &'a mut P, telling: &'a mut Telling) -> PiecewisePort<'a, P>
        ensures same_port { result.port.ghost_name ≡ port.entry.ghost_name }
        ensures same_telling { result.telling.ghost_name ≡ telling.entry.ghost_name }
        ensures port { result.port.now ≡ port.old }
        ensures telling { result.telling.now ≡ telling.old }
    {
        PiecewisePort { port, telling }
    }

    // What comes next of the state that is being told.
    fn tell(&mut self, alloc: Global) -> Result<Vec<Item>, Refusal>
        ensures same_port { self.new.port ≡ self.old.port }
        ensures same_telling { self.new.telling.ghost_name ≡ self.old.telling.ghost_name }
        ensures told { TellsOr self.old.telling.now.untold (seen_by (λ v. v.items) result) self.new.telling.now.untold }
    {
        match self.telling.next(alloc) {
            Ok(items) => Ok(items),
            Err(_) => Err(Refusal::Table(ShardFault::OutOfMemory)),
        }
    }

    // Gives on what the port inside gave, or the first piece of it.
    fn give_on(
        &mut self,
        alloc: Global,
        topic: Topic,
        number: u64,
        items: Vec<Item>,
    ) -> Result<Vec<Item>, Refusal>
        requires { self.old.telling.now.untold ≡ None }
        ensures same_port { self.new.port ≡ self.old.port }
        ensures same_telling { self.new.telling.ghost_name ≡ self.old.telling.ghost_name }
        ensures given { GivesOn topic number items.items (seen_by (λ v. v.items) result) self.new.telling.now.untold }
    {
        match state_alone(items) {
            Ok(rows) => {
                self.telling.begin(topic, number, rows);
                self.tell(alloc)
            }
            Err(others) => Ok(others),
        }
    }

    // Takes of the port inside, or gives what comes next of the state that is being told.
    fn take(&mut self, alloc: Global, pid: u64, take: &Take<'_>) -> Result<Vec<Item>, Refusal>
        requires { pid ≤ 2 ^ 62 }
        ensures same_port { self.new.port.ghost_name ≡ self.old.port.ghost_name }
        ensures same_telling { self.new.telling.ghost_name ≡ self.old.telling.ghost_name }
        ensures taken { Takes (P.step pid) self.old.telling.now.untold take.now.topic.now take.now.sub take.now.max
            self.old.port.now (seen_by (λ v. v.items) result) self.new.port.now self.new.telling.now.untold }
    {
        let Take { topic, sub, .. } = *take;
        if self.telling.is_to(topic, sub.number) {
            return self.tell(alloc);
        }
        if self.telling.is_under_way() {
            return Ok(Vec::new(alloc));
        }
        let Ok(name) = topic.clone() else {
            return Err(Refusal::Table(ShardFault::OutOfMemory));
        };
        match self.port.call(alloc, pid, take) {
            Ok(items) => self.give_on(alloc, name, sub.number, items),
            Err(refusal) => Err(refusal),
        }
    }

    // Lists by the port inside, unless there are too many rows for a reply.
    fn list(&mut self, alloc: Global, pid: u64, list: &List<'_>) -> Result<SharedRows, Refusal>
        requires { pid ≤ 2 ^ 62 }
        ensures same_port { self.new.port.ghost_name ≡ self.old.port.ghost_name }
        ensures same_telling { self.new.telling ≡ self.old.telling }
        ensures listed { Piecewise (P.step pid) (self.old.port.now, self.old.telling.now.untold) (lists list.now.topic.now)
            result (self.new.port.now, self.new.telling.now.untold) }
    {
        match self.port.call(alloc, pid, list) {
            Ok(rows) => listed(alloc, &rows),
            Err(refusal) => Err(refusal),
        }
    }

    // Gets by the port inside, unless there are too many rows for a reply.
    fn get(&mut self, alloc: Global, pid: u64, get: &Get<'_>) -> Result<Vec<(Dot, Row)>, Refusal>
        requires { pid ≤ 2 ^ 62 }
        ensures same_port { self.new.port.ghost_name ≡ self.old.port.ghost_name }
        ensures same_telling { self.new.telling ≡ self.old.telling }
        ensures got { Piecewise (P.step pid) (self.old.port.now, self.old.telling.now.untold)
            (gets get.now.topic.now get.now.key.now) (seen_by (λ v. v.items) result)
            (self.new.port.now, self.new.telling.now.untold) }
    {
        match self.port.call(alloc, pid, get) {
            Ok(rows) => got(alloc, rows),
            Err(refusal) => Err(refusal),
        }
    }
}

impl<P: Port> Port for PiecewisePort<'_, P> {
    ghost step = { λ pid old q a new. (new.port.ghost_name ≡ old.port.ghost_name)
        × (new.telling.ghost_name ≡ old.telling.ghost_name)
        × Piecewise (P.step pid) (old.port.now, old.telling.now.untold) q a (new.port.now, new.telling.now.untold) };

    fn call<C: Call>(&mut self, alloc: Global, pid: u64, call: &C) -> Result<C::Answer, Refusal> {
        match call.question() {
            Question::List(list) => match self.list(alloc, pid, &list) {
                Ok(rows) => Ok(told_to(call, Told::Rows(rows))),
                Err(refusal) => Err(refusal),
            },
            Question::Get(get) => match self.get(alloc, pid, &get) {
                Ok(rows) => Ok(told_to(call, Told::Got(rows))),
                Err(refusal) => Err(refusal),
            },
            Question::Take(take) => match self.take(alloc, pid, &take) {
                Ok(items) => Ok(told_to(call, Told::Items(items))),
                Err(refusal) => Err(refusal),
            },
            Question::Waits(Waits { topic, sub }) => {
                if self.telling.is_under_way() {
                    let waits = self.telling.is_to(topic, sub.number);
                    return Ok(told_to(call, Told::Waits(waits)));
                }
                self.port.call(alloc, pid, call)
            }
            Question::Unsubscribe(Unsubscribe { topic, sub }) => {
                match self.port.call(alloc, pid, call) {
                    Ok(given) => {
                        self.telling.forget(topic, sub.number);
                        Ok(given)
                    }
                    Err(refusal) => Err(refusal),
                }
            }
            _ => self.port.call(alloc, pid, call),
        }
    }
}
