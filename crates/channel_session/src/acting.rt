//! Session events, matched once.
ghost use Rattle.std.specs.Prelude.{◌≡◌, ◌≤◌, ◌^◌, ◌-◌, length, None, Some, IsTrue, IfOk, OnErr, option_map};
ghost use Rattle.presence_journal.specs.Limits.{is_payload};
ghost use Rattle.channel_rules.specs.InForce.{joined_of};
ghost use Rattle.channel_rules.specs.Replies.{Acts, ActsBy};
ghost use Rattle.channel_session.specs.Wording.{worded_by};
ghost use Rattle.channel_rules.specs.InForce.{find};
ghost use Rattle.channel_rules.specs.Rules.{join_at, join_rule, leave_rule, topic_rule, kind_rule, kind_of as kind_in, is_phoenix as is_phoenix_of, route_of, rules};

use crate::asking::{Caller, Incoming};
use crate::channels::Channels;
use crate::dispatch::{heartbeat, topic_event, unmatched};
use crate::joins::{join, join_ref_for, leave, leave_nothing, rejoin};
use crate::session::Session;
use channel_rules::{EventKind, Join, Port, Reply, Stop, TopicEvent, is_phoenix, kind_of};
use hook_registry::{PresenceHooks, Routes};
use phx_message::Message;
use std::alloc::{AllocError, Global};

// What the rules look at first: whether the topic is that of heartbeats, its kind where it can be
// joined, and the event.
#[derive(Clone, Copy)]
struct Case {
    phoenix: bool,
    route: Option<u32>,
    event: EventKind,
}

fn case_of(routes: &Routes, message: &Message) -> Case
    ensures phoenix { result.phoenix ≡ is_phoenix_of message.now.topic }
    ensures route { result.route ≡ route_of (is_phoenix_of message.now.topic) routes.now message.now.topic }
    ensures event { result.event ≡ kind_in message.now.event }
{
    let phoenix = is_phoenix(&message.topic);
    let route = if phoenix {
        None
    } else {
        routes.find(&message.topic)
    };
    let event = kind_of(message.event.as_str());
    Case {
        phoenix,
        route,
        event,
    }
}

impl Session {
    // The present join of the message's topic.
    fn present_join(&self, message: &Message) -> Result<Option<Join>, AllocError>
        ensures { IfOk result (λ o.
            option_map (λ s. joined_of (message.now.topic, s)) o ≡ join_at self.now message.now) }
    {
        match self.topics.find(&message.topic) {
            Some(join) => Ok(Some(join.clone()?)),
            None => Ok(None),
        }
    }

    // A join of a topic of this kind that is not joined. Room is made before the calls, since nothing
    // may fail behind them.
    fn run_join<P: Port>(
        &mut self,
        alloc: Global,
        port: &mut P,
        message: &Message,
        kind: u32,
    ) -> Result<Reply, Stop>
        requires absent { find message.now.topic self.old.joined ≡ None }
        ensures ran { Acts (P.step self.old.pid) (join_rule kind self.old None message.now) port.old port.new self.new result }
        ensures err { OnErr result (self.new ≡ self.old) }
        ensures failed { self.new.failed ≡ self.old.failed }
    {
        self.topics.make_room()?;
        let topic = message.topic.clone()?;
        let join_ref = join_ref_for(message).clone()?;
        let count = self.topics.len();
        let caller = Caller {
            alloc,
            pid: self.pid,
        };
        match join(caller, count, port, message) {
            Ok(reply) => {
                self.topics.enter(topic, kind, join_ref, reply.sub);
                Ok(Reply::One(reply.reply))
            }
            Err(stop) => Err(stop),
        }
    }

    // A join of a topic that is joined. The old join is left, and then the new one is made.
    fn run_rejoin<P: Port>(
        &mut self,
        alloc: Global,
        port: &mut P,
        message: &Message,
        kind: u32,
        join: &Join,
    ) -> Result<Reply, Stop>
        ensures ran { Acts (P.step self.old.pid)
            (join_rule kind self.old (Some (joined_of (message.now.topic, join.now))) message.now)
            port.old port.new self.new result }
        ensures err { OnErr result (self.new ≡ self.old) }
        ensures failed { self.new.failed ≡ self.old.failed }
    {
        self.topics.make_room()?;
        let topic = message.topic.clone()?;
        let join_ref = join_ref_for(message).clone()?;
        let others = self.topics.len().saturating_sub(1);
        let caller = Caller {
            alloc,
            pid: self.pid,
        };
        match rejoin(caller, others, join, port, message) {
            Ok(reply) => {
                self.topics.leave(&message.topic);
                self.topics.enter(topic, kind, join_ref, reply.join.sub);
                Ok(Reply::Two(reply.close, reply.join.reply))
            }
            Err(stop) => Err(stop),
        }
    }

    // A join of a topic of this kind.
    fn run_any_join<P: Port>(
        &mut self,
        alloc: Global,
        port: &mut P,
        message: &Message,
        kind: u32,
    ) -> Result<Reply, Stop>
        ensures ran { Acts (P.step self.old.pid)
            (join_rule kind self.old (join_at self.old message.now) message.now)
            port.old port.new self.new result }
        ensures err { OnErr result (self.new ≡ self.old) }
        ensures failed { self.new.failed ≡ self.old.failed }
    {
        match self.present_join(message)? {
            Some(join) => self.run_rejoin(alloc, port, message, kind, &join),
            None => self.run_join(alloc, port, message, kind),
        }
    }

    // A leave of a topic that is joined.
    fn run_leave<P: Port>(
        &mut self,
        alloc: Global,
        port: &mut P,
        message: &Message,
        join: &Join,
    ) -> Result<Reply, Stop>
        ensures ran { Acts (P.step self.old.pid)
            (leave_rule self.old (Some (joined_of (message.now.topic, join.now))) message.now)
            port.old port.new self.new result }
        ensures err { OnErr result (self.new ≡ self.old) }
        ensures failed { self.new.failed ≡ self.old.failed }
    {
        let caller = Caller {
            alloc,
            pid: self.pid,
        };
        match leave(caller, join, port, message) {
            Ok(reply) => {
                self.topics.leave(&message.topic);
                Ok(reply)
            }
            Err(stop) => Err(stop),
        }
    }

    // A leave of a topic, joined or not.
    fn run_any_leave<P: Port>(
        &mut self,
        alloc: Global,
        port: &mut P,
        message: &Message,
    ) -> Result<Reply, Stop>
        ensures ran { Acts (P.step self.old.pid)
            (leave_rule self.old (join_at self.old message.now) message.now)
            port.old port.new self.new result }
        ensures err { OnErr result (self.new ≡ self.old) }
        ensures failed { self.new.failed ≡ self.old.failed }
    {
        match self.present_join(message)? {
            Some(join) => self.run_leave(alloc, port, message, &join),
            None => leave_nothing(alloc, message),
        }
    }

    // A message to a topic, joined or not, that is no join and no leave.
    fn topic_message<P: Port, H: PresenceHooks>(
        &self,
        alloc: Global,
        port: &mut P,
        hooks: &H,
        message: &Message,
        event: TopicEvent,
    ) -> Result<Reply, Stop>
        requires { IsTrue (is_payload message.now.payload) }
        ensures { ActsBy (worded_by H.PresenceHooks hooks.now) (P.step self.now.pid)
            (topic_rule self.now message.now event) port.old port.new self.now result }
    {
        match self.topics.find(&message.topic) {
            Some(join) => {
                let caller = Caller {
                    alloc,
                    pid: self.pid,
                };
                topic_event(caller, hooks, Incoming { join, message }, port, event)
            }
            None => unmatched(alloc, message),
        }
    }

    // What a message does in a case.
    fn act_on<P: Port, H: PresenceHooks>(
        &mut self,
        alloc: Global,
        port: &mut P,
        hooks: &H,
        message: &Message,
        case: Case,
    ) -> Result<Reply, Stop>
        requires { IsTrue (is_payload message.now.payload) }
        ensures ran { ActsBy (worded_by H.PresenceHooks hooks.now) (P.step self.old.pid)
            (kind_rule case.phoenix case.route self.old message.now case.event)
            port.old port.new self.new result }
        ensures err { OnErr result (self.new ≡ self.old) }
        ensures failed { self.new.failed ≡ self.old.failed }
    {
        match case.event {
            EventKind::Heartbeat => {
                if case.phoenix {
                    heartbeat(alloc, message)
                } else {
                    self.topic_message(alloc, port, hooks, message, TopicEvent::Unknown)
                }
            }
            EventKind::Join => match case.route {
                Some(kind) => self.run_any_join(alloc, port, message, kind),
                None => unmatched(alloc, message),
            },
            EventKind::Leave => self.run_any_leave(alloc, port, message),
            EventKind::Topic(event) => self.topic_message(alloc, port, hooks, message, event),
        }
    }

    /// Answers a message by the rules. After an `Err` the session is as before.
    #[tactic(auto, unfolding(channel_rules::specs::Rules::rules))]
    pub(crate) fn act<P: Port, H: PresenceHooks>(
        &mut self,
        alloc: Global,
        port: &mut P,
        channels: Channels<'_, H>,
        message: &Message,
    ) -> Result<Reply, Stop>
        requires { IsTrue (is_payload message.now.payload) }
        ensures ran { ActsBy (worded_by H.PresenceHooks channels.entry.hooks.now) (P.step self.old.pid)
            (rules channels.entry.routes.now self.old message.now) port.old port.new self.new result }
        ensures err { OnErr result (self.new ≡ self.old) }
        ensures failed { self.new.failed ≡ self.old.failed }
    {
        let case = case_of(channels.routes, message);
        self.act_on(alloc, port, channels.hooks, message, case)
    }
}
