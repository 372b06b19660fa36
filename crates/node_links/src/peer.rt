//! One end of a link.
ghost use Rattle.std.specs.Prelude.{◌≡◌, ◌≤◌, None, Some, Ok, OnOk, OnErr};
ghost use Rattle.link_lines.specs.Results.{Gives};
ghost use Rattle.node_links.specs.Exchanges.{at_first, actions_of, after, who, link_form, hearer_of, hello_of, on_bytes as heard_of};

use crate::action::LinkAction;
use crate::exchanges::{greeting, heard, later};
use crate::forms::{form_told, lesser, version_of};
use crate::owns::Owns;
use link_lines::{Hearer, Line, LinkFault};
use orswot_core::Form;
use presence_base::Replica;
use std::alloc::Global;
use std::marker::Model;

/// The two ends of a link: the one that dialled, and the one that was dialled.
#[derive(Clone, Copy, PartialEq, Eq, Debug)]
pub enum End {
    Dialling,
    Accepting,
}

/// What one end of a link knows of the other one: whether its hello came, who it is, and in which form the two tell.
#[derive(Drop)]
pub struct Peer {
    owns: Owns,
    shards: u32,
    end: End,
    speaks: Form,
    other: Option<(Replica, Form)>,
}

impl Model for Peer {
    ghost use Rattle.std.specs.Prelude.{◌≤◌, option_map};
    ghost use Rattle.node_links.specs.Exchanges.{PeerValue};

    ghost Value = { PeerValue };

    ghost view = { λ p. record {
      own = p.owns.node;
      owns = option_map (λ v. v.items) p.owns.shards;
      shards = p.shards;
      end = p.end;
      speaks = p.speaks;
      other = p.other;
    } };

    ghost invariant = { λ p. 1 ≤ p.shards };
}

impl Peer {
    /// The end of a link at the node that is this replica and has so many shards, before any line came. It speaks up to this
    /// form: at the dialling end that which its hello tells.
    pub fn new(own: Replica, shards: u32, end: End, speaks: Form) -> Peer
        requires { 1 ≤ shards }
        ensures { result ≡ record { own = own; owns = None; shards = shards; end = end; speaks = speaks; other = None } }
    {
        Peer {
            owns: Owns {
                node: own,
                shards: None,
            },
            shards,
            end,
            speaks,
            other: None,
        }
    }

    /// The same end, at a node of which some shard is still an earlier replica: these are what its shards are, by their numbers.
    pub fn with_owns(self, owns: Vec<Replica>) -> Peer
        ensures { result ≡ record {
          own = self.own;
          owns = Some owns.items;
          shards = self.shards;
          end = self.end;
          speaks = self.speaks;
          other = self.other;
        } }
    {
        let mut peer = self;
        peer.owns.shards = Some(owns);
        peer
    }

    /// The replica that this node is, as its hello names it.
    pub fn own(&self) -> Replica
        ensures { result ≡ self.now.own }
    {
        self.owns.node
    }

    /// The hello that this end tells: of a dialling end the first line.
    pub fn hello(&self) -> Line
        ensures { result ≡ hello_of self.now }
    {
        Line::Hello {
            replica: self.owns.node,
            shards: self.shards,
            version: version_of(self.speaks),
        }
    }

    /// What is known of the next line: over how many shards it speaks, and from the other end's hello on its form.
    pub fn hearer(&self) -> Hearer
        ensures hearer { result ≡ hearer_of self.now }
        ensures some { 1 ≤ result.shards }
    {
        Hearer {
            shards: self.shards,
            form: self.form(),
        }
    }

    /// The form in which the two ends tell, from the other end's hello on.
    pub fn form(&self) -> Option<Form>
        ensures { result ≡ link_form self.now.other }
    {
        match self.other {
            Some((_, form)) => Some(form),
            None => None,
        }
    }

    /// How many shards this node has.
    pub fn shards(&self) -> u32
        ensures shards { result ≡ self.now.shards }
        ensures some { 1 ≤ result }
    {
        self.shards
    }

    /// Who is at the other end, from its hello on.
    pub fn other(&self) -> Option<Replica>
        ensures { result ≡ who self.now.other }
    {
        match self.other {
            Some((replica, _)) => Some(replica),
            None => None,
        }
    }

    /// What a line that came at this time (in milliseconds) asks for, in order.
    ///
    /// The first line is to be a hello, and none behind it is one (`BadLine`); a hello names as many
    /// shards as this node has (`OtherShards`). A beat or permdown of another name than the hello's is refused
    /// (`BadLine`), unless it is of this node itself. A peer that refuses a line, or wants memory, is as it was.
    pub fn on_line(
        &mut self,
        alloc: Global,
        line: Line,
        now: u64,
    ) -> Result<Vec<LinkAction>, LinkFault>
        ensures actions { Gives (λ v. v.items) result (actions_of self.old now line) }
        ensures ok { OnOk result (self.new ≡ after self.old line) }
        ensures err { OnErr result (self.new ≡ self.old) }
    {
        match self.other {
            Some(other) => later(alloc, &self.owns, other, line, now),
            None => self.greeted(alloc, line),
        }
    }

    /// What it asks of a shard that something of a line came at this time (in milliseconds), whatever it says: who said hello was
    /// heard there, unless it is gone.
    pub fn on_bytes(
        &self,
        alloc: Global,
        shard: u32,
        now: u64,
    ) -> Result<Vec<LinkAction>, LinkFault>
        ensures { Gives (λ v. v.items) result (Ok (heard_of self.now now shard)) }
    {
        match self.other {
            Some((replica, _)) => heard(alloc, shard, &replica, now),
            None => Ok(Vec::new(alloc)),
        }
    }

    // The first line.
    fn greeted(&mut self, alloc: Global, line: Line) -> Result<Vec<LinkAction>, LinkFault>
        requires { self.old.other ≡ None }
        ensures actions { Gives (λ v. v.items) result (at_first self.old line) }
        ensures ok { OnOk result (self.new ≡ after self.old line) }
        ensures err { OnErr result (self.new ≡ self.old) }
    {
        let Line::Hello {
            replica,
            shards,
            version,
        } = line
        else {
            return Err(LinkFault::BadLine);
        };
        if shards != self.shards {
            return Err(LinkFault::OtherShards);
        }
        let form = lesser(self.speaks, form_told(version));
        let actions = greeting(alloc, self.owns.node, self.shards, self.end, form)?;
        self.other = Some((replica, form));
        Ok(actions)
    }
}
