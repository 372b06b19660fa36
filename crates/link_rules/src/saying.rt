//! What was said of a place already.
ghost use Rattle.std.specs.Prelude.{◌≡◌, true, false, None, [], Some};
ghost use Rattle.link_rules.specs.Saying.{is_other, comes_up};

use crate::end::LinkEnd;
use crate::warning::LinkWarning;
use presence_base::Replica;
use std::alloc::Global;

/// What was said of the links to or from one place, so that nothing of it is said again each period.
///
/// A reason is said once, and a warning too, until another node is met there, in whatever life. A link that comes back to
/// the same node is said to be up only once it has stood for a while, and each reason is then news again.
#[derive(Drop)]
pub struct Saying {
    /// Who was met last.
    other: Option<Replica>,
    /// Whether it was said last that the link is up.
    is_up: bool,
    ends: Vec<LinkEnd>,
    warnings: Vec<LinkWarning>,
}

fn is_same(a: &LinkWarning, b: &LinkWarning) -> bool {
    match (a, b) {
        (LinkWarning::Untold(a), LinkWarning::Untold(b)) => a.shard == b.shard,
        _ => a == b,
    }
}

impl Saying {
    /// Nothing was said.
    pub fn new(alloc: Global) -> Saying
        ensures other { result.other ≡ None }
        ensures up { result.is_up ≡ false }
        ensures ends { result.ends.items ≡ [] }
        ensures warnings { result.warnings.items ≡ [] }
    {
        Saying {
            other: None,
            is_up: false,
            ends: Vec::new(alloc),
            warnings: Vec::new(alloc),
        }
    }

    // Whether another node is met than before.
    fn is_other(&self, other: &Replica) -> bool
        ensures { result ≡ is_other self.now.other other.now }
    {
        match self.other {
            Some(known) => !known.cmp(other).is_eq(),
            None => true,
        }
    }

    /// Whether any node was met.
    pub fn has_met(&self) -> bool {
        self.other.is_some()
    }

    /// A link is up with this node, and may have stood for a while: whether it is to be said.
    pub fn comes(&mut self, other: &Replica, has_stood: bool) -> bool
        ensures said { result ≡ comes_up self.old.other self.old.is_up other.now has_stood }
        ensures quiet { result ≡ false → self.new ≡ self.old }
        ensures up { result ≡ true → self.new.is_up ≡ true }
        ensures anew { result ≡ true → self.new.ends.items ≡ [] }
        ensures other { result ≡ true → self.new.other ≡ Some other.now }
    {
        if self.is_other(other) {
            self.warnings.clear();
        } else if self.is_up || !has_stood {
            return false;
        }
        self.other = Some(*other);
        self.is_up = true;
        self.ends.clear();
        true
    }

    /// A link went, or can't be had: whether the reason is to be said. Where there is no memory to keep it, it is said.
    pub fn goes(&mut self, end: LinkEnd) -> bool
        ensures quiet { result ≡ false → self.new ≡ self.old }
        ensures other { self.new.other ≡ self.old.other }
        ensures down { result ≡ true → self.new.is_up ≡ false }
    {
        if self.ends.contains(&end) {
            return false;
        }
        self.is_up = false;
        let _lost = self.ends.push(end);
        true
    }

    /// Something is odd about a link: whether it is to be said.
    pub fn warns(&mut self, warning: LinkWarning) -> bool
        ensures quiet { result ≡ false → self.new ≡ self.old }
        ensures other { self.new.other ≡ self.old.other }
        ensures up { self.new.is_up ≡ self.old.is_up }
    {
        if self.warnings.iter().any(|kept| is_same(kept, &warning)) {
            return false;
        }
        let _lost = self.warnings.push(warning);
        true
    }
}
