//! What another node is told that is known of it, so that one which begins anew as what it was before learns so.
ghost use Rattle.std.specs.Prelude.{◌≡◌};
ghost use Rattle.presence_base.specs.Order.{same_replica};
ghost use Rattle.link_rules.specs.Known.{known_in as known_in_line, known_line as line_of_known};

use link_lines::Line;
use presence_base::Replica;

/// The line that tells another node up to which count it is known at a shard, where it is: a beat of its own, which it answers
/// with ok.
pub fn known_line(shard: u32, other: Replica, top: u64) -> Option<Line>
    ensures { result ≡ line_of_known shard other top }
{
    if top == 0 {
        return None;
    }
    Some(Line::Beat {
        shard,
        replica: other,
        count: top,
        delta: None,
    })
}

fn is_same(a: &Replica, b: &Replica) -> bool
    ensures { result ≡ same_replica a.now b.now }
{
    a.cmp(b).is_eq()
}

/// At which shard a line tells this node up to which count it is known there, where it does.
pub fn known_in(own: &Replica, line: &Line) -> Option<(u32, u64)>
    ensures { result ≡ known_in_line own.now line.now }
{
    match line {
        Line::Beat {
            shard,
            replica,
            count,
            ..
        } if is_same(replica, own) => Some((*shard, *count)),
        _ => None,
    }
}
