//! What a peer asks for, line by line, and what comes of actions that no line gives.
use crate::desk::{Desk, NOW, at_a, at_b, at_late_a, replica};
use crate::port::Call;
use link_lines::{Line, LinkFault};
use node_links::{Act, ActFault, LinkAction, act};
use presence_base::Replica;
use std::alloc::Global;

#[derive(Clone, Copy, PartialEq, Eq, Debug)]
enum Asks {
    UnlessGone(u32, Replica),
    Heard(u32, Replica, u64),
    Merge(u32),
    PermDown(Replica),
    AnswerTop(u32, Replica, u64),
    AnswerTold(u32, Option<u64>),
    Hello(Replica, u32),
    Ok,
    OtherAnswer,
    GivenUp,
}

fn asked_by(action: &LinkAction) -> Asks {
    match action {
        LinkAction::UnlessGone { shard, replica } => Asks::UnlessGone(*shard, *replica),
        LinkAction::Heard {
            shard,
            replica,
            now,
        } => Asks::Heard(*shard, *replica, *now),
        LinkAction::Merge { shard, .. } => Asks::Merge(*shard),
        LinkAction::PermDown { replica } => Asks::PermDown(*replica),
        LinkAction::AnswerTop {
            shard,
            replica,
            count,
        } => Asks::AnswerTop(*shard, *replica, *count),
        LinkAction::AnswerTold { shard, from, .. } => Asks::AnswerTold(*shard, *from),
        LinkAction::Answer(
            Line::Hello {
                replica,
                shards,
                ..
            },
        ) => Asks::Hello(*replica, *shards),
        LinkAction::Answer(Line::Ok) => Asks::Ok,
        LinkAction::Answer(_) => Asks::OtherAnswer,
        LinkAction::GivenUp => Asks::GivenUp,
    }
}

// Whether these are the actions.
fn are_actions(actions: &[LinkAction], wanted: &[Asks]) -> bool {
    if actions.len() != wanted.len() {
        return false;
    }
    for (action, one) in actions.iter().zip(wanted) {
        if asked_by(action) != *one {
            return false;
        }
    }
    true
}

// Whether the line that this text is asks the peer for these actions, in their order.
fn is_asking(alloc: Global, desk: &mut Desk<'_>, text: &str, wanted: &[Asks]) -> bool {
    match desk.hears(alloc, text) {
        Ok(actions) => are_actions(actions.as_slice(), wanted),
        Err(_) => false,
    }
}

#[test]
fn the_first_line_at_the_end_that_was_dialled(rt: HostRuntime) {
    let alloc = rt.alloc();
    let Some(a) = replica(alloc, "a", 1) else {
        assert!(rt; false);
        return;
    };
    let Some(mut desk) = at_a(alloc, b"") else {
        assert!(rt; false);
        return;
    };
    let hello = r#"["hello","b",1,2]"#;
    assert!(rt; is_asking(alloc, &mut desk, hello, &[Asks::Hello(a, 2)]));
    assert!(rt; desk.knows(alloc, "b", 1));
}

#[test]
fn the_first_line_at_the_end_that_dialled(rt: HostRuntime) {
    let alloc = rt.alloc();
    let Some(mut desk) = at_b(alloc, b"") else {
        assert!(rt; false);
        return;
    };
    assert!(rt; is_asking(alloc, &mut desk, r#"["hello","a",1,2]"#, &[]));
    assert!(rt; desk.knows(alloc, "a", 1));
}

// Node `a` behind the hellos.
fn greeted(alloc: Global) -> Option<Desk<'static>> {
    let mut desk = at_a(alloc, b"")?;
    if desk.takes(alloc, r#"["hello","b",1,2]"#) {
        Some(desk)
    } else {
        None
    }
}

// Whether a node is asked for these actions by each line in turn.
fn are_asking_at(alloc: Global, desk: &mut Desk<'_>, lines: &[(&str, &[Asks])]) -> bool {
    for (text, wanted) in lines {
        if !is_asking(alloc, desk, text, wanted) {
            return false;
        }
    }
    true
}

// Whether node `a`, behind the hellos, is asked for these actions by each line in turn.
fn are_asking(alloc: Global, lines: &[(&str, &[Asks])]) -> bool {
    match greeted(alloc) {
        Some(mut desk) => are_asking_at(alloc, &mut desk, lines),
        None => false,
    }
}

#[test]
fn beats(rt: HostRuntime) {
    let alloc = rt.alloc();
    let Some(b) = replica(alloc, "b", 1) else {
        assert!(rt; false);
        return;
    };
    let b = &b;
    let bare = [
        Asks::UnlessGone(1, *b),
        Asks::Heard(1, *b, NOW),
        Asks::AnswerTop(1, *b, 2),
    ];
    let merging = [
        Asks::UnlessGone(0, *b),
        Asks::Heard(0, *b, NOW),
        Asks::Merge(0),
        Asks::AnswerTop(0, *b, 2),
    ];
    assert!(rt;
        are_asking(
            alloc,
            &[
                (r#"["beat",1,"b",1,2,null]"#, &bare),
                (
                    r#"["beat",0,"b",1,2,[[["b",1,1,2]],[["b",1,1]],[]]]"#,
                    &merging
                ),
                (r#"["beat",0,"a",1,9,null]"#, &[Asks::Ok]),
                (r#"["beat",0,"a",1,1,[[["a",1,0,1]],[],[]]]"#, &[Asks::Ok]),
            ]
        )
    );
}

#[test]
fn wants_and_told_lines(rt: HostRuntime) {
    assert!(rt;
        are_asking(
            rt.alloc(),
            &[
                (r#"["want",1,"a",1,7]"#, &[Asks::AnswerTold(1, Some(7))]),
                (r#"["want",1,"a",2,7]"#, &[Asks::AnswerTold(1, None)]),
                (r#"["want",0,"b",1,7]"#, &[Asks::AnswerTold(0, None)]),
                (
                    r#"["told",1,[[["b",1,0,2]],[],[]]]"#,
                    &[Asks::Merge(1), Asks::Ok]
                ),
            ]
        )
    );
}

#[test]
fn the_other_lines(rt: HostRuntime) {
    let Some(b) = replica(rt.alloc(), "b", 1) else {
        assert!(rt; false);
        return;
    };
    assert!(rt;
        are_asking(
            rt.alloc(),
            &[
                (r#"["permdown","b",1]"#, &[Asks::PermDown(b), Asks::Ok]),
                (r#"["permdown","a",1]"#, &[Asks::Ok]),
                (r#"["gone","a",1]"#, &[Asks::GivenUp]),
                (r#"["gone","a",2]"#, &[]),
                (r#"["gone","b",1]"#, &[]),
                (r#"["ok"]"#, &[]),
            ]
        )
    );
}

// Whether node `a.2`, whose shard 1 is still `a.1`, is asked for these actions by each line in turn.
fn are_asking_late(alloc: Global, lines: &[(&str, &[Asks])]) -> bool {
    match at_late_a(alloc) {
        Some(mut desk) => {
            desk.takes(alloc, r#"["hello","b",1,2]"#) && are_asking_at(alloc, &mut desk, lines)
        },
        None => false,
    }
}

// A beat and a want are about what their shard is.
#[test]
fn a_late_shard_is_what_it_was(rt: HostRuntime) {
    let alloc = rt.alloc();
    assert!(rt;
        are_asking_late(
            alloc,
            &[
                (r#"["beat",0,"a",2,3,null]"#, &[Asks::Ok]),
                (r#"["beat",1,"a",1,3,null]"#, &[Asks::Ok]),
                (r#"["want",0,"a",2,7]"#, &[Asks::AnswerTold(0, Some(7))]),
                (r#"["want",0,"a",1,7]"#, &[Asks::AnswerTold(0, None)]),
                (r#"["want",1,"a",1,7]"#, &[Asks::AnswerTold(1, Some(7))]),
                (r#"["want",1,"a",2,7]"#, &[Asks::AnswerTold(1, None)]),
            ]
        )
    );
}

// The other lines are about what the node's hello says.
#[test]
fn a_node_with_a_late_shard(rt: HostRuntime) {
    assert!(rt;
        are_asking_late(
            rt.alloc(),
            &[
                (r#"["permdown","a",2]"#, &[Asks::Ok]),
                (r#"["gone","a",1]"#, &[]),
                (r#"["gone","a",2]"#, &[Asks::GivenUp]),
            ]
        )
    );
}

// Lines about another name than the hello's, and than this node's.
const OF_OTHERS: [&str; 6] = [
    r#"["beat",0,"c",1,0,null]"#,
    r#"["beat",0,"c",1,1,[[["c",1,0,1]],[],[]]]"#,
    r#"["permdown","c",1]"#,
    // another life of this node
    r#"["beat",0,"a",2,0,null]"#,
    r#"["permdown","a",2]"#,
    r#"["permdown","a",9]"#,
];

// Of a name alone its own link tells that it is there, or gone: in whatever life.
#[test]
fn a_link_speaks_for_its_own_name(rt: HostRuntime) {
    let alloc = rt.alloc();
    let Some(mut desk) = at_a(alloc, b"") else {
        assert!(rt; false);
        return;
    };
    assert!(rt; desk.takes(alloc, r#"["hello","b",3,2]"#));
    for text in OF_OTHERS {
        assert!(rt;
            desk.refusal(alloc, text) == Some(LinkFault::BadLine),
            "{text}"
        );
    }
    assert!(rt; desk.takes(alloc, r#"["beat",0,"b",2,0,null]"#));
    assert!(rt; desk.takes(alloc, r#"["permdown","b",2]"#));
}

// At a node with a late shard that is no other: each shard's own life alone is the node's.
#[test]
fn a_late_shard_is_no_other_node(rt: HostRuntime) {
    let alloc = rt.alloc();
    let Some(mut desk) = at_late_a(alloc) else {
        assert!(rt; false);
        return;
    };
    assert!(rt; desk.takes(alloc, r#"["hello","b",1,2]"#));
    for text in [
        r#"["beat",0,"a",1,3,null]"#,
        r#"["beat",1,"a",2,3,null]"#,
        r#"["permdown","a",1]"#,
    ] {
        assert!(rt;
            desk.refusal(alloc, text) == Some(LinkFault::BadLine),
            "{text}"
        );
    }
}

// Whatever comes of a line is heard at each shard, for who said hello.
#[test]
fn bytes_of_a_line_are_heard(rt: HostRuntime) {
    let alloc = rt.alloc();
    let (Some(mut desk), Some(b)) = (at_a(alloc, b""), replica(alloc, "b", 3)) else {
        assert!(rt; false);
        return;
    };
    assert!(rt; desk.hears_bytes(alloc, 0) && desk.asked(&[]));
    assert!(rt; desk.takes(alloc, r#"["hello","b",3,2]"#));
    assert!(rt; desk.hears_bytes(alloc, 1));
    assert!(rt; desk.asked(&[Call::Status(1, b), Call::Heard(1, b, NOW)]));
}

// A peer that refuses a line takes the same one that it took before.
#[test]
fn a_refusal_leaves_the_peer(rt: HostRuntime) {
    let alloc = rt.alloc();
    let Some(a) = replica(alloc, "a", 1) else {
        assert!(rt; false);
        return;
    };
    let Some(mut desk) = at_a(alloc, b"") else {
        assert!(rt; false);
        return;
    };
    let shards = desk.refusal(alloc, r#"["hello","c",9,3]"#);
    assert!(rt; shards == Some(LinkFault::OtherShards));
    assert!(rt; desk.refusal(alloc, r#"["ok"]"#) == Some(LinkFault::BadLine));
    assert!(rt; desk.link.peer.other().is_none());
    let hello = r#"["hello","b",1,2]"#;
    assert!(rt; is_asking(alloc, &mut desk, hello, &[Asks::Hello(a, 2)]));
}

fn answer(outcome: &Act) -> Option<(u32, Replica, u64)> {
    match &outcome.answer {
        Some(
            Line::Want {
                shard,
                replica,
                top,
            },
        ) => Some((*shard, *replica, *top)),
        _ => None,
    }
}

// Three actions, of which two answer.
fn two_answers(alloc: Global, b: &Replica) -> Option<Vec<LinkAction>> {
    let top = LinkAction::AnswerTop {
        shard: 1,
        replica: *b,
        count: 2,
    };
    match vec![in alloc; LinkAction::Answer(Line::Ok), LinkAction::GivenUp, top] {
        Ok(actions) => Some(actions),
        Err(_) => None,
    }
}

// Whether the three actions are answered by a want of this replica's top, and the replica is given up.
fn is_answered_last(alloc: Global, desk: &mut Desk<'_>, b: &Replica) -> bool {
    let Some(actions) = two_answers(alloc, b) else {
        return false;
    };
    match act(alloc, &mut desk.port, actions) {
        Ok(outcome) => answer(&outcome) == Some((1, *b, 1)) && outcome.given_up,
        Err(_) => false,
    }
}

// Of two answers the last one stands, and what was given up stays so.
#[test]
fn actions_one_after_another(rt: HostRuntime) {
    let alloc = rt.alloc();
    let Some(b) = replica(alloc, "b", 1) else {
        assert!(rt; false);
        return;
    };
    let b = &b;
    let Some(mut desk) = at_a(alloc, b"") else {
        assert!(rt; false);
        return;
    };
    assert!(rt; is_answered_last(alloc, &mut desk, b));
    assert!(rt; desk.asked(&[Call::Top(1, *b)]));
}

// The refusal of a permdown of this replica.
fn permdown_refusal(alloc: Global, desk: &mut Desk<'_>, b: &Replica) -> Option<ActFault> {
    let Ok(actions) = vec![in alloc; LinkAction::PermDown { replica: *b }] else {
        return None;
    };
    match act(alloc, &mut desk.port, actions) {
        Ok(_) => None,
        Err(fault) => Some(fault),
    }
}

#[test]
fn a_refusal_on_the_second_shard(rt: HostRuntime) {
    let alloc = rt.alloc();
    let Some(b) = replica(alloc, "b", 1) else {
        assert!(rt; false);
        return;
    };
    let b = &b;
    let Some(mut desk) = at_a(alloc, b"") else {
        assert!(rt; false);
        return;
    };
    desk.port.refused = 1;
    assert!(rt; permdown_refusal(alloc, &mut desk, b) == Some(ActFault::ShardFull));
    assert!(rt; desk.asked(&[Call::PermDown(0, *b)]));
}
