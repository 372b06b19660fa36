//! What a client makes of rendered states and diffs.
use super::rows::{rows_of, tracked, updated};
use phx_message::{Limits, decode};
use presence_base::{Dot, Row, Text};
use presence_metas::{
    Diff, Frame, Mirror, Presences, diff_value, read_frame, state_value, value_of_metas,
};
use serde_json::Value;
use std::alloc::{AllocError, Global};
use std::test::Fail;

// The text of a value that was made for this.
fn text_of(alloc: Global, value: Result<Value, AllocError>) -> Option<String> {
    let Ok(value) = value else {
        return None;
    };
    let Ok(text) = value.to_string(alloc) else {
        return None;
    };
    Some(text)
}

// Whether the value that was made for this has this text.
fn is_told(alloc: Global, value: Result<Value, AllocError>, want: &str) -> bool {
    match text_of(alloc, value) {
        Some(text) => text.as_str() == want,
        None => false,
    }
}

// The frame that a text is, if it is one.
fn frame_of(alloc: Global, text: &str) -> Option<Frame> {
    let Ok(message) = decode(alloc, text, Limits::FRAME) else {
        return None;
    };
    let Ok(frame) = read_frame(alloc, &message) else {
        return None;
    };
    Some(frame)
}

// Folds a frame's text into the mirror, and says whether it is one.
pub(super) fn folds(alloc: Global, mirror: &mut Mirror, text: &str) -> bool {
    match frame_of(alloc, text) {
        Some(frame) => mirror.take_frame(alloc, frame).is_ok(),
        None => false,
    }
}

// Whether the mirror's lists have this text.
pub(super) fn holds(alloc: Global, mirror: &Mirror, want: &str) -> bool {
    is_told(alloc, mirror.to_value(alloc), want)
}

// Whether the state of these rows has this text.
fn is_state(alloc: Global, rows: Option<Vec<(Dot, Row)>>, want: &str) -> bool {
    match rows {
        Some(rows) => is_told(alloc, state_value(alloc, rows.as_slice()), want),
        None => false,
    }
}

// Whether the diff of the update has this text.
fn is_update(alloc: Global, want: &str) -> bool {
    let Some(joins) = updated(alloc) else {
        return false;
    };
    let Some(leaves) = tracked(alloc) else {
        return false;
    };
    is_told(
        alloc,
        diff_value(alloc, joins.as_slice(), leaves.as_slice()),
        want,
    )
}

#[test]
fn objects_of_the_tracked_join_and_its_update(rt: HostRuntime) -> Result<(), Fail> {
    let alloc = rt.alloc();
    let state = r#"{"u1":{"metas":[{"phx_ref":"a.1.1","x":1}]}}"#;
    assert!(rt; is_state(alloc, tracked(alloc), state));
    let diff =
        r#"{"joins":{"u1":{"metas":[{"phx_ref":"a.1.2","phx_ref_prev":"a.1.1","x":2}]}},"leaves":{"u1":{"metas":[{"phx_ref":"a.1.1","x":1}]}}}"#;
    assert!(rt; is_update(alloc, diff));
    Ok(())
}

// The lists of rows of these keys, counts and metas.
fn lists_of(alloc: Global, given: &[(&str, u64, u64)]) -> Option<Presences> {
    let rows = rows_of(alloc, given)?;
    let Ok(lists) = Presences::of_rows(alloc, rows.as_slice()) else {
        return None;
    };
    Some(lists)
}

// Whether the lists of such rows have this text.
fn are_lists(alloc: Global, given: &[(&str, u64, u64)], want: &str) -> bool {
    match lists_of(alloc, given) {
        Some(lists) => is_told(alloc, lists.to_value(alloc), want),
        None => false,
    }
}

#[test]
fn rows_of_one_key_stand_together(rt: HostRuntime) -> Result<(), Fail> {
    let rows = [("u1", 2, 1), ("u1", 3, 2), ("u2", 1, 3)];
    let lists =
        r#"{"u1":{"metas":[{"phx_ref":"a.1.2","x":1},{"phx_ref":"a.1.3","x":2}]},"u2":{"metas":[{"phx_ref":"a.1.1","x":3}]}}"#;
    assert!(rt; are_lists(rt.alloc(), &rows, lists));
    Ok(())
}

const TRACKED_FRAME: &str =
    r#"["1",null,"room:lobby","presence_state",{"u1":{"metas":[{"phx_ref":"a.1.1","x":1}]}}]"#;

const UPDATE_FRAME: &str =
    r#"[null,null,"room:lobby","presence_diff",{"joins":{"u1":{"metas":[{"phx_ref":"a.1.2","phx_ref_prev":"a.1.1","x":2}]}},"leaves":{"u1":{"metas":[{"phx_ref":"a.1.1","x":1}]}}}]"#;

const UNTRACK_FRAME: &str =
    r#"[null,null,"room:lobby","presence_diff",{"joins":{},"leaves":{"u1":{"metas":[{"phx_ref":"a.1.2"}]}}}]"#;

#[test]
fn fold_of_the_update_and_the_untrack(rt: HostRuntime) -> Result<(), Fail> {
    let alloc = rt.alloc();
    let mut mirror = Mirror::new(alloc);
    assert!(rt; folds(alloc, &mut mirror, TRACKED_FRAME));
    assert!(rt; folds(alloc, &mut mirror, UPDATE_FRAME));
    let updated = r#"{"u1":{"metas":[{"phx_ref":"a.1.2","phx_ref_prev":"a.1.1","x":2}]}}"#;
    assert!(rt; holds(alloc, &mirror, updated));
    assert!(rt; folds(alloc, &mut mirror, UNTRACK_FRAME));
    assert!(rt; holds(alloc, &mirror, "{}"));
    Ok(())
}

const STATE_WITH_MORE: &str =
    r#"[null,null,"t","presence_state",{"k":{"metas":[{"phx_ref":"p","x":1},{"phx_ref":"q"}],"user":{}},"gone":{"metas":[]}}]"#;

const DIFF_WITH_MORE: &str =
    r#"[null,null,"t","presence_diff",{"joins":{"k":{"metas":[{"phx_ref":"p","x":2},{"phx_ref":"r"}]}},"leaves":{"other":{"metas":[{"phx_ref":"q"}]}},"more":1}]"#;

#[test]
fn joined_metas_follow_those_that_stay(rt: HostRuntime) -> Result<(), Fail> {
    let alloc = rt.alloc();
    let mut mirror = Mirror::new(alloc);
    assert!(rt; folds(alloc, &mut mirror, STATE_WITH_MORE));
    assert!(rt; folds(alloc, &mut mirror, DIFF_WITH_MORE));
    let lists = r#"{"k":{"metas":[{"phx_ref":"q"},{"phx_ref":"p","x":2},{"phx_ref":"r"}]}}"#;
    assert!(rt; holds(alloc, &mirror, lists));
    Ok(())
}

// The diff in which count 2 joins and count 1 leaves, both of `u1`.
fn second_for_first(alloc: Global) -> Option<Diff> {
    let joins = lists_of(alloc, &[("u1", 2, 2)])?;
    let leaves = lists_of(alloc, &[("u1", 1, 1)])?;
    Some(Diff { joins, leaves })
}

// The mirror with count 1, and then with the diff.
fn second_mirror(alloc: Global) -> Option<Mirror> {
    let mut mirror = Mirror::new(alloc);
    mirror.set_state(lists_of(alloc, &[("u1", 1, 1)])?);
    let diff = second_for_first(alloc)?;
    let Ok(()) = mirror.apply(alloc, &diff) else {
        return None;
    };
    Some(mirror)
}

#[test]
fn a_state_and_a_diff_that_no_frame_brings(rt: HostRuntime) -> Result<(), Fail> {
    let alloc = rt.alloc();
    let want = r#"{"u1":{"metas":[{"phx_ref":"a.1.2","x":2}]}}"#;
    assert!(rt; second_mirror(alloc).is_some_and(|mirror| holds(alloc, &mirror, want)));
    Ok(())
}

// The text of the metas of this key, if the lists have it.
fn metas_text(alloc: Global, lists: &Presences, key: &str) -> Option<String> {
    let Ok(key) = Text::new(alloc, key) else {
        return None;
    };
    let metas = lists.as_map().get(&key)?;
    text_of(alloc, value_of_metas(alloc, metas.as_slice()))
}

// Whether a clone of the lists has these metas at `u1`, and none at `u2`.
fn has_metas(alloc: Global, lists: &Presences, want: &str) -> bool {
    let Ok(copy) = lists.clone() else {
        return false;
    };
    metas_text(alloc, &copy, "u2").is_none()
        && metas_text(alloc, &copy, "u1").is_some_and(|text| text.as_str() == want)
}

#[test]
fn the_metas_of_one_key(rt: HostRuntime) -> Result<(), Fail> {
    let alloc = rt.alloc();
    let want = r#"{"metas":[{"phx_ref":"a.1.1","x":1}]}"#;
    let lists = lists_of(alloc, &[("u1", 1, 1)]);
    assert!(rt; lists.is_some_and(|lists| has_metas(alloc, &lists, want)));
    Ok(())
}
