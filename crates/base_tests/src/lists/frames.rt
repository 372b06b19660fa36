//! States and diffs as frames, read back.
use phx_message::{Limits, decode};
use presence_metas::{FrameFault, read_frame};
use std::alloc::Global;
use std::test::Fail;

// What is wrong with a frame of this event and payload.
fn fault_of(alloc: Global, event: &str, payload: &str) -> Option<FrameFault> {
    let Ok(text) = format!(in alloc; r#"[null,null,"t","{event}",{payload}]"#) else {
        return None;
    };
    let Ok(message) = decode(alloc, text.as_str(), Limits::FRAME) else {
        return None;
    };
    let Err(fault) = read_frame(alloc, &message) else {
        return None;
    };
    Some(fault)
}

#[test]
fn other_events_and_shapes_are_refused(rt: HostRuntime) -> Result<(), Fail> {
    let alloc = rt.alloc();
    assert_eq!(rt;
        fault_of(alloc, "shout", "{}"),
        Some(FrameFault::NotPresence)
    );
    let states = [
        "[]",
        r#"{"k":[]}"#,
        r#"{"k":{"metas":{}}}"#,
        // The shape of the whole frame is looked at before any reference.
        r#"{"k":{"metas":[{}]},"l":{"metas":[1]}}"#,
    ];
    for state in states {
        assert_eq!(rt;
            fault_of(alloc, "presence_state", state),
            Some(FrameFault::BadShape),
            "{state}"
        );
    }
    let diffs = [
        r#"{"joins":{}}"#,
        r#"{"leaves":{}}"#,
        r#"{"joins":{"k":{"metas":[{}]}},"leaves":{"k":{}}}"#,
    ];
    for diff in diffs {
        assert_eq!(rt;
            fault_of(alloc, "presence_diff", diff),
            Some(FrameFault::BadShape),
            "{diff}"
        );
    }
    Ok(())
}

#[test]
fn metas_without_a_reference_are_refused(rt: HostRuntime) -> Result<(), Fail> {
    let alloc = rt.alloc();
    for state in [
        r#"{"k":{"metas":[{}]}}"#,
        r#"{"k":{"metas":[{"phx_ref":1}]}}"#,
    ] {
        assert_eq!(rt;
            fault_of(alloc, "presence_state", state),
            Some(FrameFault::NoRef),
            "{state}"
        );
    }
    Ok(())
}
