//! The notices of a diff.
use super::rows::{lobby, update};
use hook_registry::{Extra, Fetch, Hooks, NoHooks, Notice, PresenceHooks, Tell, notices};
use presence_base::{Dot, Key, Topic, ref_text};
use std::alloc::{AllocError, Global};
use std::test::Fail;

// The notice of a word and a reference, as in `join a.1.2`.
pub(super) fn note(alloc: Global, word: &str, dot: &Dot) -> Result<Notice, AllocError> {
    let reference = ref_text(alloc, dot)?;
    let text = format!(in alloc; "{word} {reference}")?;
    match Notice::new(alloc, text.as_str())? {
        Some(notice) => Ok(notice),
        None => Ok(Notice::empty(alloc)),
    }
}

// Whether these are the texts of the notices.
fn are_texts(notices: &[Notice], wanted: &[&str]) -> bool {
    if notices.len() != wanted.len() {
        return false;
    }
    for (notice, want) in notices.iter().zip(wanted.iter()) {
        if notice.as_str() != *want {
            return false;
        }
    }
    true
}

// Whether the update after the tracked join is noted so.
fn notes_update<H: PresenceHooks>(alloc: Global, hooks: &H, wanted: &[&str]) -> bool {
    let Some(topic) = lobby(alloc) else {
        return false;
    };
    let Some(diff) = update(alloc) else {
        return false;
    };
    match notices(alloc, hooks, 0, &topic, &diff) {
        Ok(notices) => are_texts(notices.as_slice(), wanted),
        Err(_) => false,
    }
}

#[test]
fn an_update_is_a_join_and_a_leave(rt: HostRuntime) -> Result<(), Fail> {
    let alloc = rt.alloc();
    let fetch: Fetch = Box::new(
        alloc,
        move |_: u32, _: &Topic, _: &Key| Ok(Extra::none(alloc)),
    )?;
    let on_join: Tell = Box::new(
        alloc,
        move |_: u32, _: &Topic, _: &Key, dot: &Dot| note(alloc, "join", dot),
    )?;
    let on_leave: Tell = Box::new(
        alloc,
        move |_: u32, _: &Topic, _: &Key, dot: &Dot| note(alloc, "leave", dot),
    )?;
    let hooks = Hooks::new(fetch, on_join, on_leave);
    assert!(rt; notes_update(alloc, &hooks, &["join a.1.2", "leave a.1.1"]));
    assert!(rt; notes_update(alloc, &NoHooks, &[]));
    Ok(())
}

// The empty notice, but want of memory is answered for one count.
fn nothing_but_at(alloc: Global, dot: &Dot, refused: u64) -> Result<Notice, AllocError> {
    if dot.count == refused {
        return Err(AllocError);
    }
    Ok(Notice::empty(alloc))
}

// The first call of the update is that of count 2, the second that of count 1.
#[test]
fn a_refused_notice_refuses_the_others(rt: HostRuntime) -> Result<(), Fail> {
    let alloc = rt.alloc();
    for (refused, answered) in [(2, false), (1, false), (3, true)] {
        let fetch: Fetch = Box::new(
            alloc,
            move |_: u32, _: &Topic, _: &Key| Ok(Extra::none(alloc)),
        )?;
        let on_join: Tell = Box::new(
            alloc,
            move |_: u32, _: &Topic, _: &Key, dot: &Dot| nothing_but_at(alloc, dot, refused),
        )?;
        let on_leave: Tell = Box::new(
            alloc,
            move |_: u32, _: &Topic, _: &Key, dot: &Dot| nothing_but_at(alloc, dot, refused),
        )?;
        let hooks = Hooks::new(fetch, on_join, on_leave);
        assert_eq!(rt;
            notes_update(alloc, &hooks, &["", ""]),
            answered,
            "{refused}"
        );
    }
    Ok(())
}
