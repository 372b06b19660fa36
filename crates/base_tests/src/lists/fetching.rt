//! Closures and structs that add members.
use super::folding::{folds, holds};
use super::rows::{lobby, rows_of, tracked, update};
use hook_registry::{
    Extra, Fetch, Hooks, NoHooks, Notice, PresenceHooks, Tell, render_diff, render_state,
};
use presence_base::{Dot, Key, Text, Topic};
use presence_journal::{RowDiff, Rows};
use presence_metas::Mirror;
use serde_json::{Value, json};
use std::alloc::{AllocError, Global};
use std::test::Fail;

// The member `user` with this name.
pub(super) fn user_member(alloc: Global, name: &str) -> Result<Extra, AllocError> {
    let user = json!(in alloc; {"n": name})?;
    let mut members = Vec::new(alloc);
    members.push((String::from_str(alloc, "user")?, user))?;
    match Extra::new(alloc, members)? {
        Some(extra) => Ok(extra),
        None => Ok(Extra::none(alloc)),
    }
}

// Whether the value that was rendered for this has this text.
fn is_rendered(alloc: Global, value: Result<Value, AllocError>, want: &str) -> bool {
    let Ok(value) = value else {
        return false;
    };
    match value.to_string(alloc) {
        Ok(text) => text.as_str() == want,
        Err(_) => false,
    }
}

// Whether the state of the tracked join is rendered so.
fn renders_state<H: PresenceHooks>(alloc: Global, hooks: &H, want: &str) -> bool {
    let Some(topic) = lobby(alloc) else {
        return false;
    };
    let Some(rows) = tracked(alloc) else {
        return false;
    };
    is_rendered(
        alloc,
        render_state(alloc, hooks, 0, &topic, rows.as_slice()),
        want,
    )
}

// Whether the update after it is rendered so.
fn renders_update<H: PresenceHooks>(alloc: Global, hooks: &H, want: &str) -> bool {
    let Some(topic) = lobby(alloc) else {
        return false;
    };
    let Some(diff) = update(alloc) else {
        return false;
    };
    is_rendered(alloc, render_diff(alloc, hooks, 0, &topic, &diff), want)
}

const PLAIN_STATE: &str = r#"{"u1":{"metas":[{"phx_ref":"a.1.1","x":1}]}}"#;

const PLAIN_UPDATE: &str =
    r#"{"joins":{"u1":{"metas":[{"phx_ref":"a.1.2","phx_ref_prev":"a.1.1","x":2}]}},"leaves":{"u1":{"metas":[{"phx_ref":"a.1.1","x":1}]}}}"#;

const NAMED_STATE: &str = r#"{"u1":{"metas":[{"phx_ref":"a.1.1","x":1}],"user":{"n":"Ann"}}}"#;

const NAMED_UPDATE: &str =
    r#"{"joins":{"u1":{"metas":[{"phx_ref":"a.1.2","phx_ref_prev":"a.1.1","x":2}],"user":{"n":"Ann"}}},"leaves":{"u1":{"metas":[{"phx_ref":"a.1.1","x":1}],"user":{"n":"Ann"}}}}"#;

#[test]
fn without_hooks_the_objects_are_the_plain_ones(rt: HostRuntime) -> Result<(), Fail> {
    let alloc = rt.alloc();
    assert!(rt; renders_state(alloc, &NoHooks, PLAIN_STATE));
    assert!(rt; renders_update(alloc, &NoHooks, PLAIN_UPDATE));
    Ok(())
}

#[test]
fn the_fetched_member(rt: HostRuntime) -> Result<(), Fail> {
    let alloc = rt.alloc();
    let fetch: Fetch = Box::new(
        alloc,
        move |_: u32, _: &Topic, _: &Key| user_member(alloc, "Ann"),
    )?;
    let quiet: Tell = Box::new(
        alloc,
        move |_: u32, _: &Topic, _: &Key, _: &Dot| Ok(Notice::empty(alloc)),
    )?;
    let silent: Tell = Box::new(
        alloc,
        move |_: u32, _: &Topic, _: &Key, _: &Dot| Ok(Notice::empty(alloc)),
    )?;
    let hooks = Hooks::new(fetch, quiet, silent);
    assert!(rt; renders_state(alloc, &hooks, NAMED_STATE));
    assert!(rt; renders_update(alloc, &hooks, NAMED_UPDATE));
    Ok(())
}

// Whether the frame of this state is folded to this.
fn folds_to(alloc: Global, state: &str, want: &str) -> bool {
    let Ok(frame) = format!(in alloc; r#"["2",null,"room:lobby","presence_state",{state}]"#) else {
        return false;
    };
    let mut mirror = Mirror::new(alloc);
    folds(alloc, &mut mirror, frame.as_str()) && holds(alloc, &mirror, want)
}

#[test]
fn a_mirror_is_the_same_with_the_fetched_member(rt: HostRuntime) -> Result<(), Fail> {
    let alloc = rt.alloc();
    assert!(rt; folds_to(alloc, NAMED_STATE, PLAIN_STATE));
    assert!(rt; folds_to(alloc, PLAIN_STATE, PLAIN_STATE));
    Ok(())
}

struct User {
    key: Text,
    name: Text,
}

impl Drop for User {
    fn drop(self) {
        let User { key, name } = self;
        drop(key);
        drop(name);
    }
}

// The names of the users, by their keys.
struct Users {
    users: Vec<User>,
}

impl Drop for Users {
    fn drop(self) {
        let Users { users } = self;
        drop(users);
    }
}

impl Users {
    fn new(alloc: Global) -> Users {
        Users {
            users: Vec::new(alloc),
        }
    }

    fn add(&mut self, alloc: Global, key: &str, name: &str) -> Result<(), AllocError> {
        let key = Text::new(alloc, key)?;
        let name = Text::new(alloc, name)?;
        self.users.push(User { key, name })?;
        Ok(())
    }

    // What is told of the user with this key: nothing of one without a name.
    fn told(&self, alloc: Global, key: &Key) -> Result<Extra, AllocError> {
        for other in &self.users {
            if other.key.as_str() == key.as_str() {
                return user_member(alloc, other.name.as_str());
            }
        }
        Ok(Extra::none(alloc))
    }
}

// Whether the state of `u1` and `u2` is rendered so.
fn renders_two<H: PresenceHooks>(alloc: Global, hooks: &H, want: &str) -> bool {
    let Some(topic) = lobby(alloc) else {
        return false;
    };
    let Some(rows) = rows_of(alloc, &[("u1", 1, 1), ("u2", 2, 2)]) else {
        return false;
    };
    is_rendered(
        alloc,
        render_state(alloc, hooks, 0, &topic, rows.as_slice()),
        want,
    )
}

#[test]
fn names_from_a_table_of_the_closure(rt: HostRuntime) -> Result<(), Fail> {
    let alloc = rt.alloc();
    let mut users = Users::new(alloc);
    users.add(alloc, "u1", "Ann")?;
    users.add(alloc, "u2", "Bob")?;
    let fetch: Fetch = Box::new(
        alloc,
        move |_: u32, _: &Topic, key: &Key| users.told(alloc, key),
    )?;
    let quiet: Tell = Box::new(
        alloc,
        move |_: u32, _: &Topic, _: &Key, _: &Dot| Ok(Notice::empty(alloc)),
    )?;
    let silent: Tell = Box::new(
        alloc,
        move |_: u32, _: &Topic, _: &Key, _: &Dot| Ok(Notice::empty(alloc)),
    )?;
    let hooks = Hooks::new(fetch, quiet, silent);
    let named =
        r#"{"u1":{"metas":[{"phx_ref":"a.1.1","x":1}],"user":{"n":"Ann"}},"u2":{"metas":[{"phx_ref":"a.1.2","x":2}],"user":{"n":"Bob"}}}"#;
    assert!(rt; renders_two(alloc, &hooks, named));
    Ok(())
}

// Tells each user's key as the name, and notes nothing.
struct Keys;

impl PresenceHooks for Keys {
    ghost use Rattle.std.specs.Prelude.{false, true};

    ghost fetched = { λ h kind topic key e. Unit {0} };

    ghost joined = { λ h kind topic key dot n. Unit {0} };

    ghost left = { λ h kind topic key dot n. Unit {0} };

    ghost plain = { λ h. false };

    ghost quiet = { λ h. true };

    ghost plain_adds_nothing = { λ h kind topic key p. tt };

    fn fetch(
        &self,
        alloc: Global,
        _kind: u32,
        _topic: &Topic,
        key: &Key,
    ) -> Result<Extra, AllocError> {
        user_member(alloc, key.as_str())
    }

    fn on_join(
        &self,
        alloc: Global,
        _kind: u32,
        _topic: &Topic,
        _key: &Key,
        _dot: &Dot,
    ) -> Result<Notice, AllocError> {
        Ok(Notice::empty(alloc))
    }

    fn on_leave(
        &self,
        alloc: Global,
        _kind: u32,
        _topic: &Topic,
        _key: &Key,
        _dot: &Dot,
    ) -> Result<Notice, AllocError> {
        Ok(Notice::empty(alloc))
    }

    fn is_plain(&self) -> bool {
        false
    }

    fn is_quiet(&self) -> bool {
        true
    }
}

#[test]
fn hooks_of_a_struct_of_its_own(rt: HostRuntime) -> Result<(), Fail> {
    let named =
        r#"{"u1":{"metas":[{"phx_ref":"a.1.1","x":1}],"user":{"n":"u1"}},"u2":{"metas":[{"phx_ref":"a.1.2","x":2}],"user":{"n":"u2"}}}"#;
    assert!(rt; renders_two(rt.alloc(), &Keys, named));
    Ok(())
}

// Nothing is added, but want of memory is answered for the key that ends in this byte.
fn nothing_but_at(alloc: Global, key: &Key, refused: u8) -> Result<Extra, AllocError> {
    match key.as_str().as_bytes().last() {
        Some(byte) if *byte == refused => Err(AllocError),
        _ => Ok(Extra::none(alloc)),
    }
}

// The diff in which `u1` and `u2` join and `u3` leaves.
fn three_keys(alloc: Global) -> Option<RowDiff> {
    let joins = Rows::new(rows_of(alloc, &[("u1", 1, 1), ("u2", 2, 2)])?);
    let leaves = Rows::new(rows_of(alloc, &[("u3", 3, 3)])?);
    Some(RowDiff { joins, leaves })
}

// Whether the state of its joins is refused, and whether the diff is.
fn refusals<H: PresenceHooks>(alloc: Global, hooks: &H) -> Option<(bool, bool)> {
    let topic = lobby(alloc)?;
    let diff = three_keys(alloc)?;
    let state = render_state(alloc, hooks, 0, &topic, diff.joins.as_slice()).is_err();
    Some((state, render_diff(alloc, hooks, 0, &topic, &diff).is_err()))
}

// Each key is asked for once: the first call is that of `u1`, the second of `u2`, the third of `u3`.
#[test]
fn a_refused_fetch_refuses_its_frame(rt: HostRuntime) -> Result<(), Fail> {
    let alloc = rt.alloc();
    let rows = [
        (b'1', true, true),
        (b'2', true, true),
        (b'3', false, true),
        (b'4', false, false),
    ];
    for (refused, state, diff) in rows {
        let fetch: Fetch = Box::new(
            alloc,
            move |_: u32, _: &Topic, key: &Key| nothing_but_at(alloc, key, refused),
        )?;
        let quiet: Tell = Box::new(
            alloc,
            move |_: u32, _: &Topic, _: &Key, _: &Dot| Ok(Notice::empty(alloc)),
        )?;
        let silent: Tell = Box::new(
            alloc,
            move |_: u32, _: &Topic, _: &Key, _: &Dot| Ok(Notice::empty(alloc)),
        )?;
        let hooks = Hooks::new(fetch, quiet, silent);
        assert_eq!(rt; refusals(alloc, &hooks), Some((state, diff)), "{refused}");
    }
    Ok(())
}
