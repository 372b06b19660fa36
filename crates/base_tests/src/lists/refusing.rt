//! Closures that refuse memory.
use super::fetching::user_member;
use super::noting::note;
use super::rows::{lobby, rows_of};
use hook_registry::{Extra, Notice, PresenceHooks, notices, render_diff, render_state};
use presence_base::{Dot, Key, Topic};
use presence_journal::{RowDiff, Rows};
use std::alloc::{AllocError, Global};
use std::cell::Cell;
use std::test::Fail;

// Names each user by the key and notes each row, but refuses memory at the call of one number, from 1.
#[derive(Drop)]
struct Refusing {
    refused: u32,
    calls: Cell<u32>,
}

impl Refusing {
    fn new(refused: u32) -> Refusing {
        Refusing {
            refused,
            calls: Cell::new(0),
        }
    }

    // Counts a call, and refuses that of the number.
    fn count(&self) -> Result<(), AllocError> {
        let call = self.calls.get().saturating_add(1);
        self.calls.set(call);
        if call == self.refused {
            return Err(AllocError);
        }
        Ok(())
    }
}

impl PresenceHooks for Refusing {
    ghost use Rattle.std.specs.Prelude.{false};

    ghost fetched = { λ h kind topic key e. Unit {0} };

    ghost joined = { λ h kind topic key dot n. Unit {0} };

    ghost left = { λ h kind topic key dot n. Unit {0} };

    ghost plain = { λ h. false };

    ghost quiet = { λ h. false };

    ghost plain_adds_nothing = { λ h kind topic key p. tt };

    fn fetch(
        &self,
        alloc: Global,
        _kind: u32,
        _topic: &Topic,
        key: &Key,
    ) -> Result<Extra, AllocError> {
        self.count()?;
        user_member(alloc, key.as_str())
    }

    fn on_join(
        &self,
        alloc: Global,
        _kind: u32,
        _topic: &Topic,
        _key: &Key,
        dot: &Dot,
    ) -> Result<Notice, AllocError> {
        self.count()?;
        note(alloc, "join", dot)
    }

    fn on_leave(
        &self,
        alloc: Global,
        _kind: u32,
        _topic: &Topic,
        _key: &Key,
        dot: &Dot,
    ) -> Result<Notice, AllocError> {
        self.count()?;
        note(alloc, "leave", dot)
    }

    fn is_plain(&self) -> bool {
        false
    }

    fn is_quiet(&self) -> bool {
        false
    }
}

// The diff in which `u1` joins twice and `u2` once, and `u3` leaves.
fn three_keys(alloc: Global) -> Option<RowDiff> {
    let joins = rows_of(alloc, &[("u1", 1, 1), ("u1", 2, 2), ("u2", 3, 3)])?;
    let leaves = rows_of(alloc, &[("u3", 4, 4)])?;
    Some(RowDiff {
        joins: Rows::new(joins),
        leaves: Rows::new(leaves),
    })
}

// The text of the state of the joins, where memory lasts.
fn state_text(alloc: Global, hooks: &Refusing, topic: &Topic, diff: &RowDiff) -> Option<String> {
    match render_state(alloc, hooks, 0, topic, diff.joins.as_slice()) {
        Ok(value) => value.to_string(alloc).ok(),
        Err(_) => None,
    }
}

// The text of the diff, where memory lasts.
fn diff_text(alloc: Global, hooks: &Refusing, topic: &Topic, diff: &RowDiff) -> Option<String> {
    match render_diff(alloc, hooks, 0, topic, diff) {
        Ok(value) => value.to_string(alloc).ok(),
        Err(_) => None,
    }
}

// The notices of the diff, a line each, where memory lasts.
fn notice_text(alloc: Global, hooks: &Refusing, topic: &Topic, diff: &RowDiff) -> Option<String> {
    let Ok(notices) = notices(alloc, hooks, 0, topic, diff) else {
        return None;
    };
    let mut text = String::new(alloc);
    for notice in &notices {
        let Ok(line) = format!(in alloc; "{}\n", notice.as_str()) else {
            return None;
        };
        let Ok(()) = text.push_str(line.as_str()) else {
            return None;
        };
    }
    Some(text)
}

const STATE: &str =
    r#"{"u1":{"metas":[{"phx_ref":"a.1.1","x":1},{"phx_ref":"a.1.2","x":2}],"user":{"n":"u1"}},"u2":{"metas":[{"phx_ref":"a.1.3","x":3}],"user":{"n":"u2"}}}"#;

const LEFT: &str = r#"{"u3":{"metas":[{"phx_ref":"a.1.4","x":4}],"user":{"n":"u3"}}}"#;

const NOTES: &str = "join a.1.1\njoin a.1.2\njoin a.1.3\nleave a.1.4\n";

// Whether the call is refused where one of its first `asked` calls of the closures is, and else tells
// this; after a refusal the same call over the same rows tells it too.
fn is_refused_at_each<F: Fn(&Refusing) -> Option<String>>(asked: u32, want: &str, told: F) -> bool
    requires { F.IsAlwaysCallable told }
{
    for refused in 1..asked.saturating_add(2) {
        let hooks = Refusing::new(refused);
        let first = told(&hooks);
        let is_as_wanted = match first {
            Some(text) => refused > asked && text.as_str() == want,
            None => refused <= asked,
        };
        let again = told(&Refusing::new(0));
        if !is_as_wanted || !again.is_some_and(|text| text.as_str() == want) {
            return false;
        }
    }
    true
}

#[test]
fn the_kth_call_that_is_refused_refuses_its_object(rt: HostRuntime) -> Result<(), Fail> {
    let alloc = rt.alloc();
    let (Some(topic), Some(diff)) = (lobby(alloc), three_keys(alloc)) else {
        assert!(rt; false);
        return Ok(());
    };
    let both = format!(in alloc; r#"{{"joins":{STATE},"leaves":{LEFT}}}"#)?;
    assert!(rt; is_refused_at_each(2, STATE, |hooks| state_text(alloc, hooks, &topic, &diff)));
    assert!(rt;
        is_refused_at_each(
            3,
            both.as_str(),
            |hooks| diff_text(alloc, hooks, &topic, &diff)
        )
    );
    assert!(rt; is_refused_at_each(4, NOTES, |hooks| notice_text(alloc, hooks, &topic, &diff)));
    Ok(())
}
