//! Members of an extra, and their limits.
use hook_registry::{Extra, Notice};
use serde_json::Value;
use std::alloc::Global;
use std::test::Fail;

// Members of these names, each with the value of this text.
fn members_of(alloc: Global, names: &[&str], value: &str) -> Option<Vec<(String, Value)>> {
    let mut members = Vec::new(alloc);
    for name in names {
        let Ok(name) = String::from_str(alloc, name) else {
            return None;
        };
        let Ok(value) = Value::from_str(alloc, value) else {
            return None;
        };
        let Ok(()) = members.push((name, value)) else {
            return None;
        };
    }
    Some(members)
}

// Whether such members are an extra, where memory lasts.
fn is_extra(alloc: Global, names: &[&str], value: &str) -> Option<bool> {
    let members = members_of(alloc, names, value)?;
    let Ok(extra) = Extra::new(alloc, members) else {
        return None;
    };
    Some(extra.is_some())
}

// A text of so many `a`s.
fn letters(alloc: Global, count: usize) -> Option<String> {
    let mut text = String::new(alloc);
    for _ in 0..count {
        let Ok(()) = text.push('a') else {
            return None;
        };
    }
    Some(text)
}

const NAMES: [&str; 17] = [
    "a", "b", "c", "d", "e", "f", "g", "h", "i", "j", "k", "l", "m", "n", "o", "p", "q",
];

#[test]
fn members_of_an_extra_are_within_the_limits(rt: HostRuntime) -> Result<(), Fail> {
    let alloc = rt.alloc();
    assert_eq!(rt; is_extra(alloc, &[], "1"), Some(true));
    assert_eq!(rt;
        is_extra(alloc, &["user", "phx_ref"], r#"{"n":"Ann"}"#),
        Some(true)
    );
    assert_eq!(rt; is_extra(alloc, &NAMES[..16], "1"), Some(true));
    assert_eq!(rt; is_extra(alloc, &NAMES, "1"), Some(false));
    assert_eq!(rt; is_extra(alloc, &["user", "metas"], "1"), Some(false));
    assert_eq!(rt; is_extra(alloc, &["user", "age", "user"], "1"), Some(false));
    assert_eq!(rt; is_extra(alloc, &[""], "1"), Some(false));
    assert_eq!(rt; is_extra(alloc, &["user"], "1.5"), Some(false));
    Ok(())
}

// Whether a member with a name of so many bytes is an extra.
fn is_extra_name(alloc: Global, bytes: usize) -> Option<bool> {
    let name = letters(alloc, bytes)?;
    is_extra(alloc, &[name.as_str()], "1")
}

#[test]
fn names_have_up_to_64_bytes(rt: HostRuntime) -> Result<(), Fail> {
    let alloc = rt.alloc();
    assert_eq!(rt; is_extra_name(alloc, 64), Some(true));
    assert_eq!(rt; is_extra_name(alloc, 65), Some(false));
    Ok(())
}

// An array within an array, so many in all.
fn nested(alloc: Global, depth: usize) -> Option<String> {
    let mut text = String::new(alloc);
    for bracket in ['[', ']'] {
        for _ in 0..depth {
            let Ok(()) = text.push(bracket) else {
                return None;
            };
        }
    }
    Some(text)
}

// Whether a member with a value so deep is an extra.
fn is_extra_depth(alloc: Global, depth: usize) -> Option<bool> {
    let value = nested(alloc, depth)?;
    is_extra(alloc, &["user"], value.as_str())
}

#[test]
fn values_are_up_to_32_deep(rt: HostRuntime) -> Result<(), Fail> {
    let alloc = rt.alloc();
    assert_eq!(rt; is_extra_depth(alloc, 32), Some(true));
    assert_eq!(rt; is_extra_depth(alloc, 33), Some(false));
    Ok(())
}

// Whether a text of so many bytes is a notice, which has that text.
fn is_notice(alloc: Global, bytes: usize) -> Option<bool> {
    let text = letters(alloc, bytes)?;
    let Ok(notice) = Notice::new(alloc, text.as_str()) else {
        return None;
    };
    Some(notice.is_some_and(|notice| notice.as_str() == text.as_str()))
}

#[test]
fn notices_have_up_to_256_bytes(rt: HostRuntime) -> Result<(), Fail> {
    let alloc = rt.alloc();
    assert_eq!(rt; is_notice(alloc, 0), Some(true));
    assert_eq!(rt; is_notice(alloc, 256), Some(true));
    assert_eq!(rt; is_notice(alloc, 257), Some(false));
    Ok(())
}
