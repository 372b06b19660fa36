//! The worked lines of node `b` with two shards, read and written back.
use crate::desk::ONE;
use link_lines::{Line, decode_line, encode_line};
use std::alloc::Global;
use std::test::Fail;

pub(super) const WORKED: [&str; 6] = [
    r#"["hello","b",1,2]"#,
    r#"["beat",0,"b",1,1,[[["b",1,0,1]],[],[["b",1,1,"room:a","u2",5,{"x":1},null]]]]"#,
    r#"["beat",0,"b",1,2,[[["b",1,1,2]],[["b",1,1]],[]]]"#,
    r#"["beat",0,"b",1,2,null]"#,
    r#"["want",0,"b",1,1]"#,
    r#"["told",0,[[["b",1,0,2]],[],[]]]"#,
];

// The other kinds, a row that replaced another, and the greatest numbers.
const OTHERS: [&str; 5] = [
    r#"["permdown","b",1]"#,
    r#"["gone","a",4611686018427387904]"#,
    r#"["ok"]"#,
    r#"["told",1,[[["b",1,0,4611686018427387904]],[],[["b",1,2,"room:b","u2",4611686018427387904,{},["b",1,1]]]]]"#,
    r#"["hello","abcdefghijklmnopqrstuvwxyz012345",4611686018427387904,2]"#,
];

// The text of the line that a text is.
fn written_again(alloc: Global, text: &str) -> Option<String> {
    let Ok(line) = decode_line(alloc, text, ONE) else {
        return None;
    };
    match encode_line(alloc, &line) {
        Ok(again) => Some(again),
        Err(_) => None,
    }
}

fn is_unchanged(alloc: Global, text: &str) -> bool {
    match written_again(alloc, text) {
        Some(again) => again.as_str() == text,
        None => false,
    }
}

#[test]
fn worked_lines_are_read_and_written_unchanged(rt: HostRuntime) -> Result<(), Fail> {
    for text in WORKED {
        assert!(rt; is_unchanged(rt.alloc(), text), "{text}");
    }
    Ok(())
}

#[test]
fn other_lines_are_read_and_written_unchanged(rt: HostRuntime) -> Result<(), Fail> {
    for text in OTHERS {
        assert!(rt; is_unchanged(rt.alloc(), text), "{text}");
    }
    Ok(())
}

// White space within a line is read, and not written.
#[test]
fn spaces_are_left_out(rt: HostRuntime) -> Result<(), Fail> {
    let again = written_again(rt.alloc(), "\t[ \"want\" , 0,\"b\",1, 1 ] \r");
    assert_eq!(rt; again.as_ref().map(|text| text.as_str()), Some(WORKED[4]));
    Ok(())
}

fn shown(line: &Line) -> (u64, u64) {
    match line {
        Line::Hello {
            replica,
            shards,
            ..
        } => (replica.incarnation, *shards as u64),
        Line::Beat { shard, count, .. } => (*shard as u64, *count),
        Line::Want { shard, top, .. } => (*shard as u64, *top),
        Line::Told { shard, told } => (*shard as u64, told.told.live().len() as u64),
        Line::PermDown { replica } | Line::Gone { replica } => (replica.incarnation, 0),
        Line::Ok => (0, 0),
    }
}

#[test]
fn members_are_in_their_places(rt: HostRuntime) -> Result<(), Fail> {
    let read = |text| match decode_line(rt.alloc(), text, ONE) {
        Ok(line) => Some(shown(&line)),
        Err(_) => None,
    };
    assert_eq!(rt; read(WORKED[0]), Some((1, 2)));
    assert_eq!(rt; read(WORKED[1]), Some((0, 1)));
    assert_eq!(rt; read(WORKED[3]), Some((0, 2)));
    assert_eq!(rt; read(WORKED[4]), Some((0, 1)));
    assert_eq!(rt; read(OTHERS[3]), Some((1, 1)));
    Ok(())
}
