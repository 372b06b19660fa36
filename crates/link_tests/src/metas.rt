//! Metas of told lines at their limits. They are limits of the compact text: of equal keys the last one counts alone, and
//! blanks and escapes count as they are written again.
use crate::accepting::is_line_refused;
use crate::desk::line;
use link_lines::{Line, LinkFault};
use orswot_core::ToldFault;
use std::alloc::{AllocError, Global};
use std::test::Fail;

// A told line with a row of this meta.
fn told_line(alloc: Global, meta: &str) -> Result<String, AllocError> {
    format!(in alloc;
        "[\"told\",0,[[[\"b\",1,0,1]],[],[[\"b\",1,1,\"room:a\",\"u2\",5,{meta},null]]]]"
    )
}

// Whether the line tells one row, whose meta has that text.
fn tells_meta(line: &Line, text: &str) -> bool {
    let Line::Told { told, .. } = line else {
        return false;
    };
    match told.told.live() {
        [(_, row)] => row.meta.text() == text,
        _ => false,
    }
}

// Whether the line is taken, and the meta has that text.
fn is_taken(alloc: Global, meta: &str, text: &str) -> Result<bool, AllocError> {
    let told = told_line(alloc, meta)?;
    match line(alloc, told.as_str()) {
        Ok(line) => Ok(tells_meta(&line, text)),
        Err(_) => Ok(false),
    }
}

// Whether the line is refused, since a row is outside its limits.
fn is_outside(alloc: Global, meta: &str) -> Result<bool, AllocError> {
    let told = told_line(alloc, meta)?;
    let fault = LinkFault::BadTold(ToldFault::RowLimits);
    Ok(is_line_refused(alloc, told.as_str(), fault))
}

// A meta of eight bytes more than the letters.
fn lettered(alloc: Global, letters: usize) -> Result<String, AllocError> {
    let letters = "a".repeat(alloc, letters)?;
    format!(in alloc; "{{\"a\":\"{letters}\"}}")
}

// So many arrays, one in the other.
fn nested(alloc: Global, arrays: usize) -> Result<String, AllocError> {
    let opened = "[".repeat(alloc, arrays)?;
    let closed = "]".repeat(alloc, arrays)?;
    format!(in alloc; "{opened}{closed}")
}

#[test]
fn a_meta_has_16384_bytes_at_most(rt: HostRuntime) -> Result<(), Fail> {
    let alloc = rt.alloc();
    let most = lettered(alloc, 16_376)?;
    assert!(rt; is_taken(alloc, most.as_str(), most.as_str())?);
    let longer = lettered(alloc, 16_377)?;
    assert!(rt; is_outside(alloc, longer.as_str())?);
    Ok(())
}

#[test]
fn a_meta_has_depth_32_at_most(rt: HostRuntime) -> Result<(), Fail> {
    let alloc = rt.alloc();
    let arrays = nested(alloc, 31)?;
    let deepest = format!(in alloc; "{{\"a\":{arrays}}}")?;
    assert!(rt; is_taken(alloc, deepest.as_str(), deepest.as_str())?);
    let deeper = format!(in alloc; "{{\"a\":[{arrays}]}}")?;
    assert!(rt; is_outside(alloc, deeper.as_str())?);
    Ok(())
}

#[test]
fn of_equal_keys_the_last_one_counts(rt: HostRuntime) -> Result<(), Fail> {
    let alloc = rt.alloc();
    let letters = "a".repeat(alloc, 16_385)?;
    let long = format!(in alloc; "\"{letters}\"")?;
    let deep = nested(alloc, 32)?;
    for member in ["1.5", long.as_str(), deep.as_str()] {
        let before = format!(in alloc; "{{\"a\":{member},\"a\":1}}")?;
        assert!(rt; is_taken(alloc, before.as_str(), "{\"a\":1}")?);
        let behind = format!(in alloc; "{{\"a\":1,\"a\":{member}}}")?;
        assert!(rt; is_outside(alloc, behind.as_str())?);
    }
    Ok(())
}

#[test]
fn blanks_and_escapes_count_as_they_are_written_again(rt: HostRuntime) -> Result<(), Fail> {
    let alloc = rt.alloc();
    let blanks = " ".repeat(alloc, 20_000)?;
    let wide = format!(in alloc; "{{{blanks}\"b\":1,\"a\":{blanks}2}}")?;
    assert!(rt; is_taken(alloc, wide.as_str(), "{\"a\":2,\"b\":1}")?);
    let escaped = "\\u0061".repeat(alloc, 16_376)?;
    let meta = format!(in alloc; "{{\"a\":\"{escaped}\"}}")?;
    let written = lettered(alloc, 16_376)?;
    assert!(rt; is_taken(alloc, meta.as_str(), written.as_str())?);
    let longer = format!(in alloc; "{{\"a\":\"{escaped}a\"}}")?;
    assert!(rt; is_outside(alloc, longer.as_str())?);
    Ok(())
}

// A meta of so many members, named `k100` and on.
fn numbered(alloc: Global, members: usize) -> Result<String, AllocError> {
    let mut text = String::from_str(alloc, "{")?;
    for number in 0..members {
        let parted = if number == 0 { "" } else { "," };
        let name = number.saturating_add(100);
        let member = format!(in alloc; "{parted}\"k{name}\":{number}")?;
        text.push_str(member.as_str())?;
    }
    text.push('}')?;
    Ok(text)
}

#[test]
fn a_meta_has_as_many_members_as_fit(rt: HostRuntime) -> Result<(), Fail> {
    let alloc = rt.alloc();
    for members in [64, 65, 100, 800] {
        let meta = numbered(alloc, members)?;
        assert!(rt; is_taken(alloc, meta.as_str(), meta.as_str())?);
    }
    Ok(())
}

// An array of so many zeros.
fn zeros(alloc: Global, count: usize) -> Result<String, AllocError> {
    let front = "0,".repeat(alloc, count.saturating_sub(1))?;
    format!(in alloc; "[{front}0]")
}

#[test]
fn members_that_are_replaced_leave_room_for_others(rt: HostRuntime) -> Result<(), Fail> {
    let alloc = rt.alloc();
    let long = zeros(alloc, 8_000)?;
    let before = format!(in alloc; "\"a\":{long},\"b\":{long},\"c\":{long},\"d\":{long}")?;
    let meta = format!(in alloc;
        "{{{before},\"e\":{long},\"f\":[{long}],\"f\":0,\"a\":1,\"b\":2,\"c\":3,\"d\":4}}"
    )?;
    let written = format!(in alloc; "{{\"a\":1,\"b\":2,\"c\":3,\"d\":4,\"e\":{long},\"f\":0}}")?;
    assert!(rt; is_taken(alloc, meta.as_str(), written.as_str())?);
    let crowded = format!(in alloc; "{{{before},\"a\":1,\"b\":2}}")?;
    assert!(rt; is_outside(alloc, crowded.as_str())?);
    Ok(())
}
