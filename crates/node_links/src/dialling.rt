//! `dial`: an exchange as the end that dials.
ghost use Rattle.std.specs.Prelude.{◌≡◌};
ghost use Rattle.node_links.specs.Talking.{bare as bare_of, outcome_of as outcome, outcome_without as without, beside_in, untold, uncounted as uncounted_of, sent as sent_of, told_in, WritesBare, WritesGiven, AsksForAll, WritesTold, Tells, TellsAct, Exchanges, Dials, over};

use crate::act_outcome::Act;
use crate::fault::DialFault;
use crate::hearing::take_one;
use crate::lines::write_line;
use crate::link::Link;
use crate::outcome::{Exchanged, Untold, UntoldSize};
use crate::port::LinkPort;
use link_lines::{Line, LinkFault, Telling};
use orswot_core::{Form, Told};
use std::alloc::Global;
use std::io::{Read, Write};

// A beat without its delta.
fn bare(line: &Line) -> Option<Line>
    ensures { result ≡ bare_of line.now }
{
    match line {
        Line::Beat {
            shard,
            replica,
            count,
            ..
        } => Some(Line::Beat {
            shard: *shard,
            replica: *replica,
            count: *count,
            delta: None,
        }),
        _ => None,
    }
}

// Of a line that is too long: a beat goes out without its delta.
fn write_bare<W: Write>(alloc: Global, writer: &mut W, line: &Line) -> Result<(), LinkFault>
    ensures { WritesBare W.contents (bare_of line.now) writer.old writer.new result }
{
    match bare(line) {
        Some(beat) => write_line(alloc, writer, &beat),
        None => Err(LinkFault::LineTooLong),
    }
}

fn write_given<W: Write>(alloc: Global, writer: &mut W, line: &Line) -> Result<(), LinkFault>
    ensures { WritesGiven W.contents line.now writer.old writer.new result }
{
    match write_line(alloc, writer, line) {
        Err(LinkFault::LineTooLong) => write_bare(alloc, writer, line),
        written => written,
    }
}

// What is told of which shard, where something is.
fn told_of(answer: Option<Line>) -> Option<(u32, Telling)>
    ensures { result ≡ told_in answer }
{
    match answer {
        Some(Line::Told { shard, told }) => Some((shard, told)),
        _ => None,
    }
}

fn outcome_of(given_up: bool) -> Exchanged
    ensures { result ≡ outcome given_up }
{
    if given_up {
        Exchanged::GivenUp
    } else {
        Exchanged::Done
    }
}

// Where nothing is told: nothing was wanted, or nothing that a line takes.
fn outcome_without(given_up: bool, untold: Option<u32>) -> Exchanged
    ensures { result ≡ without given_up untold }
{
    match untold {
        Some(shard) if !given_up => Exchanged::Untold(uncounted(shard)),
        _ => outcome_of(given_up),
    }
}

fn beside(form: Form, told: &Told) -> usize
    ensures { result ≡ beside_in form told.now }
{
    match form {
        Form::One => told.extras().len(),
        Form::Two => told.ranges().len(),
    }
}

fn untold_of(shard: u32, telling: &Telling) -> Untold
    ensures { result ≡ untold shard telling.now }
{
    Untold {
        shard,
        size: Some(UntoldSize {
            rows: telling.told.live().len(),
            beside: beside(telling.form, &telling.told),
        }),
    }
}

// Of a shard that has more than a line takes.
fn uncounted(shard: u32) -> Untold
    ensures { result ≡ uncounted_of shard }
{
    Untold { shard, size: None }
}

// What stays untold where a line was written so: of one that went out, nothing.
fn sent(untold: Untold, written: Result<(), LinkFault>) -> Result<Option<Untold>, DialFault>
    ensures { result ≡ sent_of untold written }
{
    match written {
        Ok(()) => Ok(None),
        Err(LinkFault::LineTooLong) => Ok(Some(untold)),
        Err(fault) => Err(DialFault::Link(fault)),
    }
}

// All that is known of the shard goes out in the form, where it fits a line; else it is what stays untold.
fn write_all<W: Write, P: LinkPort>(
    alloc: Global,
    writer: &mut W,
    port: &mut P,
    shard: u32,
    form: Form,
) -> Result<Option<Untold>, DialFault>
    ensures { AsksForAll W.contents P.step shard form writer.old writer.new port.old port.new result }
{
    match port.full(alloc, shard, form) {
        Ok(None) => Ok(Some(uncounted(shard))),
        Ok(Some(told)) => {
            let told = Telling { form, told };
            let untold = untold_of(shard, &told);
            sent(
                untold,
                write_line(alloc, writer, &Line::Told { shard, told }),
            )
        },
        Err(fault) => Err(DialFault::Act(fault)),
    }
}

// What is told of the shard goes out, or where that is too long all that is known of it; else that is what stays untold.
pub(crate) fn write_told<W: Write, P: LinkPort>(
    alloc: Global,
    writer: &mut W,
    port: &mut P,
    shard: u32,
    told: Telling,
) -> Result<Option<Untold>, DialFault>
    ensures { WritesTold W.contents P.step shard told writer.old writer.new port.old port.new result }
{
    let form = told.form;
    match write_line(alloc, writer, &Line::Told { shard, told }) {
        Ok(()) => Ok(None),
        Err(LinkFault::LineTooLong) => write_all(alloc, writer, port, shard, form),
        Err(fault) => Err(DialFault::Link(fault)),
    }
}

// What is told goes out, and behind it one line more is read and heard.
fn tell<S: Read + Write, P: LinkPort>(
    alloc: Global,
    link: &mut Link<S>,
    port: &mut P,
    told: (u32, Telling),
    now: u64,
) -> Result<Exchanged, DialFault>
    ensures { Tells S.remaining S.contents P.step P.shard_count now told
        (over link.old port.old) (over link.new port.new) result }
{
    let (shard, told) = told;
    if let Some(untold) = write_told(alloc, &mut link.stream, port, shard, told)? {
        return Ok(Exchanged::Untold(untold));
    }
    match take_one(alloc, link, port, now)? {
        Some(act) => Ok(outcome_of(act.given_up)),
        None => Ok(Exchanged::Done),
    }
}

// Of what would be answered a told value alone goes out.
fn follow<S: Read + Write, P: LinkPort>(
    alloc: Global,
    link: &mut Link<S>,
    port: &mut P,
    act: Act,
    now: u64,
) -> Result<Exchanged, DialFault>
    ensures { TellsAct S.remaining S.contents P.step P.shard_count now act
        (over link.old port.old) (over link.new port.new) result }
{
    let Act {
        answer,
        given_up,
        untold,
    } = act;
    match told_of(answer) {
        Some(told) => tell(alloc, link, port, told, now),
        None => Ok(outcome_without(given_up, untold)),
    }
}

/// One exchange at the end that dialled, at a time in milliseconds: writes the line, reads one and does
/// what it asks for. Where that asks to be told something the told line is written, and one line more is
/// read and acted upon. No other answer is written.
///
/// An end between lines, where a line was to be read, ends the exchange well. A beat whose line is too
/// long, in bytes or in what it tells, goes out without its delta. In place of a told line that is too
/// long all that is known of the shard goes out; where that is too long as well nothing does, and it is
/// told so. Any other line that is too long is refused.
///
/// After a fault the link is to be closed; the calls of the port that were made stand, and what went out
/// is whole lines, and behind a failed write a part of the last one.
pub fn exchange<S: Read + Write, P: LinkPort>(
    alloc: Global,
    link: &mut Link<S>,
    port: &mut P,
    line: &Line,
    now: u64,
) -> Result<Exchanged, DialFault>
    ensures { Exchanges S.remaining S.contents P.step P.shard_count now line.now
        (over link.old port.old) (over link.new port.new) result }
{
    write_given(alloc, &mut link.stream, line)?;
    match take_one(alloc, link, port, now)? {
        Some(act) => follow(alloc, link, port, act, now),
        None => Ok(Exchanged::Done),
    }
}

/// The same exchange, of which it is told only whether this node's own incarnation is gone at the other
/// end.
pub fn dial<S: Read + Write, P: LinkPort>(
    alloc: Global,
    link: &mut Link<S>,
    port: &mut P,
    line: &Line,
    now: u64,
) -> Result<bool, DialFault>
    ensures { Dials S.remaining S.contents P.step P.shard_count now line.now
        (over link.old port.old) (over link.new port.new) result }
{
    match exchange(alloc, link, port, line, now) {
        Ok(outcome) => Ok(matches!(outcome, Exchanged::GivenUp)),
        Err(fault) => Err(fault),
    }
}
