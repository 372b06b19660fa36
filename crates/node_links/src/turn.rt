// What an action comes to.
ghost use Rattle.std.specs.Prelude.{◌≡◌};
ghost use Rattle.node_links.specs.declared.turn.Turn.TheVariants as turns_are;
ghost use Rattle.node_links.specs.Acting.{answers as answers_of, gives_up as gives_up_of, leaves_untold as leaves_untold_of, unless_gone as unless_gone_of, asks_for, tells, comes_to, wanted as wanted_of};

use crate::act_outcome::Act;
use crate::port::ActFault;
use link_lines::{Line, Telling};
use orswot_core::{Form, Told};
use presence_base::Replica;
use replica_status::Status;

/// What is answered behind an action, and whether the actions that follow are done.
#[derive(Drop)]
pub(crate) enum Turn {
    Next(Act),
    Last(Act),
}

// This line is answered.
pub(crate) fn answers(act: Act, line: Line) -> Act
    ensures { result ≡ answers_of act line }
{
    Act {
        answer: Some(line),
        given_up: act.given_up,
        untold: act.untold,
    }
}

pub(crate) fn gives_up(act: Act) -> Act
    ensures { result ≡ gives_up_of act }
{
    Act {
        answer: act.answer,
        given_up: true,
        untold: act.untold,
    }
}

// No line takes what is wanted of the shard.
fn leaves_untold(act: Act, shard: u32) -> Act
    ensures { result ≡ leaves_untold_of act shard }
{
    Act {
        answer: act.answer,
        given_up: act.given_up,
        untold: Some(shard),
    }
}

// A call that gives nothing.
pub(crate) fn next(done: Result<(), ActFault>, act: Act) -> Result<Turn, ActFault>
    ensures { result ≡ comes_to (λ _. turns_are.Next act) done }
{
    match done {
        Ok(()) => Ok(Turn::Next(act)),
        Err(fault) => Err(fault),
    }
}

fn turn_at(status: Status, act: Act, replica: Replica) -> Turn
    ensures { result ≡ unless_gone_of act replica status }
{
    match status {
        Status::Gone => Turn::Last(answers(act, Line::Gone { replica })),
        Status::Unheard | Status::Up | Status::Down => Turn::Next(act),
    }
}

// A replica that is gone is told so.
pub(crate) fn unless_gone(
    status: Result<Status, ActFault>,
    act: Act,
    replica: Replica,
) -> Result<Turn, ActFault>
    ensures { result ≡ comes_to (unless_gone_of act replica) status }
{
    match status {
        Ok(status) => Ok(turn_at(status, act, replica)),
        Err(fault) => Err(fault),
    }
}

fn wanted(shard: u32, replica: Replica, count: u64, top: u64) -> Line
    ensures { result ≡ wanted_of shard replica count top }
{
    if top < count {
        Line::Want {
            shard,
            replica,
            top,
        }
    } else {
        Line::Ok
    }
}

// What lies above the top is wanted, up to the count.
pub(crate) fn answer_top(
    top: Result<u64, ActFault>,
    act: Act,
    shard: u32,
    replica: Replica,
    count: u64,
) -> Result<Turn, ActFault>
    ensures { result ≡ comes_to (asks_for act shard replica count) top }
{
    match top {
        Ok(top) => Ok(Turn::Next(answers(act, wanted(shard, replica, count, top)))),
        Err(fault) => Err(fault),
    }
}

// What the shard tells in the form is answered, where a line takes it.
pub(crate) fn answer_told(
    told: Result<Option<Told>, ActFault>,
    act: Act,
    shard: u32,
    form: Form,
) -> Result<Turn, ActFault>
    ensures { result ≡ comes_to (tells act shard form) told }
{
    match told {
        Ok(Some(told)) => {
            let told = Telling { form, told };
            Ok(Turn::Next(answers(act, Line::Told { shard, told })))
        },
        Ok(None) => Ok(Turn::Next(leaves_untold(act, shard))),
        Err(fault) => Err(fault),
    }
}
