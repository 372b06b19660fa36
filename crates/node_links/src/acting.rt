//! `act`: the actions of a line, each a call of the port.
ghost use Rattle.std.specs.Prelude.{◌≡◌};
ghost use Rattle.node_links.specs.Acting.{Acts, Does, Downs, IsAsked};

use crate::act_outcome::Act;
use crate::action::LinkAction;
use crate::port::{ActFault, LinkPort};
use crate::turn::{Turn, answer_told, answer_top, answers, gives_up, next, unless_gone};
use orswot_core::{Form, Told};
use presence_base::Replica;
use std::alloc::Global;

/// Does these actions, in their order. A refusal of the port ends them: the calls before it stand, and
/// nothing is answered. Of several answers the last one stands.
pub fn act<P: LinkPort>(
    alloc: Global,
    port: &mut P,
    actions: Vec<LinkAction>,
) -> Result<Act, ActFault>
    ensures { Acts P.step P.shard_count actions.items port.old port.new result }
{
    let mut act = Act {
        answer: None,
        given_up: false,
        untold: None,
    };
    for action in actions {
        match do_one(alloc, port, action, act)? {
            Turn::Next(next) => act = next,
            Turn::Last(last) => return Ok(last),
        }
    }
    Ok(act)
}

// One action, behind what is answered so far.
fn do_one<P: LinkPort>(
    alloc: Global,
    port: &mut P,
    action: LinkAction,
    act: Act,
) -> Result<Turn, ActFault>
    ensures { Does P.step P.shard_count action act port.old port.new result }
{
    match action {
        LinkAction::UnlessGone { shard, replica } => {
            unless_gone(port.status(alloc, shard, &replica), act, replica)
        },
        LinkAction::Heard {
            shard,
            replica,
            now,
        } => next(port.heard(alloc, shard, replica, now), act),
        LinkAction::Merge { shard, told } => next(port.merge(alloc, shard, told), act),
        LinkAction::PermDown { replica } => next(permdown(alloc, port, &replica), act),
        LinkAction::AnswerTop {
            shard,
            replica,
            count,
        } => {
            let top = port.top(alloc, shard, &replica);
            answer_top(top, act, shard, replica, count)
        },
        LinkAction::AnswerTold { shard, from, form } => {
            let told = asked(alloc, port, shard, from, form);
            answer_told(told, act, shard, form)
        },
        LinkAction::Answer(line) => Ok(Turn::Next(answers(act, line))),
        LinkAction::GivenUp => Ok(Turn::Next(gives_up(act))),
    }
}

// The replica is put down on every shard, up to the first that refuses.
fn permdown<P: LinkPort>(alloc: Global, port: &mut P, replica: &Replica) -> Result<(), ActFault>
    ensures { Downs P.step replica.now (P.shard_count port.old) 0 port.old port.new result }
{
    for shard in 0..port.shards() {
        port.permdown(alloc, shard, *replica)?;
    }
    Ok(())
}

// What the shard counted itself above a count, or all of it, in the form.
fn asked<P: LinkPort>(
    alloc: Global,
    port: &mut P,
    shard: u32,
    from: Option<u64>,
    form: Form,
) -> Result<Option<Told>, ActFault>
    ensures { IsAsked P.step shard from form port.old port.new result }
{
    match from {
        Some(from) => port.told_from(alloc, shard, from, form),
        None => port.full(alloc, shard, form),
    }
}
