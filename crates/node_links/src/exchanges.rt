// What each line asks for.
ghost use Rattle.std.specs.Prelude.{◌≡◌, ◌++◌, ◌∷◌, [], cond, Some, None, Ok, OnOk, IfErr, option_map};
ghost use Rattle.presence_base.specs.Order.{same_replica};
ghost use Rattle.link_lines.specs.declared.fault.LinkFault.TheVariants.{OutOfMemory};
ghost use Rattle.link_lines.specs.declared.lines.Line.TheVariants as lines_are;
ghost use Rattle.link_lines.specs.Results.{Adds, Gives};
ghost use Rattle.node_links.specs.Exchanges.{answer as answer_of, greeting_by as greeting_of, heard as heard_of, merge as merge_of, is_told_in as is_told_in_form, is_theirs as is_of_theirs, on_beat as on_beat_of, on_told as on_told_of, of_theirs, on_permdown as on_permdown_of, on_gone as on_gone_of, later as later_of};

use crate::action::LinkAction;
use crate::forms::version_of;
use crate::owns::Owns;
use crate::peer::End;
use link_lines::{Line, LinkFault, Telling};
use orswot_core::Form;
use presence_base::Replica;
use std::alloc::Global;

fn is_same(a: &Replica, b: &Replica) -> bool
    ensures { result ≡ same_replica a.now b.now }
{
    a.cmp(b).is_eq()
}

// Whether a replica is a life of the node at the other end.
fn is_theirs(other: &Replica, replica: &Replica) -> bool
    ensures { result ≡ is_of_theirs other.now replica.now }
{
    replica.name.cmp(&other.name).is_eq()
}

// Whether nothing is told, or in the link's form.
fn is_told_in(form: Form, told: &Option<Telling>) -> bool
    ensures { result ≡ is_told_in_form form told.now }
{
    match told {
        Some(telling) => telling.form == form,
        None => true,
    }
}

fn push(actions: &mut Vec<LinkAction>, action: LinkAction) -> Result<(), LinkFault>
    ensures { Adds actions.old.items actions.new.items action result }
{
    match actions.push(action) {
        Ok(()) => Ok(()),
        Err(_) => Err(LinkFault::OutOfMemory),
    }
}

fn one(alloc: Global, action: LinkAction) -> Result<Vec<LinkAction>, LinkFault>
    ensures { Gives (λ v. v.items) result (Ok (action ∷ [])) }
{
    let mut actions = Vec::new(alloc);
    push(&mut actions, action)?;
    Ok(actions)
}

fn two(alloc: Global, first: LinkAction, second: LinkAction) -> Result<Vec<LinkAction>, LinkFault>
    ensures { Gives (λ v. v.items) result (Ok (first ∷ second ∷ [])) }
{
    let mut actions = one(alloc, first)?;
    push(&mut actions, second)?;
    Ok(actions)
}

fn answer(alloc: Global, line: Line) -> Result<Vec<LinkAction>, LinkFault>
    ensures { Gives (λ v. v.items) result (Ok (answer_of line)) }
{
    one(alloc, LinkAction::Answer(line))
}

// What answers the first line, a hello.
pub(crate) fn greeting(
    alloc: Global,
    own: Replica,
    shards: u32,
    end: End,
    form: Form,
) -> Result<Vec<LinkAction>, LinkFault>
    ensures { Gives (λ v. v.items) result (Ok (greeting_of own shards end form)) }
{
    match end {
        End::Accepting => answer(
            alloc,
            Line::Hello {
                replica: own,
                shards,
                version: version_of(form),
            },
        ),
        End::Dialling => Ok(Vec::new(alloc)),
    }
}

// The shard takes in what is told, where something is.
fn push_merge(
    actions: &mut Vec<LinkAction>,
    shard: u32,
    delta: Option<Telling>,
) -> Result<(), LinkFault>
    ensures ok { OnOk result (actions.new.items ≡ actions.old.items ++ merge_of shard delta) }
    ensures err { IfErr result (λ e. e ≡ OutOfMemory) }
{
    match delta {
        Some(telling) => push(
            actions,
            LinkAction::Merge {
                shard,
                told: telling.told,
            },
        ),
        None => Ok(()),
    }
}

// The replica was heard, unless it is gone.
pub(crate) fn heard(
    alloc: Global,
    shard: u32,
    replica: &Replica,
    now: u64,
) -> Result<Vec<LinkAction>, LinkFault>
    ensures { Gives (λ v. v.items) result (Ok (heard_of now shard replica.now)) }
{
    let unless_gone = LinkAction::UnlessGone {
        shard,
        replica: *replica,
    };
    let heard = LinkAction::Heard {
        shard,
        replica: *replica,
        now,
    };
    two(alloc, unless_gone, heard)
}

// What a beat tells.
#[derive(Drop)]
struct Beat {
    shard: u32,
    replica: Replica,
    count: u64,
    delta: Option<Telling>,
}

fn on_beat(alloc: Global, beat: Beat, now: u64) -> Result<Vec<LinkAction>, LinkFault>
    ensures { Gives (λ v. v.items) result (Ok (on_beat_of now beat.shard beat.replica beat.count beat.delta)) }
{
    let Beat {
        shard,
        replica,
        count,
        delta,
    } = beat;
    let mut actions = heard(alloc, shard, &replica, now)?;
    push_merge(&mut actions, shard, delta)?;
    let answer = LinkAction::AnswerTop {
        shard,
        replica,
        count,
    };
    push(&mut actions, answer)?;
    Ok(actions)
}

// A beat of the node at the other end, or of the shard's own replica.
fn on_any_beat(
    alloc: Global,
    owns: &Owns,
    other: (Replica, Form),
    beat: Beat,
    now: u64,
) -> Result<Vec<LinkAction>, LinkFault>
    ensures { Gives (λ v. v.items) result (later_of owns.now.node (option_map (λ v. v.items) owns.now.shards) other now
        (lines_are.Beat beat.shard beat.replica beat.count beat.delta)) }
{
    let (theirs, form) = other;
    if !is_told_in(form, &beat.delta) {
        return Err(LinkFault::BadLine);
    }
    if is_same(&beat.replica, &owns.at(beat.shard)) {
        return answer(alloc, Line::Ok);
    }
    if !is_theirs(&theirs, &beat.replica) {
        return Err(LinkFault::BadLine);
    }
    on_beat(alloc, beat, now)
}

// What is wanted: above the top where that is the shard's own.
fn wanted_from(own: &Replica, replica: &Replica, top: u64) -> Option<u64>
    ensures { result ≡ cond (same_replica replica.now own.now) (Some top) None }
{
    if is_same(replica, own) {
        Some(top)
    } else {
        None
    }
}

fn on_told(alloc: Global, shard: u32, telling: Telling) -> Result<Vec<LinkAction>, LinkFault>
    ensures { Gives (λ v. v.items) result (Ok (on_told_of shard telling)) }
{
    let merge = LinkAction::Merge {
        shard,
        told: telling.told,
    };
    two(alloc, merge, LinkAction::Answer(Line::Ok))
}

fn on_permdown(
    alloc: Global,
    own: &Replica,
    other: &Replica,
    replica: Replica,
) -> Result<Vec<LinkAction>, LinkFault>
    ensures { Gives (λ v. v.items) result (of_theirs own.now other.now replica (on_permdown_of replica)) }
{
    if is_same(&replica, own) {
        return answer(alloc, Line::Ok);
    }
    if !is_theirs(other, &replica) {
        return Err(LinkFault::BadLine);
    }
    let permdown = LinkAction::PermDown { replica };
    two(alloc, permdown, LinkAction::Answer(Line::Ok))
}

fn on_gone(alloc: Global, own: &Replica, replica: &Replica) -> Result<Vec<LinkAction>, LinkFault>
    ensures { Gives (λ v. v.items) result (Ok (on_gone_of own.now replica.now)) }
{
    if is_same(replica, own) {
        return one(alloc, LinkAction::GivenUp);
    }
    Ok(Vec::new(alloc))
}

// A line behind the hello, at the node that is this, where that one is at the other end of a link of that form.
pub(crate) fn later(
    alloc: Global,
    owns: &Owns,
    other: (Replica, Form),
    line: Line,
    now: u64,
) -> Result<Vec<LinkAction>, LinkFault>
    ensures { Gives (λ v. v.items) result
        (later_of owns.now.node (option_map (λ v. v.items) owns.now.shards) other now line) }
{
    let (theirs, form) = other;
    match line {
        Line::Hello { .. } => Err(LinkFault::BadLine),
        Line::Beat {
            shard,
            replica,
            count,
            delta,
        } => {
            let beat = Beat {
                shard,
                replica,
                count,
                delta,
            };
            on_any_beat(alloc, owns, other, beat, now)
        },
        Line::Want {
            shard,
            replica,
            top,
        } => {
            let from = wanted_from(&owns.at(shard), &replica, top);
            one(alloc, LinkAction::AnswerTold { shard, from, form })
        },
        Line::Told { shard, told } => {
            if told.form != form {
                return Err(LinkFault::BadLine);
            }
            on_told(alloc, shard, told)
        },
        Line::PermDown { replica } => on_permdown(alloc, &owns.node, &theirs, replica),
        Line::Gone { replica } => on_gone(alloc, &owns.node, &replica),
        Line::Ok => Ok(Vec::new(alloc)),
    }
}
