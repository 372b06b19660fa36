// What an event makes of the lives, of who is present, and of what was told. Where memory runs out all of it is as it was.
ghost use Rattle.std.specs.Prelude.{◌≡◌, true, OnOk, OnErr, set};
ghost use Rattle.presence_journal.specs.Table.{is_step};
ghost use Rattle.node_world.specs.Lives.{seen};
ghost use Rattle.node_world.specs.Worlds.{world, ActsTo, AsksTo, CutsTo, PartsTo, TellsTo, DeliversTo, DeliversOthersTo, BeginsTo, RestartsTo, RebirthsTo};
ghost use Rattle.node_world.specs.World.{Happens};

use crate::event::Event;
use crate::life::Life;
use crate::lives;
use crate::steps::{is_callers, is_limited};
use crate::telling::Telling;
use orswot_core::Form;
use presence_base::{MAX_COUNT, Replica};
use presence_journal::Step;
use std::alloc::{AllocError, Global};
use std::collections::BTreeMap;

// Which node tells a part, from which count on, up to which one, in which form.
#[derive(Clone, Copy)]
struct PartWanted {
    node: usize,
    from: u64,
    to: Option<u64>,
    form: Form,
}

// The step of a node's present life.
#[tactic(auto, using(crate::proofs::Events::acting))]
fn act(
    lives: &mut BTreeMap<Replica, Life>,
    present: &[Replica],
    alloc: Global,
    node: usize,
    step: &Step,
) -> Result<(), AllocError>
    requires { is_step step.now ≡ true }
    ensures acts { OnOk result (ActsTo present.now (seen lives.old) node step.now (seen lives.new)) }
    ensures same { OnErr result (seen lives.new ≡ seen lives.old) }
{
    match present.get(node) {
        Some(own) => lives::step(lives, alloc, own, step),
        None => Ok(()),
    }
}

// A step that a caller asks for.
#[tactic(auto, using(crate::proofs::Events::acting))]
fn ask(
    lives: &mut BTreeMap<Replica, Life>,
    present: &[Replica],
    alloc: Global,
    node: usize,
    step: &Step,
) -> Result<(), AllocError>
    ensures asks { OnOk result (AsksTo present.now (seen lives.old) node step.now (seen lives.new)) }
    ensures same { OnErr result (seen lives.new ≡ seen lives.old) }
{
    if !is_callers(step) {
        return Ok(());
    }
    if !is_limited(step) {
        return Ok(());
    }
    act(lives, present, alloc, node, step)
}

// A node tells what it did since its last cut, in the form. The room to keep it is made first.
#[tactic(auto, using(crate::proofs::Events::cutting))]
fn cut(
    lives: &mut BTreeMap<Replica, Life>,
    present: &[Replica],
    told: &mut Vec<Telling>,
    alloc: Global,
    node: usize,
    form: Form,
) -> Result<(), AllocError>
    ensures cuts { OnOk result (CutsTo form present.now (seen lives.old) told.old.items node
        (seen lives.new) told.new.items) }
    ensures same { OnErr result (seen lives.new ≡ seen lives.old) }
    ensures kept { OnErr result (told.new.items ≡ told.old.items) }
{
    let Some(own) = present.get(node) else {
        return Ok(());
    };
    told.reserve(1)?;
    match lives::cut(lives, alloc, own, form) {
        Ok(Some(one)) => {
            told.push_reserved(one);
            Ok(())
        }
        Ok(None) => Ok(()),
        Err(AllocError) => Err(AllocError),
    }
}

// A node tells what another one missed, or all that it knows, in the form.
#[tactic(auto, using(crate::proofs::Events::telling))]
fn tell(
    lives: &mut BTreeMap<Replica, Life>,
    present: &[Replica],
    told: &mut Vec<Telling>,
    alloc: Global,
    node: usize,
    from: Option<u64>,
    form: Form,
) -> Result<(), AllocError>
    ensures tells { OnOk result (TellsTo form present.now (seen lives.old) told.old.items node from
        (seen lives.new) told.new.items) }
    ensures same { seen lives.new ≡ seen lives.old }
    ensures kept { OnErr result (told.new.items ≡ told.old.items) }
{
    let Some(own) = present.get(node) else {
        return Ok(());
    };
    told.reserve(1)?;
    match lives::told(lives, alloc, own, from, form) {
        Ok(Some(one)) => {
            told.push_reserved(one);
            Ok(())
        }
        Ok(None) => Ok(()),
        Err(AllocError) => Err(AllocError),
    }
}

// A node tells a part of what another one missed, in the form.
#[tactic(auto, using(crate::proofs::Parts::parting))]
fn tell_part(
    lives: &mut BTreeMap<Replica, Life>,
    present: &[Replica],
    told: &mut Vec<Telling>,
    alloc: Global,
    part: &PartWanted,
) -> Result<(), AllocError>
    ensures tells { OnOk result (PartsTo part.now.form present.now (seen lives.old) told.old.items part.now.node part.now.from
        (seen lives.new) told.new.items) }
    ensures same { seen lives.new ≡ seen lives.old }
    ensures kept { OnErr result (told.new.items ≡ told.old.items) }
{
    let Some(own) = present.get(part.node) else {
        return Ok(());
    };
    told.reserve(1)?;
    match lives::part(lives, alloc, own, (part.from, part.to), part.form) {
        Ok(Some(one)) => {
            told.push_reserved(one);
            Ok(())
        }
        Ok(None) => Ok(()),
        Err(AllocError) => Err(AllocError),
    }
}

// What was told comes to a node.
#[tactic(auto, using(crate::proofs::Events::acting))]
fn deliver(
    lives: &mut BTreeMap<Replica, Life>,
    present: &[Replica],
    told: &[Telling],
    alloc: Global,
    node: usize,
    place: usize,
) -> Result<(), AllocError>
    ensures delivers { OnOk result (DeliversTo present.now told.now (seen lives.old) node place (seen lives.new)) }
    ensures same { OnErr result (seen lives.new ≡ seen lives.old) }
{
    match told.get(place) {
        Some(one) => {
            let step = one.step(alloc)?;
            act(lives, present, alloc, node, &step)
        }
        None => Ok(()),
    }
}

// What was told of other nodes comes to a node.
#[tactic(auto, using(crate::proofs::Events::acting, crate::proofs::Events::hearing))]
fn deliver_others(
    lives: &mut BTreeMap<Replica, Life>,
    present: &[Replica],
    told: &[Telling],
    alloc: Global,
    node: usize,
    place: usize,
) -> Result<(), AllocError>
    ensures delivers { OnOk result (DeliversOthersTo present.now told.now (seen lives.old) node place (seen lives.new)) }
    ensures same { OnErr result (seen lives.new ≡ seen lives.old) }
{
    let Some(own) = present.get(node) else {
        return Ok(());
    };
    match told.get(place) {
        Some(one) => {
            let step = one.step_of_others(alloc, own)?;
            act(lives, present, alloc, node, &step)
        }
        None => Ok(()),
    }
}

// A node puts a Start in the place of its journal.
#[tactic(auto, using(crate::proofs::Events::beginning))]
fn checkpoint(
    lives: &mut BTreeMap<Replica, Life>,
    present: &[Replica],
    alloc: Global,
    node: usize,
) -> Result<(), AllocError>
    ensures begins { OnOk result (BeginsTo present.now (seen lives.old) node (seen lives.new)) }
    ensures same { OnErr result (seen lives.new ≡ seen lives.old) }
{
    match present.get(node) {
        Some(own) => lives::checkpoint(lives, alloc, own),
        None => Ok(()),
    }
}

fn replace(present: &mut Vec<Replica>, node: usize, own: &Replica)
    ensures { present.new.items ≡ set present.old.items node own.now }
{
    if let Some(place) = present.get_mut(node) {
        *place = *own;
    }
}

// A node begins anew under a higher incarnation.
fn restart(
    lives: &mut BTreeMap<Replica, Life>,
    present: &mut Vec<Replica>,
    alloc: Global,
    node: usize,
    incarnation: u64,
) -> Result<(), AllocError>
    ensures restarts { OnOk result (RestartsTo present.old.items (seen lives.old) node incarnation
        present.new.items (seen lives.new)) }
    ensures same { OnErr result (seen lives.new ≡ seen lives.old) }
    ensures kept { OnErr result (present.new.items ≡ present.old.items) }
{
    let Some(old) = present.get(node) else {
        return Ok(());
    };
    if incarnation <= old.incarnation || incarnation > MAX_COUNT {
        return Ok(());
    }
    let own = Replica {
        name: old.name,
        incarnation,
    };
    lives::begin(lives, alloc, &own)?;
    replace(present, node, &own);
    Ok(())
}

// A node goes on under a higher incarnation, with all its rows.
#[tactic(auto, using(crate::proofs::Events::rebirthing))]
fn rebirth(
    lives: &mut BTreeMap<Replica, Life>,
    present: &mut Vec<Replica>,
    alloc: Global,
    node: usize,
    incarnation: u64,
) -> Result<(), AllocError>
    ensures rebirths { OnOk result (RebirthsTo present.old.items (seen lives.old) node incarnation
        present.new.items (seen lives.new)) }
    ensures same { OnErr result (seen lives.new ≡ seen lives.old) }
    ensures kept { OnErr result (present.new.items ≡ present.old.items) }
{
    let Some(old) = present.get(node) else {
        return Ok(());
    };
    let own = Replica {
        name: old.name,
        incarnation,
    };
    if !lives::go_on(lives, alloc, old, incarnation)? {
        return Ok(());
    }
    replace(present, node, &own);
    Ok(())
}

/// What an event makes of a world's parts.
#[tactic(auto, using(crate::proofs::Events::happening))]
pub(crate) fn happen(
    lives: &mut BTreeMap<Replica, Life>,
    present: &mut Vec<Replica>,
    told: &mut Vec<Telling>,
    alloc: Global,
    event: &Event,
) -> Result<(), AllocError>
    ensures happens { OnOk result (Happens (world (seen lives.old) present.old.items told.old.items) event.now
        (world (seen lives.new) present.new.items told.new.items)) }
    ensures same { OnErr result (world (seen lives.new) present.new.items told.new.items
        ≡ world (seen lives.old) present.old.items told.old.items) }
{
    match event {
        Event::Client { node, step } => ask(lives, present.as_slice(), alloc, *node, step),
        Event::Cut { node, form } => cut(lives, present.as_slice(), told, alloc, *node, *form),
        Event::Full { node, from, form } => tell(
            lives,
            present.as_slice(),
            told,
            alloc,
            *node,
            *from,
            *form,
        ),
        Event::Part {
            node,
            from,
            to,
            form,
        } => {
            let part = PartWanted {
                node: *node,
                from: *from,
                to: *to,
                form: *form,
            };
            tell_part(lives, present.as_slice(), told, alloc, &part)
        }
        Event::Deliver { node, told: place } => deliver(
            lives,
            present.as_slice(),
            told.as_slice(),
            alloc,
            *node,
            *place,
        ),
        Event::DeliverOthers { node, told: place } => deliver_others(
            lives,
            present.as_slice(),
            told.as_slice(),
            alloc,
            *node,
            *place,
        ),
        Event::Heard { node, replica, now } => {
            let step = Step::heard(alloc, *replica, *now)?;
            act(lives, present.as_slice(), alloc, *node, &step)
        }
        Event::Tick { node, now } => {
            let step = Step::Tick { now: *now };
            act(lives, present.as_slice(), alloc, *node, &step)
        }
        Event::PermDown { node, replica } => {
            let step = Step::permdown(alloc, *replica)?;
            act(lives, present.as_slice(), alloc, *node, &step)
        }
        Event::Checkpoint { node } => checkpoint(lives, present.as_slice(), alloc, *node),
        Event::Restart { node, incarnation } => restart(lives, present, alloc, *node, *incarnation),
        Event::Rebirth { node, incarnation } => rebirth(lives, present, alloc, *node, *incarnation),
    }
}
