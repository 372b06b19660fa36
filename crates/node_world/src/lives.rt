// What the life of a replica does, if it has one.
ghost use Rattle.std.specs.Prelude.{◌≡◌, true, Some, IfOk, IsOk, OnOk, OnErr, option_copied};
ghost use Rattle.std.specs.FinMap as map;
ghost use Rattle.presence_base.specs.Refs.{IsCount};
ghost use Rattle.presence_journal.specs.Table.{is_step};
ghost use Rattle.node_world.specs.Lives.{seen, Turns, Steps, Begun, Cut, ToldIf, next_of, GoesOn, PartOfLife};
ghost use Rattle.node_world.specs.World.{newborn, next_life};

use crate::life::Life;
use crate::telling::Telling;
use orswot_core::Form;
use presence_base::Replica;
use presence_journal::Step;
use std::alloc::{AllocError, Global};
use std::collections::BTreeMap;

/// A step.
pub(crate) fn step(
    lives: &mut BTreeMap<Replica, Life>,
    alloc: Global,
    own: &Replica,
    step: &Step,
) -> Result<(), AllocError>
    requires { is_step step.now ≡ true }
    ensures turns { OnOk result (Turns (Steps step.now) (seen lives.old) own.now (seen lives.new)) }
    ensures same { OnErr result (seen lives.new ≡ seen lives.old) }
{
    match lives.get_mut(own) {
        Some(life) => life.step(alloc, step),
        None => Ok(()),
    }
}

/// Puts a Start in the place of its journal.
pub(crate) fn checkpoint(
    lives: &mut BTreeMap<Replica, Life>,
    alloc: Global,
    own: &Replica,
) -> Result<(), AllocError>
    ensures turns { OnOk result (Turns Begun (seen lives.old) own.now (seen lives.new)) }
    ensures same { OnErr result (seen lives.new ≡ seen lives.old) }
{
    match lives.get_mut(own) {
        Some(life) => life.checkpoint(alloc),
        None => Ok(()),
    }
}

/// What it did since its last cut, in the form.
pub(crate) fn cut(
    lives: &mut BTreeMap<Replica, Life>,
    alloc: Global,
    own: &Replica,
    form: Form,
) -> Result<Option<Telling>, AllocError>
    ensures cut { IfOk result (Cut form (seen lives.old) own.now (seen lives.new)) }
    ensures same { OnErr result (seen lives.new ≡ seen lives.old) }
{
    match lives.get_mut(own) {
        Some(life) => life.cut(alloc, form),
        None => Ok(None),
    }
}

fn some(told: Result<Telling, AllocError>) -> Result<Option<Telling>, AllocError>
    ensures some { IfOk result (λ o. IfOk told (λ t. o ≡ Some t)) }
    ensures ok { OnOk result (IsOk told) }
{
    match told {
        Ok(told) => Ok(Some(told)),
        Err(AllocError) => Err(AllocError),
    }
}

/// A part of what it tells from a count on, in the form: as far as fits a line, or up to a count.
pub(crate) fn part(
    lives: &mut BTreeMap<Replica, Life>,
    alloc: Global,
    own: &Replica,
    wanted: (u64, Option<u64>),
    form: Form,
) -> Result<Option<Telling>, AllocError>
    ensures same { seen lives.new ≡ seen lives.old }
    ensures told { IfOk result (PartOfLife form (map.get (seen lives.old) own.now) wanted.0) }
{
    match lives.get_mut(own) {
        Some(life) => life.part(alloc, wanted.0, wanted.1, form),
        None => Ok(None),
    }
}

/// What it tells in whole, or from a count on, in the form.
pub(crate) fn told(
    lives: &mut BTreeMap<Replica, Life>,
    alloc: Global,
    own: &Replica,
    from: Option<u64>,
    form: Form,
) -> Result<Option<Telling>, AllocError>
    ensures same { seen lives.new ≡ seen lives.old }
    ensures told { IfOk result (ToldIf form (map.get (seen lives.old) own.now) from) }
{
    match lives.get_mut(own) {
        Some(life) => some(life.told(alloc, from, form)),
        None => Ok(None),
    }
}

/// A new life, which takes the replica's place.
pub(crate) fn begin(
    lives: &mut BTreeMap<Replica, Life>,
    alloc: Global,
    own: &Replica,
) -> Result<(), AllocError>
    requires { IsCount own.now.incarnation }
    ensures begins { OnOk result (seen lives.new ≡ map.insert (seen lives.old) own.now (newborn own.now)) }
    ensures same { OnErr result (seen lives.new ≡ seen lives.old) }
{
    let life = Life::new(alloc, *own);
    match lives.insert(*own, life) {
        Ok(_) => Ok(()),
        Err(_) => Err(AllocError),
    }
}

// What a life, if there is one, goes on as.
fn next_of(life: Option<&Life>, alloc: Global, incarnation: u64) -> Result<Option<Life>, AllocError>
    ensures { IfOk result (λ o. o ≡ next_of incarnation (option_copied life.entry)) }
{
    match life {
        Some(life) => life.reborn(alloc, incarnation),
        None => Ok(None),
    }
}

// The replica under another incarnation.
fn life_under(own: &Replica, incarnation: u64) -> Replica
    ensures { result ≡ next_life own.now incarnation }
{
    Replica {
        name: own.name,
        incarnation,
    }
}

/// Goes on under a higher incarnation, where it can: what goes on has a place of its own. It answers whether it does.
pub(crate) fn go_on(
    lives: &mut BTreeMap<Replica, Life>,
    alloc: Global,
    own: &Replica,
    incarnation: u64,
) -> Result<bool, AllocError>
    ensures goes { IfOk result (GoesOn (seen lives.old) own.now incarnation (seen lives.new)) }
    ensures same { OnErr result (seen lives.new ≡ seen lives.old) }
{
    let next = next_of(lives.get(own), alloc, incarnation)?;
    let Some(life) = next else {
        return Ok(false);
    };
    match lives.insert(life_under(own, incarnation), life) {
        Ok(_) => Ok(true),
        Err(_) => Err(AllocError),
    }
}
