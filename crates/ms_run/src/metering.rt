//! A step by a worker that keeps the meter: its seat's amount moves as the words in use do.
//!
//! Kept true: what a loader gets in use is added once it has it, and what an unloaded one had is
//! taken off before it is closed. One atomic step a line at most, and no lock beside that of the
//! line itself.
ghost use Rattle.std.specs.Prelude.{◌≡◌, ◌+◌, ℕ, Some};
ghost use Rattle.ms_base.specs.Names.{named};
ghost use Rattle.ms_base.specs.Request.{loader_of};
ghost use Rattle.ms_loader_map.specs.Used.{used_at, used_in};
ghost use Rattle.ms_run.specs.Acts.{HasMade, Makes, Touches};
ghost use Rattle.ms_run.specs.Answering.{IsAnswered};
ghost use Rattle.ms_run.specs.Manned.{IsManned};
ghost use Rattle.ms_run.specs.Metering.{MovesNoTop};
ghost use Rattle.ms_run.specs.Moved.{IsMoved};

use ms_base::{Reply, Step};
use ms_loader_map::Loaders;
use ms_loaders::serve;
use ms_shared::{LockedPool, MeterSeat, UsedMeter};
use std::alloc::Global;
use std::sync::Wait;

/// Answers a step, and keeps the meter.
pub fn answer_metered<R: Wait>(
    alloc: Global,
    pool: &mut LockedPool<'_, R>,
    loaders: &mut Loaders,
    meter: &UsedMeter,
    seat: &mut MeterSeat,
    step: Step,
) -> Reply
    requires manned { IsManned pool.old.knows loaders.old }
    requires meter { seat.old.id ≡ meter.now.id }
    ensures lock { pool.new.id ≡ pool.old.id }
    ensures answered { IsAnswered loaders.old step result pool.new.knows loaders.new }
    ensures made { HasMade pool.old pool.new (Makes loaders.old step result loaders.new) }
    ensures touches { Touches loaders.old step result loaders.new }
    ensures moved { IsMoved seat.old (used_in loaders.old) seat.new (used_in loaders.new) }
{
    match step {
        Step::Unload { loader } => {
            meter.sub(seat, loaders.used_by(loader));
            answer(alloc, pool, loaders, step)
        }
        Step::Alloc { loader, .. } => {
            answer_rise(alloc, pool, loaders, meter, seat, loader, step)
        }
        Step::Calloc { loader, .. } => {
            answer_rise(alloc, pool, loaders, meter, seat, loader, step)
        }
        _ => answer(alloc, pool, loaders, step),
    }
}

/// Answers a step that may raise the words in use of the loader that it names, and adds the rise.
fn answer_rise<R: Wait>(
    alloc: Global,
    pool: &mut LockedPool<'_, R>,
    loaders: &mut Loaders,
    meter: &UsedMeter,
    seat: &mut MeterSeat,
    name: u16,
    step: Step,
) -> Reply
    requires manned { IsManned pool.old.knows loaders.old }
    requires meter { seat.old.id ≡ meter.now.id }
    requires names { loader_of step ≡ Some name }
    ensures lock { pool.new.id ≡ pool.old.id }
    ensures answered { IsAnswered loaders.old step result pool.new.knows loaders.new }
    ensures made { HasMade pool.old pool.new (Makes loaders.old step result loaders.new) }
    ensures touches { Touches loaders.old step result loaders.new }
    ensures moved { IsMoved seat.old (used_in loaders.old) seat.new (used_in loaders.new) }
{
    let before = loaders.used_by(name);
    let reply = answer(alloc, pool, loaders, step);
    // A difference modulo 2^64, as the meter counts.
    let rise = loaders.used_by(name).wrapping_sub(before);
    if rise != 0 {
        meter.add(seat, rise);
    }
    reply
}

/// Answers a step over the lock. The replies to a loader's steps are its own; the other loaders
/// stay.
fn answer<R: Wait>(
    alloc: Global,
    pool: &mut LockedPool<'_, R>,
    loaders: &mut Loaders,
    step: Step,
) -> Reply
    requires { IsManned pool.old.knows loaders.old }
    ensures lock { pool.new.id ≡ pool.old.id }
    ensures answered { IsAnswered loaders.old step result pool.new.knows loaders.new }
    ensures made { HasMade pool.old pool.new (Makes loaders.old step result loaders.new) }
    ensures touches { Touches loaders.old step result loaders.new }
    ensures used { MovesNoTop step → (name : ℕ)
        → used_at (named loaders.new name) ≡ used_at (named loaders.old name) }
{
    serve(alloc, pool, loaders, step)
}
