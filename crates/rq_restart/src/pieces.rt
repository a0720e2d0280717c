//! Many records onto a machine, up to the first that is not lawful.

ghost use Rattle.std.specs.Prelude.{◌≡◌, map, IfOk, IfErr};
ghost use Rattle.rq_exchange.specs.Gathering.{ComesTo};
ghost use Rattle.rq_model.specs.States.{empty};
ghost use Rattle.rq_record.specs.Views.{record_of, version_of};
ghost use Rattle.rq_record.specs.declared.fault.Fault.TheVariants.{Resources};
ghost use Rattle.rq_restart.specs.Taking.{TakesOne};

use rq_exchange::front_redone;
use rq_plan::Plan;
use rq_record::{Fault, KeptRecord, Version};
use rq_standing::{Machine, Taken};
use std::alloc::Global;
use std::marker::Sync;
use std::thread::Threads;

// An element is spelled in 28 bytes at least. So a state has at most two elements for each seven
// records, and to copy it costs less than they do.
const BYTES: usize = 8;

/// How many bytes are few beside so many records: a state that is spelled in them costs less than the
/// records. None are, if the records are fewer than a grain of the plan.
pub(crate) fn room_beside(count: usize, plan: &Plan) -> usize {
    if count < plan.grain() as usize {
        return 0;
    }
    count.saturating_mul(BYTES)
}

// Whether a record is lawful. If it is, it is done.
fn take_one(
    alloc: Global,
    version: Version,
    machine: &mut Machine,
    rec: &KeptRecord,
) -> Result<bool, Fault>
    ensures takes { IfOk result
        (TakesOne (version_of version) machine.old (record_of rec.now) machine.new) }
    ensures refused { IfErr result (λ e. e ≡ Resources) }
    ensures spent { IfErr result (λ e. machine.new ≡ empty) }
{
    match machine.take(alloc, version, rec) {
        Ok(Taken::Done(_)) => Ok(true),
        Ok(Taken::Unlawful(_)) => Ok(false),
        Err(fault) => Err(fault),
    }
}

/// Takes one record after the other on the calling thread, up to the first that is not lawful, and
/// answers how many it took. Refused as `go_on` is.
pub(crate) fn take_each(
    alloc: Global,
    version: Version,
    machine: &mut Machine,
    records: &[KeptRecord],
) -> Result<usize, Fault>
    ensures went_on { IfOk result (ComesTo (version_of version) machine.old
        (map record_of records.now) machine.new) }
    ensures refused { IfErr result (λ e. e ≡ Resources) }
    ensures spent { IfErr result (λ e. machine.new ≡ empty) }
{
    for place in 0..records.len() {
        if !take_one(alloc, version, machine, &records[place])? {
            return Ok(place);
        }
    }
    Ok(records.len())
}

// The machine behind these records, made anew: all queues are redone on the workers.
fn made_anew<R: Threads + Sync>(
    rt: &R,
    alloc: Global,
    version: Version,
    machine: &Machine,
    records: &[KeptRecord],
    plan: &Plan,
) -> Result<(Machine, usize), Fault>
    ensures went_on { IfOk result (λ r. ComesTo (version_of version) machine.now
        (map record_of records.now) r.0 r.1) }
    ensures refused { IfErr result (λ e. e ≡ Resources) }
{
    let state = machine.state(alloc)?;
    // No file numbers so many records: past here a number could run over.
    if state.next().saturating_add(records.len() as u64) > 3 << 62 {
        return Err(Fault::Resources);
    }
    let (state, count) = front_redone(rt, alloc, version, &state, records, plan)?;
    let anew = Machine::of(alloc, &state)?;
    Ok((anew, count))
}

/// Does the records that are lawful by the rules of the version, up to the first that is not, and
/// answers how many these are.
///
/// That costs the records and the members that they touch, whatever else the state has. If that is
/// little beside them, and they are at least a grain of the plan, all queues are redone on its
/// workers; else the calling thread takes one record after the other. Refused with `Resources`
/// alone: what is left is the state before the first record, as after `Machine::take`.
pub fn go_on<R: Threads + Sync>(
    rt: &R,
    alloc: Global,
    version: Version,
    machine: &mut Machine,
    records: &[KeptRecord],
    plan: &Plan,
) -> Result<usize, Fault>
    ensures went_on { IfOk result (ComesTo (version_of version) machine.old
        (map record_of records.now) machine.new) }
    ensures refused { IfErr result (λ e. e ≡ Resources) }
    ensures spent { IfErr result (λ e. machine.new ≡ empty) }
{
    if !machine.fits(room_beside(records.len(), plan)) {
        return take_each(alloc, version, machine, records);
    }
    match made_anew(rt, alloc, version, machine, records, plan) {
        Ok((anew, count)) => {
            *machine = anew;
            Ok(count)
        }
        Err(fault) => {
            *machine = Machine::empty(alloc);
            Err(fault)
        }
    }
}
