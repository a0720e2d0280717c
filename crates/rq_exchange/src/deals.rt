//! What the room deals: the queues that wait for nobody.

ghost use Rattle.std.specs.Prelude.{◌≡◌, ◌≤◌, ◌<◌, ℕ, length, All, IfOk, IfErr};
ghost use Rattle.rq_pool.specs.Ledger.{times, times_in};
ghost use Rattle.rq_pool.specs.Rooms.{deal_of, seats_of};
ghost use Rattle.rq_record.specs.declared.fault.Fault.TheVariants.{Resources};
ghost use Rattle.rq_exchange.specs.Links.{AreBare};
ghost use Rattle.rq_exchange.specs.Workers.{IsFreshSeat};

use rq_pool::{Room, Seat};
use rq_record::Fault;
use rq_state::empty_lists;
use std::alloc::Global;

/// The queues that are no queue's error queue.
pub(crate) fn tasks_of(alloc: Global, sources: &[Vec<u32>]) -> Result<Vec<u32>, Fault>
    requires { length sources.now ≤ 4096 }
    ensures tasks { IfOk result (λ v. AreBare sources.now (length sources.now) v.items) }
    ensures refused { IfErr result (λ e. e ≡ Resources) }
{
    let mut tasks = Vec::new(alloc);
    for queue in 0..sources.len() {
        if !sources[queue].is_empty() {
            continue;
        }
        tasks.push(queue as u32)?;
    }
    Ok(tasks)
}

/// A room that deals the tasks to this many seats: task i goes to seat i modulo the workers.
pub(crate) fn dealt_room(
    alloc: Global,
    workers: usize,
    tasks: &[u32],
) -> Result<(Room, Vec<Seat>), Fault>
    requires workers { (0 < workers) × (workers ≤ 64) }
    requires few { length tasks.now ≤ 65536 }
    ensures deal { IfOk result (λ r. (x : ℕ) → times_in x (deal_of r.0) ≡ times x tasks.now) }
    ensures count { IfOk result (λ r. (seats_of r.0 ≡ workers) × (length r.1.items ≡ workers)) }
    ensures seats { IfOk result (λ r. All (IsFreshSeat r.0) r.1.items) }
    ensures refused { IfErr result (λ e. e ≡ Resources) }
{
    let mut lists = empty_lists(alloc, workers)?;
    for (i, queue) in tasks.iter().enumerate() {
        lists[i % workers].push(*queue)?;
    }
    let (room, seats) = Room::open(alloc, lists)?;
    Ok((room, seats))
}
