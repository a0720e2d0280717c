//! How records are analysed and replayed, and how a replay goes: each queue is redone by one thread, and
//! an error queue by the one whose arrival was the last.
ghost use Rattle.std.specs.Prelude.{◌≡◌, ◌<◌, ◌≤◌, ℕ, true, length, map, IfErr, IfOk};
ghost use Rattle.rq_model.specs.Records.{Two};
ghost use Rattle.rq_model.specs.States.{empty};
ghost use Rattle.rq_model.specs.Machine.{all_lawful};
ghost use Rattle.rq_record.specs.Views.{record_of};
ghost use Rattle.rq_record.specs.declared.fault.Fault.TheVariants.{Resources};
ghost use Rattle.rq_pool.specs.Countdowns.Arrivals.{last_lists};
ghost use Rattle.rq_pool.specs.Ledger.{times};
ghost use Rattle.rq_exchange.specs.Courses.{IsAlone, all_told, redone_by, redone_of, told_to};
ghost use Rattle.rq_exchange.specs.Links.{naming};

use rq_catalog::{Analysis, analyse, analyse_in, analyse_kept};
use rq_exchange::{Course, redo_analysed, replay};
use rq_plan::{Gate, Open, Plan};
use rq_record::{Fault, Record, Version, kept_records};
use rq_restart::Restarted;
use rq_state::State;
use std::alloc::Global;
use std::thread::Threads;

/// What is told of records behind no others, in version 1.
pub fn analysed(alloc: Global, records: &[Record]) -> Result<Analysis, Fault> {
    let start = State::empty(alloc);
    analyse(alloc, &start, records)
}

/// Records that are lawful from the start.
#[derive(Drop)]
pub struct Lawful {
    pub records: Vec<Record>,
    ghost lawful: { all_lawful Two empty (map record_of records.items) ≡ true },
}

// The records as far as they are lawful after the state.
fn lawful_front(
    alloc: Global,
    start: &State,
    mut records: Vec<Record>,
) -> Result<Vec<Record>, Fault>
    requires { start.now.next ≤ 4294967295 }
    ensures lawful { IfOk result (λ v. all_lawful Two start.now (map record_of v.items) ≡ true) }
    ensures refused { IfErr result (λ e. e ≡ Resources) }
{
    let analysis = analyse_in(alloc, Version::Two, start, &records)?;
    let count = analysis.lawful();
    records.truncate(count);
    Ok(records)
}

/// The records as far as they are lawful from the start.
pub fn lawful_of(alloc: Global, records: Vec<Record>) -> Result<Lawful, Fault> {
    let start = State::empty(alloc);
    let records = lawful_front(alloc, &start, records)?;
    Ok(Lawful { records })
}

/// The state after the records.
pub fn replayed<R: Threads + Sync + AllocGlobal>(
    rt: &R,
    lawful: &Lawful,
    plan: &Plan,
) -> Result<State, Fault> {
    let start = State::empty(rt.alloc());
    replay(rt, rt.alloc(), &start, &lawful.records, plan, &Open)
}

/// The state after the records, and how the replay went: one thread redid a queue, once, and no
/// other did. For an error queue that queues lead to, this is the thread that was told Last, once,
/// and nobody else was told so.
pub fn traced<R: Threads + Sync + AllocGlobal, G: Gate + Sync>(
    rt: &R,
    lawful: &Lawful,
    plan: &Plan,
    gate: &G,
) -> Result<(State, Course), Fault>
    ensures once { IfOk result
        (λ r. (x : ℕ) → x < length r.0.definitions → IsAlone x (redone_of r.1)) }
    ensures begun { IfOk result (λ r. (x : ℕ) → x < length r.0.definitions
        → 0 < length (naming (map (λ d. d.error) r.0.definitions) x)
        → (k : ℕ) × (k < length (redone_of r.1)) × (times x (redone_by r.1 k) ≡ 1)
        × (length (last_lists (told_to r.1 k x)) ≡ 1)) }
    ensures nobody_else { IfOk result (λ r. (x : ℕ) → x < length r.0.definitions
        → 0 < length (naming (map (λ d. d.error) r.0.definitions) x)
        → length (last_lists (all_told r.1 x)) ≡ 1) }
{
    let alloc = rt.alloc();
    let start = State::empty(alloc);
    let records = kept_records(alloc, &lawful.records)?;
    let analysis = analyse_kept(alloc, Version::Two, &start, &records)?;
    let (all, course) = redo_analysed(rt, alloc, &start, &records, analysis, plan, gate)?;
    let state = all.gather(alloc)?;
    Ok((state, course))
}

/// How a restart redid the queues of its state: each by one thread, once.
pub fn course_of(restarted: &Restarted) -> &Course
    ensures { (x : ℕ) → x < length restarted.now.state.definitions
        → IsAlone x (redone_of result.now) }
{
    restarted.course()
}
