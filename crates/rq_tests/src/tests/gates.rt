//! What workers do at the same time, as a gate sees them.

use super::reports;
use rq_rows::{answer, log_of};
use rq_tool::{Command, Gate, Plan};
use std::alloc::Global;
use std::fmt::Write;
use std::sync::atomic::{AtomicBool, AtomicU64, Ordering};
use std::test::Fail;
use std::thread::Threads;
use std::time::{Clock, Instant};

const THREE: &[u8] = b"define a 0 -\n\
    define b 0 -\n\
    define c 0 -\n\
    begin 1\n\
    enqueue 1 0 0 - 0 -\n\
    enqueue 1 1 0 - 0 -\n\
    commit 1\n";

const THREE_REPORT: &[u8] = b"front 7 records, 380 of 380 bytes, whole\n\
    units 1 committed, 0 aborted, 0 cut off\n\
    queue 0 a limit 0 error -\n\
    e 4 from 0 priority 0 attempts 0 -\n\
    queue 1 b limit 0 error -\n\
    e 5 from 1 priority 0 attempts 0 -\n\
    queue 2 c limit 0 error -\n";

// The last queue has nothing to do with the other two.
const WITH_ERROR_QUEUE: &[u8] = b"define dead 0 -\ndefine a 1 0\ndefine b 0 -\n";

const WITH_ERROR_QUEUE_REPORT: &[u8] = b"front 3 records, 175 of 175 bytes, whole\n\
    units 0 committed, 0 aborted, 0 cut off\n\
    queue 0 dead limit 0 error -\n\
    queue 1 a limit 1 error 0\n\
    queue 2 b limit 0 error -\n";

// For each of three queues, whose flag it looks for.
type Looks = [Option<usize>; 3];

// Two queues look for each other, and a third may look for the first. An error queue does not wait
// for queues that are not its sources: one of these looks for it.
const MEETINGS: [(&[u8], &[u8], Looks); 4] = [
    (THREE, THREE_REPORT, [Some(1), Some(0), None]),
    (THREE, THREE_REPORT, [Some(2), Some(0), Some(0)]),
    (THREE, THREE_REPORT, [None, Some(2), Some(1)]),
    (
        WITH_ERROR_QUEUE,
        WITH_ERROR_QUEUE_REPORT,
        [None, None, Some(0)],
    ),
];

// Three queues, each of which sets its flag, and then looks for another's.
#[derive(Drop)]
struct Meeting {
    looks: Looks,
    there: [AtomicBool; 3],
    saw: [AtomicBool; 3],
}

// Looks for a flag, up to 100,000,000 times.
fn look(flag: &AtomicBool) -> bool {
    for _ in 0..100_000_000 {
        if flag.load(Ordering::SeqCst) {
            return true;
        }
    }
    false
}

impl Gate for Meeting {
    fn enter(&self, task: u32) {
        let at = task as usize;
        if at >= 3 {
            return;
        }
        self.there[at].store(true, Ordering::SeqCst);
        if let Some(other) = self.looks[at] {
            if other < 3 {
                self.saw[at].store(look(&self.there[other]), Ordering::SeqCst);
            }
        }
    }
}

impl Meeting {
    // Whether each flag that was looked for was seen.
    fn all_saw(&self) -> bool {
        let mut all = true;
        for (look, saw) in self.looks.iter().zip(self.saw.iter()) {
            all = all && look.is_some() == saw.load(Ordering::SeqCst);
        }
        all
    }
}

// Whether they see each other so, in a run of two workers that writes the report.
fn meet<R: Threads + Sync + AllocGlobal>(
    rt: &R,
    script: &[u8],
    report: &[u8],
    looks: Looks,
) -> Result<bool, Fail> {
    let log = log_of(rt, script)?;
    let gate = Meeting {
        looks,
        there: [
            AtomicBool::new(false),
            AtomicBool::new(false),
            AtomicBool::new(false),
        ],
        saw: [
            AtomicBool::new(false),
            AtomicBool::new(false),
            AtomicBool::new(false),
        ],
    };
    Ok(reports(rt, &log, 2, &gate, report) && gate.all_saw())
}

#[test]
fn two_threads_meet(rt: HostRuntime) -> Result<(), Fail> {
    for (place, (script, report, looks)) in MEETINGS.iter().enumerate() {
        assert!(rt; meet(&rt, *script, *report, *looks)?, "meeting {place}");
    }
    Ok(())
}

// When each of three queues entered, in nanoseconds.
#[derive(Drop)]
struct Entered<'a, R: Clock> {
    rt: &'a R,
    begun: Instant,
    times: [AtomicU64; 3],
}

impl<'a, R: Clock + Sync> Gate for Entered<'a, R> {
    fn enter(&self, task: u32) {
        if let Some(time) = self.times.get(task as usize) {
            if let Ok(now) = self.begun.elapsed(self.rt) {
                time.store(u64::try_from(now.as_nanos()).unwrap_or(0), Ordering::SeqCst);
            }
        }
    }
}

// Three queues, the second of which has 2,000 elements.
fn long_script(alloc: Global) -> Result<Vec<u8>, Fail> {
    let begins = b"define a 0 -\ndefine b 0 -\ndefine c 0 -\nbegin 1\n";
    let mut script = Vec::from_slice(alloc, begins.as_slice())?;
    for _ in 0..2_000 {
        script.extend_from_slice(b"enqueue 1 1 0 - 0 -\n".as_slice())?;
    }
    script.extend_from_slice(b"commit 1\n".as_slice())?;
    Ok(script)
}

// Whether the second queue entered shortly after the first. One thread redoes them in order, so the
// long redo is between the second entry and the third.
fn is_shortly_after(times: &[AtomicU64; 3]) -> bool {
    let [first, second, third] = times;
    let second = second.load(Ordering::SeqCst);
    let short = second.saturating_sub(first.load(Ordering::SeqCst));
    let long = third.load(Ordering::SeqCst).saturating_sub(second);
    short < long / 4
}

// Whether the long queue entered before its redo, in a run of one worker.
fn enters_before<R: Threads + Clock + Sync + AllocGlobal>(rt: &R, log: &[u8]) -> bool {
    let (Some(plan), Ok(begun)) = (Plan::new(1, 1000), Instant::now(rt)) else {
        return false;
    };
    let times = [AtomicU64::new(0), AtomicU64::new(0), AtomicU64::new(0)];
    let gate = Entered { rt, begun, times };
    let restart = Command::Restart { log: "log", plan };
    let (done, _report) = answer(rt, &restart, log, Vec::new(rt.alloc()), &gate);
    done.is_ok() && is_shortly_after(&gate.times)
}

#[test]
fn a_queue_enters_the_gate_before_its_redo(rt: HostRuntime) -> Result<(), Fail> {
    let script = long_script(rt.alloc())?;
    let log = log_of(&rt, &script)?;
    let mut before = false;
    for _ in 0..5 {
        before = before || enters_before(&rt, &log);
    }
    assert!(rt; before, "the long queue enters after its redo");
    Ok(())
}

// Where the checkpoint stands of the log of two hundred queues.
const CHECKPOINT_AT: u64 = 9_330;

// Queues `d0` to `d19`, then `q20` to `q199` whose elements go to them at their first abort.
fn define_all(script: &mut String) -> Result<(), Fail> {
    for queue in 0..200u32 {
        let error = queue % 20;
        if queue < 20 {
            write!(script, "define d{queue} 0 -\n")?;
        } else {
            write!(script, "define q{queue} 1 {error}\n")?;
        }
    }
    Ok(())
}

// 65,535 bytes for each tenth queue, nothing for the others.
fn put_payload(alloc: Global, script: &mut String, queue: u32) -> Result<(), Fail> {
    if queue % 10 != 0 {
        script.push('-')?;
        return Ok(());
    }
    let byte = format!(in alloc; "{queue:02x}")?;
    let bytes = byte.repeat(alloc, 255)?;
    script.push_str(&bytes.repeat(alloc, 257)?)?;
    Ok(())
}

// An element is put into a queue, by a unit that commits.
fn put_in(alloc: Global, script: &mut String, queue: u32) -> Result<(), Fail> {
    let (unit, priority) = (queue.saturating_sub(19), queue % 7);
    write!(
        script,
        "begin {unit}\nenqueue {unit} {queue} {priority} - 0 "
    )?;
    put_payload(alloc, script, queue)?;
    write!(script, "\ncommit {unit}\n")?;
    Ok(())
}

// It is taken by a unit that aborts, stays open or commits.
fn take_out(script: &mut String, queue: u32) -> Result<(), Fail> {
    let unit = queue.saturating_add(161);
    write!(script, "begin {unit}\ndequeue {unit} {queue} - 0\n")?;
    match queue % 3 {
        0 => write!(script, "abort {unit}\n")?,
        1 => (),
        _ => write!(script, "commit {unit}\n")?,
    }
    Ok(())
}

// Two hundred queues, twenty of them error queues. A checkpoint follows the definitions, at
// `CHECKPOINT_AT`.
fn script_of_many(alloc: Global) -> Result<String, Fail> {
    let mut script = String::new(alloc);
    define_all(&mut script)?;
    script.push_str("checkpoint\n")?;
    for queue in 20..200 {
        put_in(alloc, &mut script, queue)?;
    }
    for queue in 20..200 {
        take_out(&mut script, queue)?;
    }
    Ok(script)
}

// How many times each queue entered.
#[derive(Drop)]
struct Entries {
    queues: Vec<AtomicU64>,
}

impl Gate for Entries {
    fn enter(&self, task: u32) {
        if let Some(times) = self.queues.get(task as usize) {
            times.fetch_add(1, Ordering::SeqCst);
        }
    }
}

// Room for 201 queues, none of which has entered.
fn no_entries(alloc: Global) -> Result<Entries, Fail> {
    let mut queues = Vec::new(alloc);
    for _ in 0..201 {
        queues.push(AtomicU64::new(0))?;
    }
    Ok(Entries { queues })
}

// Whether the 200 queues of the log enter the gate of the command's run, each once, and no other.
fn all_enter<R: Threads + Sync + AllocGlobal>(
    rt: &R,
    log: &[u8],
    command: &Command<'_>,
) -> Result<bool, Fail> {
    let entries = no_entries(rt.alloc())?;
    let (done, _report) = answer(rt, command, log, Vec::new(rt.alloc()), &entries);
    let mut all = done.is_ok();
    for (queue, times) in entries.queues.iter().enumerate() {
        let want = if queue < 200 { 1 } else { 0 };
        all = all && times.load(Ordering::SeqCst) == want;
    }
    Ok(all)
}

// From the beginning, and from the checkpoint.
#[test]
fn every_queue_enters_the_gate(rt: HostRuntime) -> Result<(), Fail> {
    let script = script_of_many(rt.alloc())?;
    let log = log_of(&rt, script.as_bytes())?;
    assert!(rt; log.len() == 1_241_899);
    for workers in [1, 2, 7, 64] {
        let plan = Plan::new(workers, 1000).ok_or("plan")?;
        let whole = Command::Restart { log: "log", plan };
        let rest = Command::RestartAt {
            log: "log",
            offset: CHECKPOINT_AT,
            plan,
        };
        assert!(rt; all_enter(&rt, &log, &whole)?, "{workers} workers");
        assert!(rt;
            all_enter(&rt, &log, &rest)?,
            "{workers} workers, from the checkpoint"
        );
    }
    Ok(())
}
