//! A manager that goes on in other files, and from what a crash left of one.

use rq_device::{Memory, NewMemory, Successor, Unmade};
use rq_front::is_carried;
use rq_journal::carried;
use rq_live::{Manager, NotCarried, NotDone};
use rq_record::{LogBytes, Name, Payload, UnitNo, Version};
use rq_restart::{Plan, RedoneFront};
use rq_rows::{defines, goes_on_in, goes_on_twice, puts_in};
use std::alloc::Global;
use std::test::Fail;
use std::thread::Threads;

fn name(bytes: &[u8]) -> Result<Name, Fail> {
    let name = Name::new(bytes).ok_or("name")?;
    Ok(name)
}

fn payload(alloc: Global, bytes: &[u8]) -> Result<Payload, Fail> {
    let payload = Payload::new(Vec::from_slice(alloc, bytes)?).ok_or("payload")?;
    Ok(payload)
}

// A manager with two queues, in the second of which are two elements.
fn begun<R: AllocGlobal>(rt: &R, version: Version) -> Result<Manager<Memory>, Fail> {
    let mut m = Manager::new(rt.alloc(), version, Memory::new(rt.alloc()))?;
    let ann = name(b"ann")?;
    let _ = defines(
        rt.alloc(),
        &mut m,
        (name(b"dead")?, name(b"jobs")?, name(b"ann")?),
    );
    let payloads = (payload(rt.alloc(), b"a")?, payload(rt.alloc(), b"b")?);
    let _ = puts_in(rt.alloc(), &mut m, ann, payloads);
    Ok(m)
}

// The carried file that goes on from a log, by the journal.
fn carried_from<R: Threads + Sync + AllocGlobal>(
    rt: &R,
    log: &[u8],
    plan: &Plan,
) -> Result<Vec<u8>, Fail> {
    let front = RedoneFront::of(rt, rt.alloc(), &LogBytes::borrowed(log), plan)?;
    Ok(carried(rt.alloc(), &front)?)
}

// The first file is the one that the journal makes of the log, and so is the one after it.
#[test]
fn a_manager_goes_on_in_other_files(rt: HostRuntime) -> Result<(), Fail> {
    let plan = Plan::new(1, 1000).ok_or("plan")?;
    for version in [Version::One, Version::Two] {
        let mut m = begun(&rt, version)?;
        let mut next = NewMemory::new(rt.alloc());
        assert!(rt; goes_on_twice(rt.alloc(), &mut m, &mut next) == Ok((8, 10)));
        let bytes = Vec::from_slice(rt.alloc(), m.device().bytes())?;
        assert!(rt; is_carried(&bytes) && m.device().synced() == bytes.len());
        assert!(rt; m.len() == bytes.len() && m.record_count() == Ok(11));
        let Some((unit, records, after)) = goes_on_in(&rt, bytes, &plan)? else {
            return Err("not opened".into());
        };
        assert!(rt; unit == 2 && records == 11 && after.as_slice() == m.device().bytes());
    }
    Ok(())
}

// What a crash leaves behind the first frame goes, but for whole frames; of one that is cut short
// nothing is left.
#[test]
fn a_manager_goes_on_from_each_beginning_of_a_file(rt: HostRuntime) -> Result<(), Fail> {
    let plan = Plan::new(1, 1000).ok_or("plan")?;
    let mut m = begun(&rt, Version::Two)?;
    let mut next = NewMemory::new(rt.alloc());
    let log = Vec::from_slice(rt.alloc(), m.device().bytes())?;
    let first = m.carry(rt.alloc(), &mut next);
    assert!(rt; first == Ok(7));
    let whole = m.len();
    assert!(rt; m.device().bytes() == carried_from(&rt, &log, &plan)?.as_slice());
    let begun = m.begin(rt.alloc()).is_ok() && m.settle().is_ok();
    assert!(rt; begun);
    let bytes = Vec::from_slice(rt.alloc(), m.device().bytes())?;
    for len in 0..=bytes.len() {
        let left = Vec::from_slice(rt.alloc(), bytes.get(..len).unwrap_or(&[]))?;
        let found = goes_on_in(&rt, left, &plan)?;
        if len < whole {
            assert!(rt; found.is_none(), "{len}");
            continue;
        }
        let Some((unit, records, after)) = found else {
            return Err("not opened".into());
        };
        let all = len == bytes.len();
        let count = if all { 10 } else { 8 };
        assert!(rt;
            unit == if all { 2 } else { 1 } && records == count,
            "{len}"
        );
        assert!(rt; after.get(..whole) == bytes.get(..whole), "{len}");
    }
    Ok(())
}

// One that makes no device, for this reason.
#[derive(Drop)]
struct Refusing {
    why: Unmade,
    told: u64,
}

impl Successor<Memory> for Refusing {
    fn put(&mut self, records: u64, _first: &[u8]) -> Result<Memory, Unmade> {
        self.told = records;
        Err(self.why)
    }
}

// If the other file is not made, all is settled where it was, and the next call goes on. If it is not
// known what became of the log, none does.
#[test]
fn a_manager_stays_if_no_file_is_made(rt: HostRuntime) -> Result<(), Fail> {
    let mut m = begun(&rt, Version::Two)?;
    let mut next = Refusing {
        why: Unmade::Kept,
        told: 0,
    };
    let unit = m.begin(rt.alloc());
    let carried = m.carry(rt.alloc(), &mut next);
    assert!(rt; carried == Err(NotCarried::Unmade) && next.told == 8 && unit.is_ok());
    let len = m.len();
    assert!(rt; !is_carried(m.device().bytes()) && m.device().synced() == len);
    let committed = m.commit(rt.alloc(), UnitNo(2));
    assert!(rt; committed == Ok(()) && m.len() == len + 45 && m.record_count() == Ok(9));
    next.why = Unmade::Lost;
    let carried = m.carry(rt.alloc(), &mut next);
    assert!(rt; carried == Err(NotCarried::Spent) && next.told == 9);
    assert!(rt; m.begin(rt.alloc()) == Err(NotDone::Spent) && m.device().synced() == len + 45);
    assert!(rt; m.carry(rt.alloc(), &mut next) == Err(NotCarried::Spent));
    Ok(())
}
