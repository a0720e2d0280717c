//! A manager of any device that units go through, and one that goes on behind what a crash left.

ghost use Rattle.std.specs.Prelude.{◌≡◌};
ghost use Rattle.rq_live.specs.Managers.{IsInOrder, stand_of};

use rq_device::{Device, Memory, Successor, WINDOW};
use rq_live::{Manager, NotCarried, NotDone};
use rq_record::{By, ElemId, LogBytes, Name, Payload, QueueNo, UnitNo};
use rq_reopen::{FoundLog, Opening};
use rq_restart::{Plan, closed};
use std::alloc::Global;
use std::test::Fail;
use std::thread::Threads;

/// Defines two queues, and registers a name with the second one.
pub fn defines<D: Device + Drop>(
    alloc: Global,
    m: &mut Manager<D>,
    names: (Name, Name, Name),
) -> Result<(), NotDone>
    requires { IsInOrder (stand_of D.written D.synced D.doubted D.failed m.old) }
    ensures { IsInOrder (stand_of D.written D.synced D.doubted D.failed m.new) }
{
    let (dead, jobs, ann) = names;
    m.define(alloc, 0, QueueNo::NONE, dead)?;
    m.define(alloc, 3, QueueNo(0), jobs)?;
    m.register(alloc, QueueNo(1), ann)
}

/// Unit 1 puts two elements in. Their ids.
pub fn puts_in<D: Device + Drop>(
    alloc: Global,
    m: &mut Manager<D>,
    ann: Name,
    payloads: (Payload, Payload),
) -> Result<(ElemId, ElemId), NotDone>
    requires { IsInOrder (stand_of D.written D.synced D.doubted D.failed m.old) }
    ensures { IsInOrder (stand_of D.written D.synced D.doubted D.failed m.new) }
{
    let (first, second) = payloads;
    let unit = m.begin(alloc)?;
    let by = Some(By { name: ann, tag: 3 });
    let first = m.enqueue(alloc, unit, QueueNo(1), 7, by, first)?;
    let second = m.enqueue(alloc, unit, QueueNo(1), 5, None, second)?;
    m.commit(alloc, unit)?;
    Ok((first, second))
}

/// How many units are committed of five, each of which is to be written and synced.
pub fn committed_of<D: Device + Drop>(alloc: Global, m: &mut Manager<D>) -> usize
    requires { IsInOrder (stand_of D.written D.synced D.doubted D.failed m.old) }
{
    let mut committed = 0usize;
    for unit in 1u64..=5 {
        let is_begun = m.begin(alloc).is_ok();
        if m.commit(alloc, UnitNo(unit)) == Ok(()) && is_begun {
            committed = committed.saturating_add(1);
        }
    }
    committed
}

/// Where a manager goes on; what is cut off goes.
pub fn found_in(opened: Opening) -> FoundLog
    ensures { result ≡ opened.found }
{
    opened.found
}

/// Whether a manager goes on from what a crash left, of which nothing was synced: it aborts what is
/// open there, and then the device has what a closed log has.
pub fn goes_on_from<R: Threads + Sync + AllocGlobal>(
    rt: &R,
    left: &[u8],
    plan: &Plan,
) -> Result<bool, Fail> {
    let want = closed(rt, rt.alloc(), Vec::from_slice(rt.alloc(), left)?, plan)?;
    let Ok(opened) = Opening::of(rt, rt.alloc(), &LogBytes::borrowed(left), plan, false) else {
        return Ok(false);
    };
    if left.len() > WINDOW || left.get(opened.found.end.used..) != Some(opened.cut.as_slice()) {
        return Ok(false);
    }
    let found = found_in(opened);
    let device = Memory::left_by_crash(Vec::from_slice(rt.alloc(), left)?, 0);
    let mut m = Manager::over(device, found.kernel);
    let resumed = m.resume(rt.alloc(), left.len());
    let bytes = m.device().bytes();
    Ok(resumed.is_ok() && bytes == want.as_slice() && m.device().synced() == bytes.len())
}

/// Goes on in another file with a unit open, which is committed there, and then in a third one. How
/// many records were done before each.
pub fn goes_on_twice<D: Device + Drop, S: Successor<D>>(
    alloc: Global,
    m: &mut Manager<D>,
    next: &mut S,
) -> Result<(u64, u64), NotCarried>
    requires { IsInOrder (stand_of D.written D.synced D.doubted D.failed m.old) }
    ensures { IsInOrder (stand_of D.written D.synced D.doubted D.failed m.new) }
{
    let Ok(unit) = m.begin(alloc) else {
        return Err(NotCarried::Spent);
    };
    let first = m.carry(alloc, next)?;
    let Ok(()) = m.commit(alloc, unit) else {
        return Err(NotCarried::Spent);
    };
    let second = m.carry(alloc, next)?;
    Ok((first, second))
}

/// How a manager stands that goes on from what a crash left of a file of either kind, of which nothing
/// was synced: how many units began, how many records were done, and its bytes. None if it does not go
/// on.
pub fn goes_on_in<R: Threads + Sync + AllocGlobal>(
    rt: &R,
    mut left: Vec<u8>,
    plan: &Plan,
) -> Result<Option<(u64, u64, Vec<u8>)>, Fail> {
    let stands = left.len();
    if stands > WINDOW {
        return Ok(None);
    }
    let Ok(opened) = Opening::of_file(rt, rt.alloc(), &mut left, plan, false) else {
        return Ok(None);
    };
    let found = found_in(opened);
    let mut m = Manager::over(Memory::left_by_crash(left, 0), found.kernel);
    let Ok(()) = m.resume(rt.alloc(), stands) else {
        return Ok(None);
    };
    let (Ok(unit), Ok(records)) = (m.greatest(), m.record_count()) else {
        return Ok(None);
    };
    let bytes = Vec::from_slice(rt.alloc(), m.device().bytes())?;
    Ok(Some((unit.0, records, bytes)))
}
