//! A standby that goes along with a log by two pieces.

use rq_follow::Follower;
use rq_restart::Plan;
use std::test::Fail;
use std::thread::Threads;

/// Of two pieces of a log that come one after the other: how many records their front has, how many
/// bytes it takes, and how many came.
pub fn followed<R: Threads + Sync + AllocGlobal>(
    rt: &R,
    first: &[u8],
    second: &[u8],
) -> Result<(usize, usize, usize), Fail> {
    let plan = Plan::new(1, 1).ok_or("plan")?;
    let mut follower = Follower::new(rt.alloc());
    follower.take(rt, rt.alloc(), first, &plan)?;
    follower.take(rt, rt.alloc(), second, &plan)?;
    let (total, front) = (follower.bytes_come(), follower.redone(rt.alloc())?);
    Ok((front.end.records, front.end.used, total))
}
