//! Replay: the state is whole, or the answer is that memory was refused.

use super::{Call, is_right};
use rq_record::Version;
use rq_rows::{Lawful, lawful_of, log_in, records_of, replayed, spelled};
use rq_state::State;
use rq_tool::{Fault, Plan};
use std::alloc::Global;
use std::test::Fail;
use std::thread::Threads;

// An abort takes an element out of its queue, and another takes it out of its error queue, to the
// end of the chain. A registrant that is still at work takes it there.
const CHAINED: &[u8] = b"define dead 0 -\ndefine late 1 0\ndefine jobs 1 1\nregister 0 ann\n\
    begin 1\nenqueue 1 2 5 - 0 61\ncommit 1\n\
    begin 2\ndequeue 2 2 - 0\nabort 2\n\
    begin 3\ndequeue 3 1 - 0\nabort 3\n\
    begin 4\ndequeue 4 0 ann 70\n";

/// Lawful records, and the state after them, which is spelled once there is memory again.
#[derive(Drop)]
pub struct Replaying<'a> {
    plan: Plan,
    lawful: &'a Lawful,
    state: Option<State>,
}

impl Replaying<'_> {
    pub fn call<R: Threads + Sync + AllocGlobal>(&mut self, rt: &R) -> Result<(), Fault> {
        self.state = Some(replayed(rt, self.lawful, &self.plan)?);
        Ok(())
    }

    pub fn tell(&mut self, alloc: Global, lent: &mut Vec<u8>) -> Result<(), Fail> {
        if let Some(state) = self.state.take() {
            lent.extend_from_slice(&spelled(alloc, &state)?)?;
        }
        Ok(())
    }
}

// What the state after the records spells, as one worker has it with ample memory.
fn wanted<R: Threads + Sync + AllocGlobal>(rt: &R, lawful: &Lawful) -> Result<Vec<u8>, Fail> {
    let alone = Plan::new(1, 1).ok_or("plan")?;
    let state = replayed(rt, lawful, &alone)?;
    Ok(spelled(rt.alloc(), &state)?)
}

// The state is the same, however little memory there is, or there is none. No thread is started
// before: if no memory is left, each is refused.
#[test]
fn a_replay_is_whole_or_refused(rt: HostRuntime) -> Result<(), Fail> {
    let log = log_in(&rt, Version::Two, CHAINED)?;
    assert!(rt; log.len() == 777);
    let lawful = lawful_of(rt.alloc(), records_of(rt.alloc(), Version::Two, &log)?)?;
    assert!(rt; lawful.records.len() == 15);
    let want = wanted(&rt, &lawful)?;
    for workers in [1, 2] {
        let mut replaying = Call::Replay(Replaying {
            plan: Plan::new(workers, 1).ok_or("plan")?,
            lawful: &lawful,
            state: None,
        });
        assert!(rt;
            is_right(&rt, &mut replaying, &[], &want)?,
            "{workers} workers"
        );
    }
    Ok(())
}
