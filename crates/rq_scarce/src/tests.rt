//! What calls answer if the host has little memory left, or none.

mod appending;
mod commands;
mod host;
mod replays;
mod rooms;
mod workers;

use appending::Appending;
use commands::Acting;
use host::Scarce;
use replays::Replaying;
use rooms::{arrive, open};
use rq_tool::Fault;
use std::alloc::Global;
use std::test::Fail;
use std::thread::Threads;

// By how many bytes what a round leaves grows: less than any block takes.
const STEP: usize = 16;

// This many rounds without a refusal are enough.
const ENOUGH: u32 = 500;

// The most rounds.
const ROUNDS: usize = 20_000;

/// A call that is refused memory at each place in turn.
#[derive(Drop)]
enum Call<'a> {
    Act(Acting<'a>),
    Append(Appending),
    Arrive,
    Open,
    Replay(Replaying<'a>),
}

impl Call<'_> {
    // Calls, and puts what it answers behind what is lent.
    fn call<R: Threads + Sync + AllocGlobal>(
        &mut self,
        rt: &R,
        lent: &mut Vec<u8>,
    ) -> Result<(), Fault> {
        match self {
            Call::Act(acting) => acting.call(rt, lent),
            Call::Append(appending) => appending.call(lent),
            Call::Arrive => arrive(rt.alloc(), lent),
            Call::Open => open(rt.alloc(), lent),
            Call::Replay(replaying) => replaying.call(rt),
        }
    }

    // Puts there what it could not while there was little memory.
    fn tell(&mut self, alloc: Global, lent: &mut Vec<u8>) -> Result<(), Fail> {
        match self {
            Call::Replay(replaying) => replaying.tell(alloc, lent),
            _ => Ok(()),
        }
    }
}

// What a call is lent: this, and, if it is nothing, room for the answer. What must be there after
// it, and what the rounds came to.
#[derive(Drop)]
struct Trial<'a> {
    before: &'a [u8],
    want: &'a [u8],
    lent: Vec<u8>,
    // How many were refused, and left what was lent.
    refused: u32,
    // How many were neither refused so nor answered.
    wrong: u32,
    // How many of the last were answered one after the other.
    last: u32,
}

impl Trial<'_> {
    // Makes what a round lends.
    fn prepare(&mut self, alloc: Global) -> Result<(), Fail> {
        if self.before.is_empty() {
            self.lent.clear();
        } else {
            self.lent = Vec::from_slice(alloc, self.before)?;
        }
        Ok(())
    }

    fn is_whole(&self) -> bool {
        self.lent.as_slice() == self.want
    }

    fn is_untouched(&self) -> bool {
        self.lent.as_slice() == self.before
    }

    // Counts a round that ended so.
    fn count(&mut self, answer: Result<(), Fault>) {
        match answer {
            Ok(()) if self.is_whole() => {
                self.last = self.last.wrapping_add(1);
                return;
            }
            Err(Fault::Resources) if self.is_untouched() => {
                self.refused = self.refused.wrapping_add(1);
            }
            _ => self.wrong = self.wrong.wrapping_add(1),
        }
        self.last = 0;
    }

    // Whether some rounds were refused, the last ones answered, and none went wrong.
    fn is_right(&self) -> bool {
        self.wrong == 0 && self.refused > 0 && self.last >= ENOUGH
    }
}

// Calls with this many bytes left.
fn round<R: Threads + Sync + AllocGlobal>(
    rt: &R,
    scarce: &mut Scarce,
    bytes: usize,
    call: &mut Call<'_>,
    trial: &mut Trial<'_>,
) -> Result<(), Fail> {
    trial.prepare(rt.alloc())?;
    scarce.leave(bytes)?;
    let answer = call.call(rt, &mut trial.lent);
    scarce.relieve();
    call.tell(rt.alloc(), &mut trial.lent)?;
    trial.count(answer);
    Ok(())
}

// Calls with ever more, until that is enough.
fn rounds<R: Threads + Sync + AllocGlobal>(
    rt: &R,
    scarce: &mut Scarce,
    call: &mut Call<'_>,
    trial: &mut Trial<'_>,
) -> Result<(), Fail> {
    for place in 0..ROUNDS {
        round(rt, scarce, STEP * place, call, trial)?;
        if trial.last >= ENOUGH {
            break;
        }
    }
    Ok(())
}

// Whether the call answers this, however little memory there is, or is refused memory and leaves
// what was there before.
fn is_right<R: Threads + Sync + AllocGlobal>(
    rt: &R,
    call: &mut Call<'_>,
    before: &[u8],
    want: &[u8],
) -> Result<bool, Fail> {
    let mut trial = Trial {
        before,
        want,
        lent: Vec::with_capacity(rt.alloc(), want.len())?,
        refused: 0,
        wrong: 0,
        last: 0,
    };
    let mut scarce = Scarce::begin(rt.alloc())?;
    rounds(rt, &mut scarce, call, &mut trial)?;
    Ok(trial.is_right())
}
