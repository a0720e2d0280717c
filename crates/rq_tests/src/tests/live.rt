//! A manager over memory that is asked a few calls, and goes on after a crash; and one over a device
//! that fails. `tests/live/driven.py` asks all else.

ghost use Rattle.std.specs.Prelude.{◌≡◌, IfErr, is_err};
ghost use Rattle.rq_record.specs.declared.fault.Fault.TheVariants.{WriteFailed};

use rq_device::{Device, Memory};
use rq_live::Manager;
use rq_record::{ElemId, Fault, Name, Payload, Version};
use rq_restart::Plan;
use rq_rows::{CHECKPOINT, committed_of, defines, goes_on_from, log_in, puts_in};
use std::alloc::Global;
use std::test::Fail;

fn name(bytes: &[u8]) -> Result<Name, Fail> {
    match Name::new(bytes) {
        Some(name) => Ok(name),
        None => Err("name".into()),
    }
}

fn payload(alloc: Global, bytes: &[u8]) -> Result<Payload, Fail> {
    match Payload::new(Vec::from_slice(alloc, bytes)?) {
        Some(payload) => Ok(payload),
        None => Err("payload".into()),
    }
}

#[test]
fn a_manager_answers_what_was_asked(rt: HostRuntime) -> Result<(), Fail> {
    let mut m = Manager::new(rt.alloc(), Version::Two, Memory::new(rt.alloc()))?;
    let (dead, jobs, ann) = (name(b"dead")?, name(b"jobs")?, name(b"ann")?);
    let payloads = (payload(rt.alloc(), b"a")?, payload(rt.alloc(), b"b")?);
    assert!(rt; defines(rt.alloc(), &mut m, (dead, jobs, ann)) == Ok(()));
    let put = puts_in(rt.alloc(), &mut m, ann, payloads);
    assert!(rt; put == Ok((ElemId(4), ElemId(5))));
    Ok(())
}

// A crash leaves any beginning of what was written.
#[test]
fn a_manager_goes_on_from_each_beginning(rt: HostRuntime) -> Result<(), Fail> {
    let plan = Plan::new(1, 1000).ok_or("plan")?;
    let log = log_in(&rt, Version::Two, CHECKPOINT)?;
    for len in 40..=log.len() {
        let left = log.get(..len).unwrap_or(&[]);
        assert!(rt; goes_on_from(&rt, left, &plan)?, "{len} bytes");
    }
    Ok(())
}

// A device that keeps nothing, and whose calls fail once so many were made.
#[derive(Drop)]
struct Failing {
    most: usize,
    calls: usize,
    failed: bool,
}

impl Failing {
    // Counts a call, and says whether it is done.
    fn call(&mut self) -> Result<(), Fault>
        ensures fails { self.new.failed ≡ is_err result }
        ensures refused { IfErr result (λ e. e ≡ WriteFailed) }
    {
        self.failed = self.calls >= self.most;
        self.calls = self.calls.saturating_add(1);
        if self.failed {
            return Err(Fault::WriteFailed);
        }
        Ok(())
    }
}

impl Device for Failing {
    ghost failed = { λ it. it.failed };

    fn write(&mut self, piece: &[u8]) -> Result<usize, Fault> {
        self.call()?;
        Ok(piece.len())
    }

    fn sync(&mut self) -> Result<(), Fault> {
        self.call()
    }

    fn rewrite(&mut self, _from: usize) -> Result<(), Fault> {
        self.call()
    }

    fn cut(&mut self, _len: usize) -> Result<(), Fault> {
        self.call()
    }
}

// How many calls are made of a device that fails from one of them on, and how many units are
// committed.
fn calls_of(alloc: Global, most: usize) -> Result<(usize, usize), Fault> {
    let device = Failing {
        most,
        calls: 0,
        failed: false,
    };
    let mut m = Manager::new(alloc, Version::One, device)?;
    let committed = committed_of(alloc, &mut m);
    Ok((m.device().calls, committed))
}

// The call that fails is the last, and no later commit is answered.
#[test]
fn a_device_that_failed_is_not_called_again(rt: HostRuntime) -> Result<(), Fail> {
    for most in 0..10 {
        let calls = calls_of(rt.alloc(), most)?;
        assert!(rt; calls == (most + 1, most / 2), "{most}");
    }
    assert!(rt; calls_of(rt.alloc(), 10)? == (10, 5));
    Ok(())
}
