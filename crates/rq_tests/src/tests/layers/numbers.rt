//! How far record numbers go: in a log, and in a carried file.

use rq_front::{carried_header_of, frame, read_as_log};
use rq_record::{Fault, Version};
use rq_restart::{Open, Plan, restart_at, restart_carried};
use rq_state::{State, read_in, read_up_to, spell_carried};
use std::alloc::Global;
use std::test::Fail;

// The next record number of a state without members, and whether a log spells it, and a carried file.
const NUMBERS: [(u64, bool, bool); 6] = [
    (0, true, true),
    (4_294_967_295, true, true),
    (4_294_967_296, false, true),
    (9_223_372_036_854_775_807, false, true),
    (9_223_372_036_854_775_808, false, false),
    (18_446_744_073_709_551_615, false, false),
];

// The spelling of that state, by hand.
fn spelling(alloc: Global, next: u64) -> Result<Vec<u8>, Fault> {
    let mut bytes = Vec::from_slice(alloc, &next.to_be_bytes())?;
    bytes.extend_from_slice(&[0; 44])?;
    Ok(bytes)
}

// Whether the state that was read has this spelling; else whether it is refused as none.
fn is_spelled(read: Result<State, Fault>, alloc: Global, bytes: &[u8]) -> Result<bool, Fail> {
    match read {
        Ok(state) => Ok(spell_carried(alloc, &state)?.as_slice() == bytes),
        Err(Fault::BadCheckpoint) => Ok(false),
        Err(fault) => Err(fault.into()),
    }
}

#[test]
fn a_carried_file_spells_greater_numbers_than_a_log(rt: HostRuntime) -> Result<(), Fail> {
    let alloc = rt.alloc();
    for (next, in_log, in_carried) in NUMBERS {
        let bytes = spelling(alloc, next)?;
        let log = is_spelled(read_in(alloc, Version::One, &bytes), alloc, &bytes)?;
        let most = State::CARRIED_RECORDS;
        let carried = read_up_to(alloc, Version::Two, most, &bytes);
        assert!(rt;
            log == in_log && is_spelled(carried, alloc, &bytes)? == in_carried,
            "{next}"
        );
    }
    Ok(())
}

// A carried file that begins with a checkpoint of these bytes, as it is read.
fn carried_file(alloc: Global, spelling: &[u8]) -> Result<Vec<u8>, Fault> {
    let mut file = Vec::new(alloc);
    carried_header_of(Version::One, &mut file)?;
    file.extend_from_slice(&[0; 32])?;
    let mut body = Vec::from_slice(alloc, &[9])?;
    body.extend_from_slice(spelling)?;
    frame(&[0; 32], &body, &mut file)?;
    read_as_log(&mut file);
    Ok(file)
}

#[test]
fn a_restart_takes_the_numbers_of_its_kind_of_file(rt: HostRuntime) -> Result<(), Fail> {
    let alloc = rt.alloc();
    let plan = Plan::new(2, 1).ok_or("plan")?;
    for (next, in_log, in_carried) in NUMBERS {
        let file = carried_file(alloc, &spelling(alloc, next)?)?;
        let log = restart_at(&rt, alloc, &file, 72, &plan, &Open);
        let carried = restart_carried(&rt, alloc, &file, 72, &plan, &Open);
        let want = next.wrapping_add(1);
        assert!(rt;
            log.is_ok() == in_log && carried.is_ok() == in_carried,
            "{next}"
        );
        if let Ok(restarted) = carried {
            assert!(rt;
                restarted.records() == want && restarted.state().next() == want,
                "{next}"
            );
        }
    }
    Ok(())
}
