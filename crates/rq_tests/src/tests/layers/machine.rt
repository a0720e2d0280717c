//! A machine that takes one record after the other, beside a replay of the same records.

ghost use Rattle.std.specs.Prelude.{◌≤◌, ◌<◌, length};

use super::courses::state_after;
use super::plain::{NO_QUEUE, Plain, Who, named, record_of};
use crate::tests::machine_spelled;
use Plain::{
    Abort, Begin, Checkpoint, Commit, Define, Dequeue, Deregister, Enqueue, Kill, Register,
};
use rq_lawful::Rule;
use rq_plan::Plan;
use rq_record::{ElemId, Fault, KeptName, KeptRecord, QueueNo, Record, Version};
use rq_rows::{first_of, lists, marks, spelled};
use rq_standing::{Machine, Taken};
use rq_state::{Last, State};
use std::alloc::Global;
use std::test::Fail;
use std::thread::Threads;

// What becomes of a record: nothing, it is done, or it takes the element of this id.
#[derive(Drop)]
enum Want {
    Nothing,
    Done,
    Took(u64),
}

use Want::{Done, Nothing, Took};

// A record, and what becomes of it.
type Case = (Want, Plain);

const ANN: Who = Some(("ann", 70));

const BOB: Who = Some(("bob", 71));

// An error queue, one with an error queue, one whose error queue that is, and one without.
const CASES: &[Case] = &[
    (Nothing, Begin(0)),
    (Done, Define(0, NO_QUEUE, "dead")),
    (Done, Define(2, 0, "late")),
    (Done, Define(1, 1, "jobs")),
    (Nothing, Define(1, 1, "jobs")),
    (Done, Define(0, NO_QUEUE, "mail")),
    (Done, Register(2, "ann")),
    (Done, Register(3, "bob")),
    (Nothing, Deregister(3, "ann")),
    (Done, Begin(1)),
    (Nothing, Begin(1)),
    (Done, Enqueue(1, 2, ANN)),
    (Done, Enqueue(1, 2, None)),
    (Done, Enqueue(1, 3, BOB)),
    (Nothing, Enqueue(1, 3, ANN)),
    (Done, Dequeue(1, 2, ANN)),
    (Done, Begin(2)),
    (Done, Dequeue(2, 2, None)),
    (Done, Commit(1)),
    (Done, Checkpoint),
    (Took(7), Dequeue(2, 2, ANN)),
    (Took(9), Dequeue(2, 3, None)),
    (Took(8), Dequeue(2, 2, None)),
    (Done, Dequeue(2, 2, None)),
    (Done, Begin(3)),
    (Done, Enqueue(3, 2, ANN)),
    (Done, Enqueue(3, 1, None)),
    (Done, Abort(2)),
    (Nothing, Commit(2)),
    (Took(7), Dequeue(3, 1, None)),
    (Took(8), Dequeue(3, 1, None)),
    (Took(9), Dequeue(3, 3, BOB)),
    (Done, Abort(3)),
    (Done, Begin(5)),
    (Took(7), Dequeue(5, 1, None)),
    (Done, Kill(1, 7)),
    (Done, Kill(1, 8)),
    (Done, Kill(1, 8)),
    (Nothing, Kill(4, 8)),
    (Done, Deregister(3, "bob")),
    (Done, Register(3, "bob")),
    (Done, Register(3, "bob")),
    (Done, Begin(6)),
    (Took(9), Dequeue(6, 3, BOB)),
    (Done, Deregister(3, "bob")),
    (Done, Abort(5)),
    (Done, Commit(6)),
    (Done, Begin(7)),
    (Took(7), Dequeue(7, 0, None)),
    (Done, Enqueue(7, 0, None)),
    (Done, Abort(7)),
];

fn kept(alloc: Global, plain: &Plain) -> Result<KeptRecord, Fail> {
    let record = record_of(alloc, plain)?;
    Ok(KeptRecord::of(alloc, &record)?)
}

// Whether what was done, and the element that was taken, is what is noted beside the record.
fn is_done(element: Option<ElemId>, want: &Want) -> bool {
    match (element, want) {
        (None, Want::Done) => true,
        (Some(element), Want::Took(id)) => element.0 == *id,
        _ => false,
    }
}

// The rule that there is no KILL is one of version 1 alone.
fn is_broken(rule: Rule, want: &Want) -> bool {
    !matches!(rule, Rule::NoKill) && matches!(want, Want::Nothing)
}

// Whether this becomes of the record.
fn takes(
    alloc: Global,
    machine: &mut Machine,
    record: &KeptRecord,
    want: &Want,
) -> Result<bool, Fail> {
    match machine.take(alloc, Version::Two, record)? {
        Taken::Unlawful(rule) => Ok(is_broken(rule, want)),
        Taken::Done(element) => Ok(is_done(element, want)),
    }
}

// Whether what is noted beside the record becomes of it, and whether a rule is said to be broken
// before if nothing does.
fn goes_by(alloc: Global, machine: &mut Machine, case: &Case) -> Result<bool, Fail> {
    let record = kept(alloc, &case.1)?;
    let broken = machine.broken(Version::Two, &record).is_some();
    let as_noted = takes(alloc, machine, &record, &case.0)?;
    Ok(as_noted && broken == matches!(case.0, Want::Nothing))
}

// Whether what is noted beside each record becomes of it.
fn goes_on(alloc: Global, machine: &mut Machine, cases: &[Case]) -> Result<bool, Fail> {
    for case in cases {
        if !goes_by(alloc, machine, case)? {
            return Ok(false);
        }
    }
    Ok(true)
}

// The machine behind the records.
fn behind(alloc: Global, mut machine: Machine, cases: &[Case]) -> Result<Machine, Fail> {
    if !goes_on(alloc, &mut machine, cases)? {
        return Err("something else became of a record".into());
    }
    Ok(machine)
}

// What its state spells, if half-way the machine is made anew of its state.
fn stood(alloc: Global, cases: &[Case]) -> Result<Vec<u8>, Fail> {
    let (first, last) = cases.split_at(cases.len() / 2);
    let half = behind(alloc, Machine::empty(alloc), first)?;
    let again = Machine::of(alloc, &half.state(alloc)?)?;
    let state = behind(alloc, again, last)?.state(alloc)?;
    Ok(spelled(alloc, &state)?)
}

// The records of which something becomes.
fn taken(alloc: Global, cases: &[Case]) -> Result<Vec<Record>, Fail> {
    let mut records = Vec::new(alloc);
    for case in cases {
        if !matches!(case.0, Want::Nothing) {
            records.push(record_of(alloc, &case.1)?)?;
        }
    }
    Ok(records)
}

// What the state after these spells, by a replay.
fn replayed<R: Threads + Sync + AllocGlobal>(rt: &R, cases: &[Case]) -> Result<Vec<u8>, Fail> {
    let plan = Plan::new(2, 1).ok_or("plan")?;
    let state = state_after(rt, taken(rt.alloc(), cases)?, &plan)?;
    Ok(spelled(rt.alloc(), &state)?)
}

#[test]
fn it_stands_where_a_replay_comes_to(rt: HostRuntime) -> Result<(), Fail> {
    for count in 0..=CASES.len() {
        let cases = &CASES[..count];
        assert!(rt;
            stood(rt.alloc(), cases)? == replayed(&rt, cases)?,
            "after {count} records"
        );
    }
    Ok(())
}

// Whether the bytes still spell the state if one of them is another.
fn is_spelled_with(alloc: Global, machine: &Machine, bytes: &[u8], at: usize) -> Result<bool, Fail>
    requires within { at < length bytes.now }
    requires short { length bytes.now ≤ 268435455 }
{
    let mut others = Vec::from_slice(alloc, bytes)?;
    others[at] ^= 1;
    Ok(machine.is_spelled_by(alloc, &others)?)
}

// Whether the machine says of these bytes that they spell its state, and denies it of all that are
// one byte fewer, or have another byte.
fn is_spelled_by_these_alone(alloc: Global, machine: &Machine, bytes: &[u8]) -> Result<bool, Fail>
    requires { length bytes.now ≤ 268435455 }
{
    if bytes.is_empty() || machine.is_spelled_by(alloc, &bytes[1..])? {
        return Ok(false);
    }
    for at in 0..bytes.len() {
        if is_spelled_with(alloc, machine, bytes, at)? {
            return Ok(false);
        }
    }
    Ok(machine.is_spelled_by(alloc, bytes)?)
}

// Whether the machine spells these bytes, and so does one that is read from them. From fewer none
// is read.
fn spells(alloc: Global, machine: &Machine, bytes: &[u8]) -> Result<bool, Fail> {
    let own = machine_spelled(alloc, machine)?;
    let read = Machine::read(alloc, Version::Two, bytes)?;
    let again = machine_spelled(alloc, &read)?;
    let fewer = bytes.get(1..).ok_or("fewer")?;
    let refused = matches!(
        Machine::read(alloc, Version::Two, fewer),
        Err(Fault::BadCheckpoint)
    );
    Ok(own.as_slice() == bytes && again.as_slice() == bytes && refused)
}

// Whether the machine knows the numbers of the state, its queues and its open units.
fn has_numbers_of(alloc: Global, machine: &Machine, state: &State) -> Result<bool, Fail> {
    let units = machine.open_units(alloc)?;
    Ok(
        machine.next() == state.next()
            && machine.greatest() == state.greatest()
            && machine.definitions().len() == state.definition_count()
            && machine.open_count() == units.len()
            && units.as_slice() == state.units(),
    )
}

// Whether the machine knows its numbers, how much room its state needs at least, and what it
// spells.
fn knows(alloc: Global, machine: &Machine) -> Result<bool, Fail> {
    let state = machine.state(alloc)?;
    let bytes = spelled(alloc, &state)?;
    let room = machine.fits(bytes.len()) && !machine.fits(51);
    Ok(
        room && has_numbers_of(alloc, machine, &state)?
            && spells(alloc, machine, &bytes)?
            && is_spelled_by_these_alone(alloc, machine, &bytes)?,
    )
}

#[test]
fn it_knows_its_numbers_and_its_spelling(rt: HostRuntime) -> Result<(), Fail> {
    let alloc = rt.alloc();
    for count in 0..=CASES.len() {
        let machine = behind(alloc, Machine::empty(alloc), &CASES[..count])?;
        assert!(rt; knows(alloc, &machine)?, "after {count} records");
    }
    Ok(())
}

// Behind the checkpoint, and behind the two records after it, which take two elements.
#[test]
fn it_tells_what_is_in_its_queues(rt: HostRuntime) -> Result<(), Fail> {
    let alloc = rt.alloc();
    let machine = behind(alloc, Machine::empty(alloc), &CASES[..20])?;
    assert!(rt; lists(alloc, &machine, 0, &[])? && lists(alloc, &machine, 2, &[7, 8])?);
    assert!(rt; lists(alloc, &machine, 3, &[9])? && first_of(&machine, 4).is_none());
    assert!(rt; marks(&machine, 2, 2, None));
    let machine = behind(alloc, machine, &CASES[20..22])?;
    assert!(rt; lists(alloc, &machine, 2, &[8])? && lists(alloc, &machine, 3, &[])?);
    assert!(rt; marks(&machine, 2, 2, Some(7)) && marks(&machine, 3, 2, Some(9)));
    assert!(rt; marks(&machine, 2, 1, None));
    Ok(())
}

// Whether this is the operation.
fn is_last(last: &Last, place: u64, tag: u64, took: Option<u64>) -> bool {
    let element = match last.element {
        Some(id) => Some(id.0),
        None => None,
    };
    last.place == place && last.tag == tag && element == took
}

// The last operation of a registrant, if there is one; none if nobody is registered by the name.
fn last_of<'a>(
    alloc: Global,
    machine: &'a Machine,
    queue: u32,
    name: &str,
) -> Result<Option<Option<&'a Last>>, Fail> {
    let name = KeptName::of(alloc, &named(name)?)?;
    Ok(machine.last(QueueNo(queue), &name))
}

// Behind the first unit: ann put one in and then found none to take, bob put one in.
#[test]
fn it_tells_the_last_operation_of_who_is_registered(rt: HostRuntime) -> Result<(), Fail> {
    let alloc = rt.alloc();
    let machine = behind(alloc, Machine::empty(alloc), &CASES[..18])?;
    assert!(rt; matches!(last_of(alloc, &machine, 2, "ann")?, Some(None)));
    let machine = behind(alloc, machine, &CASES[18..19])?;
    let ann = last_of(alloc, &machine, 2, "ann")?;
    assert!(rt; matches!(ann, Some(Some(last)) if is_last(last, 10, 70, None)));
    let bob = last_of(alloc, &machine, 3, "bob")?;
    assert!(rt; matches!(bob, Some(Some(last)) if is_last(last, 9, 71, Some(9))));
    assert!(rt; last_of(alloc, &machine, 2, "bob")?.is_none());
    assert!(rt; last_of(alloc, &machine, 4, "ann")?.is_none());
    Ok(())
}

// Whether the rules of the version say that there is no KILL.
fn has_no_kill(alloc: Global, version: Version) -> Result<bool, Fail> {
    let kill = kept(alloc, &Kill(0, 1))?;
    let mut machine = Machine::empty(alloc);
    let taken = machine.take(alloc, version, &kill)?;
    Ok(matches!(taken, Taken::Unlawful(Rule::NoKill)))
}

#[test]
fn it_goes_by_the_rules_of_the_version(rt: HostRuntime) -> Result<(), Fail> {
    assert!(rt; has_no_kill(rt.alloc(), Version::One)?);
    assert!(rt; !has_no_kill(rt.alloc(), Version::Two)?);
    Ok(())
}
