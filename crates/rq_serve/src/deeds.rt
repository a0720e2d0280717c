//! What is done for each request.

ghost use Rattle.std.specs.Prelude.{◌≡◌, true, IsErr, IfErr, IfOk};
ghost use Rattle.rq_live.specs.Carries.{GoesOver};
ghost use Rattle.rq_live.specs.Managers.{IsInOrder, stand_of};
ghost use Rattle.rq_serve.specs.Serving.{DoomsIfRefused, DoomsUnit, KeepsBut, NeverCommits};
ghost use Rattle.rq_serve.specs.Units.{is_doomed, KeepsDoomed, KeepsOthers};

use crate::answers::Answer;
use crate::doomed::Doomed;
use crate::listings::{listed, queue_at, queues_told};
use crate::operators::Operator;
use crate::queue_names::QueueNames;
use crate::refusals::{Refused, Undone};
use crate::requests::Request;
use rq_device::{Device, Successor};
use rq_live::Manager;
use rq_record::{By, ElemId, KeptName, Name, Payload, QueueNo, Record, UnitNo};
use std::alloc::Global;

// The number of the queue of this name, if there is one.
fn number_of<D: Device + Drop>(
    m: &Manager<D>,
    names: &mut QueueNames,
    queue: &Name,
) -> Result<Option<QueueNo>, Undone> {
    names.look_up(m.definitions()?, queue)
}

// The number of the queue of this name. Refused with `NoQueue`.
fn expect_queue<D: Device + Drop>(
    m: &Manager<D>,
    names: &mut QueueNames,
    queue: &Name,
) -> Result<QueueNo, Undone> {
    match number_of(m, names, queue)? {
        Some(number) => Ok(number),
        None => Err(Undone::Refused(Refused::NoQueue)),
    }
}

// The name of a queue that is there.
fn name_of<D: Device + Drop>(m: &Manager<D>, queue: QueueNo) -> Result<Name, Undone> {
    match m.definitions()?.get(queue.0 as usize) {
        Some(d) => Ok(d.name),
        None => Err(Undone::Spent),
    }
}

// A queue that is defined already: its number, if it is defined just so.
fn defined_so<D: Device + Drop>(
    m: &Manager<D>,
    number: QueueNo,
    limit: u16,
    error: Option<QueueNo>,
) -> Result<Answer, Undone> {
    match m.definitions()?.get(number.0 as usize) {
        Some(d) if d.limit == limit && Some(d.error) == error => Ok(Answer::Queue(number)),
        _ => Err(Undone::Refused(Refused::Defined)),
    }
}

// Defines a queue that is not there.
fn define_new<D: Device + Drop>(
    alloc: Global,
    m: &mut Manager<D>,
    queue: Name,
    limit: u16,
    error: Option<QueueNo>,
) -> Result<Answer, Undone>
    requires { IsInOrder (stand_of D.written D.synced D.doubted D.failed m.old) }
    ensures { IsInOrder (stand_of D.written D.synced D.doubted D.failed m.new) }
{
    let Some(error) = error else {
        return Err(Undone::Refused(Refused::NoQueue));
    };
    let number = queue_at(m.definitions()?.len())?;
    m.define(alloc, limit, error, queue)?;
    Ok(Answer::Queue(number))
}

fn define<D: Device + Drop>(
    alloc: Global,
    m: &mut Manager<D>,
    names: &mut QueueNames,
    queue: Name,
    limit: u16,
    error: Option<Name>,
) -> Result<Answer, Undone>
    requires { IsInOrder (stand_of D.written D.synced D.doubted D.failed m.old) }
    ensures { IsInOrder (stand_of D.written D.synced D.doubted D.failed m.new) }
{
    let error = match error {
        Some(name) => number_of(m, names, &name)?,
        None => Some(QueueNo::NONE),
    };
    match number_of(m, names, &queue)? {
        Some(number) => defined_so(m, number, limit, error),
        None => define_new(alloc, m, queue, limit, error),
    }
}

// The last operation of a registrant, if it is one.
fn last_of<D: Device + Drop>(
    alloc: Global,
    m: &Manager<D>,
    queue: QueueNo,
    who: &Name,
) -> Result<Option<Answer>, Undone> {
    let who = KeptName::of(alloc, who)?;
    Ok(match m.last(queue, &who)? {
        Some(Some(last)) => Some(Answer::Last(last.copied())),
        Some(None) => Some(Answer::NoLast),
        None => None,
    })
}

fn register<D: Device + Drop>(
    alloc: Global,
    m: &mut Manager<D>,
    names: &mut QueueNames,
    queue: Name,
    who: Name,
) -> Result<Answer, Undone>
    requires { IsInOrder (stand_of D.written D.synced D.doubted D.failed m.old) }
    ensures { IsInOrder (stand_of D.written D.synced D.doubted D.failed m.new) }
{
    let queue = expect_queue(m, names, &queue)?;
    if let Some(answer) = last_of(alloc, m, queue, &who)? {
        return Ok(answer);
    }
    m.register(alloc, queue, who)?;
    Ok(Answer::NoLast)
}

fn deregister<D: Device + Drop>(
    alloc: Global,
    m: &mut Manager<D>,
    names: &mut QueueNames,
    queue: Name,
    who: Name,
) -> Result<Answer, Undone>
    requires { IsInOrder (stand_of D.written D.synced D.doubted D.failed m.old) }
    ensures { IsInOrder (stand_of D.written D.synced D.doubted D.failed m.new) }
{
    let queue = expect_queue(m, names, &queue)?;
    m.deregister(alloc, queue, who)?;
    Ok(Answer::Done)
}

fn tell_last<D: Device + Drop>(
    alloc: Global,
    m: &Manager<D>,
    names: &mut QueueNames,
    queue: &Name,
    who: &Name,
) -> Result<Answer, Undone> {
    let queue = expect_queue(m, names, queue)?;
    match last_of(alloc, m, queue, who)? {
        Some(answer) => Ok(answer),
        None => Err(Undone::Refused(Refused::NoRegistrant)),
    }
}

fn begin<D: Device + Drop>(
    alloc: Global,
    m: &mut Manager<D>,
    unit: Option<UnitNo>,
) -> Result<Answer, Undone>
    requires { IsInOrder (stand_of D.written D.synced D.doubted D.failed m.old) }
    ensures { IsInOrder (stand_of D.written D.synced D.doubted D.failed m.new) }
{
    match unit {
        Some(unit) => {
            m.take(alloc, &Record::Begin { unit })?;
            Ok(Answer::Unit(unit))
        }
        None => Ok(Answer::Unit(m.begin(alloc)?)),
    }
}

fn enqueue<D: Device + Drop>(
    alloc: Global,
    m: &mut Manager<D>,
    names: &mut QueueNames,
    unit: UnitNo,
    queue: &Name,
    priority: u8,
    by: Option<By>,
    payload: Payload,
) -> Result<Answer, Undone>
    requires { IsInOrder (stand_of D.written D.synced D.doubted D.failed m.old) }
    ensures { IsInOrder (stand_of D.written D.synced D.doubted D.failed m.new) }
{
    let queue = expect_queue(m, names, queue)?;
    let id = m.enqueue(alloc, unit, queue, priority, by, payload)?;
    Ok(Answer::Element(id))
}

fn dequeue<D: Device + Drop>(
    alloc: Global,
    m: &mut Manager<D>,
    names: &mut QueueNames,
    unit: UnitNo,
    queue: &Name,
    by: Option<By>,
) -> Result<Answer, Undone>
    requires { IsInOrder (stand_of D.written D.synced D.doubted D.failed m.old) }
    ensures { IsInOrder (stand_of D.written D.synced D.doubted D.failed m.new) }
{
    let queue = expect_queue(m, names, queue)?;
    match m.dequeue_free(alloc, unit, queue, by)? {
        Some(e) => Ok(Answer::Taken(name_of(m, e.origin)?, e)),
        None => Ok(Answer::Nothing),
    }
}

// An operation of a unit that is refused dooms it, if it is open. Why it is not done then.
fn doomed_by<D: Device + Drop>(
    m: &Manager<D>,
    doomed: &mut Doomed,
    unit: UnitNo,
    why: Undone,
) -> Undone
    ensures dooms { DoomsUnit (stand_of D.written D.synced D.doubted D.failed m.now)
        unit.0 result doomed.new }
    ensures keeps { KeepsDoomed doomed.old doomed.new }
{
    match (why, m.is_open(unit)) {
        (Undone::Refused(_), Ok(false)) => why,
        (Undone::Refused(_), Ok(true)) => match doomed.add(unit) {
            Ok(()) => why,
            Err(_) => Undone::Spent,
        },
        _ => Undone::Spent,
    }
}

// Commits a unit, unless it is doomed.
fn commit<D: Device + Drop>(
    alloc: Global,
    m: &mut Manager<D>,
    doomed: &Doomed,
    unit: UnitNo,
    is_later: bool,
) -> Result<Answer, Undone>
    requires { IsInOrder (stand_of D.written D.synced D.doubted D.failed m.old) }
    ensures order { IsInOrder (stand_of D.written D.synced D.doubted D.failed m.new) }
    ensures doomed { is_doomed doomed.now unit.0 ≡ true
        → (m.new ≡ m.old) × IsErr result }
{
    if doomed.has_unit(unit) {
        return Err(Undone::Refused(if m.is_open(unit)? {
            Refused::Doomed
        } else {
            Refused::NoUnit
        }));
    }
    m.commit_later(alloc, unit)?;
    Ok(if is_later {
        Answer::Later
    } else {
        Answer::Done
    })
}

fn abort<D: Device + Drop>(
    alloc: Global,
    m: &mut Manager<D>,
    doomed: &mut Doomed,
    unit: UnitNo,
) -> Result<Answer, Undone>
    requires { IsInOrder (stand_of D.written D.synced D.doubted D.failed m.old) }
    ensures keeps { KeepsOthers doomed.old doomed.new unit.0 }
    ensures order { IsInOrder (stand_of D.written D.synced D.doubted D.failed m.new) }
{
    m.abort(alloc, unit)?;
    doomed.let_go(unit);
    Ok(Answer::Done)
}

fn kill<D: Device + Drop>(
    alloc: Global,
    m: &mut Manager<D>,
    names: &mut QueueNames,
    queue: &Name,
    element: ElemId,
) -> Result<Answer, Undone>
    requires { IsInOrder (stand_of D.written D.synced D.doubted D.failed m.old) }
    ensures { IsInOrder (stand_of D.written D.synced D.doubted D.failed m.new) }
{
    let queue = expect_queue(m, names, queue)?;
    Ok(if m.kill_free(alloc, queue, element)? {
        Answer::Done
    } else {
        Answer::Nothing
    })
}

fn close<D: Device + Drop>(alloc: Global, m: &mut Manager<D>) -> Result<Answer, Undone>
    requires { IsInOrder (stand_of D.written D.synced D.doubted D.failed m.old) }
    ensures { IsInOrder (stand_of D.written D.synced D.doubted D.failed m.new) }
{
    m.abort_open(alloc)?;
    m.settle()?;
    Ok(Answer::Closed(m.len()))
}

// Takes a checkpoint.
fn checkpoint<D: Device + Drop>(alloc: Global, m: &mut Manager<D>) -> Result<Answer, Undone>
    requires { IsInOrder (stand_of D.written D.synced D.doubted D.failed m.old) }
    ensures { IsInOrder (stand_of D.written D.synced D.doubted D.failed m.new) }
{
    match m.checkpoint(alloc) {
        Ok(offset) => Ok(Answer::Checkpoint(offset)),
        Err(why) => Err(Undone::from(Refused::of_checkpoint(why))),
    }
}

/// Goes on in a new log, behind so many records. If none could be made, the operator hears why.
pub(crate) fn carry_state<D, S>(
    alloc: Global,
    m: &mut Manager<D>,
    next: &mut S,
) -> Result<u64, Undone>
where
    D: Device + Drop,
    S: Successor<D> + Operator,
    requires { IsInOrder (stand_of D.written D.synced D.doubted D.failed m.old) }
    ensures order { IsInOrder (stand_of D.written D.synced D.doubted D.failed m.new) }
    ensures carried { IfOk result (GoesOver (stand_of D.written D.synced D.doubted D.failed m.old)
        (stand_of D.written D.synced D.doubted D.failed m.new)) }
{
    match m.carry(alloc, next) {
        Ok(records) => Ok(records),
        Err(why) => match Refused::of_carry(why) {
            Some(refused) => {
                next.hear_refused(refused);
                Err(Undone::Refused(refused))
            }
            None => Err(Undone::Spent),
        },
    }
}

// Does a request that is of no unit.
fn done_outside<D, S>(
    alloc: Global,
    m: &mut Manager<D>,
    next: &mut S,
    names: &mut QueueNames,
    request: &Request,
) -> Result<Answer, Undone>
where
    D: Device + Drop,
    S: Successor<D> + Operator,
    requires { IsInOrder (stand_of D.written D.synced D.doubted D.failed m.old) }
    ensures { IsInOrder (stand_of D.written D.synced D.doubted D.failed m.new) }
{
    match request {
        Request::Define {
            queue,
            limit,
            error,
        } => define(alloc, m, names, *queue, *limit, *error),
        Request::Register { queue, who } => register(alloc, m, names, *queue, *who),
        Request::Deregister { queue, who } => deregister(alloc, m, names, *queue, *who),
        Request::Begin { unit } => begin(alloc, m, *unit),
        Request::Kill { queue, element } => kill(alloc, m, names, queue, *element),
        Request::Checkpoint => checkpoint(alloc, m),
        Request::Carry => Ok(Answer::Carried(carry_state(alloc, m, next)?)),
        Request::Last { queue, who } => tell_last(alloc, m, names, queue, who),
        Request::Queues => queues_told(alloc, m),
        Request::Queue { queue, count } => {
            let queue = expect_queue(m, names, queue)?;
            listed(alloc, m, queue, *count as usize)
        }
        Request::Close => close(alloc, m),
        _ => Ok(Answer::Done),
    }
}

/// Does a request.
pub(crate) fn done<D, S>(
    alloc: Global,
    m: &mut Manager<D>,
    next: &mut S,
    names: &mut QueueNames,
    doomed: &mut Doomed,
    request: Request,
) -> Result<Answer, Undone>
where
    D: Device + Drop,
    S: Successor<D> + Operator,
    requires { IsInOrder (stand_of D.written D.synced D.doubted D.failed m.old) }
    ensures order { IsInOrder (stand_of D.written D.synced D.doubted D.failed m.new) }
    ensures keeps { KeepsBut request doomed.old doomed.new }
    ensures dooms { IfErr result (λ why. DoomsIfRefused request
        (stand_of D.written D.synced D.doubted D.failed m.new) why doomed.new) }
    ensures never { NeverCommits request doomed.old m.old m.new result }
{
    match request {
        Request::Enqueue {
            unit,
            queue,
            priority,
            by,
            payload,
        } => match enqueue(alloc, m, names, unit, &queue, priority, by, payload) {
            Ok(answer) => Ok(answer),
            Err(why) => Err(doomed_by(m, doomed, unit, why)),
        },
        Request::Dequeue { unit, queue, by } => match dequeue(alloc, m, names, unit, &queue, by) {
            Ok(answer) => Ok(answer),
            Err(why) => Err(doomed_by(m, doomed, unit, why)),
        },
        Request::Commit { unit, is_later } => commit(alloc, m, doomed, unit, is_later),
        Request::Abort { unit } => abort(alloc, m, doomed, unit),
        other => done_outside(alloc, m, next, names, &other),
    }
}
