//! A state that a caller makes of its members, a part of it that is redone, and its spelling.

ghost use Rattle.std.specs.Prelude.{◌≡◌, ℕ, List, IfOk};
ghost use Rattle.rq_state.specs.Inside.{state_of};
ghost use Rattle.rq_rows.specs.ByHand.{by_hand};

use crate::logs::spelled;
use rq_queue::{Move, Op, Part, redo};
use rq_record::{ElemId, Fault, Name, Payload, QueueNo, Record};
use rq_state::{Definition, Element, Fields, Last, Mark, OpKind, Registrant, State, read};
use std::alloc::{AllocError, Global};
use std::test::Fail;

// Fields with one queue, a registrant, and an element that it enqueued.
fn fields(alloc: Global, queue: Name, ann: Name, payload: Payload) -> Result<Fields, AllocError>
    ensures { IfOk result (λ f. state_of f ≡ by_hand queue ann payload) }
{
    let mut definitions = Vec::with_capacity(alloc, 1)?;
    let mut registrants = Vec::with_capacity(alloc, 1)?;
    let mut elements = Vec::with_capacity(alloc, 1)?;
    definitions.push_reserved(Definition {
        limit: 0,
        error: QueueNo::NONE,
        name: queue,
    });
    registrants.push_reserved(Registrant {
        queue: QueueNo(0),
        name: ann,
        last: Some(Last {
            place: 0,
            kind: OpKind::Enqueue,
            tag: 70,
            element: Some(ElemId(0)),
        }),
    });
    elements.push_reserved(Element {
        id: ElemId(0),
        home: QueueNo(0),
        origin: QueueNo(0),
        priority: 5,
        attempts: 0,
        payload,
        mark: Mark::Free,
    });
    Ok(Fields {
        next: 2,
        greatest: 1,
        committed: 1,
        aborted: 0,
        definitions,
        units: Vec::new(alloc),
        registrants,
        elements,
        notes: Vec::new(alloc),
    })
}

// Those of a queue `jobs` where `ann` enqueued one byte.
fn fields_by_hand(alloc: Global) -> Result<Fields, Fail>
    ensures { IfOk result
        (λ f. (queue ann payload : List ℕ) × (state_of f ≡ by_hand queue ann payload)) }
{
    let queue = Name::new(b"jobs").ok_or("queue")?;
    let ann = Name::new(b"ann").ok_or("ann")?;
    let payload = Payload::new(Vec::from_slice(alloc, b"a")?).ok_or("payload")?;
    Ok(fields(alloc, queue, ann, payload)?)
}

// Their state.
fn state_by_hand(alloc: Global) -> Result<State, Fail>
    ensures { IfOk result
        (λ s. (queue ann payload : List ℕ) × (s ≡ by_hand queue ann payload)) }
{
    let fields = fields_by_hand(alloc)?;
    Ok(State::build(alloc, fields)?)
}

// The part of its queue after a KILL of the element, and what left it.
fn killed(alloc: Global, state: &State) -> Result<(Part, Vec<Move>), Fault>
    requires { (queue ann payload : List ℕ) × (state.now ≡ by_hand queue ann payload) }
{
    let part = Part::of(alloc, state, QueueNo(0))?;
    let kill = Record::Kill {
        queue: QueueNo(0),
        element: ElemId(0),
    };
    let ops = [Op {
        place: 2,
        rec: &kill,
    }];
    redo(alloc, part, &ops, Vec::new(alloc))
}

// How many elements and registrants there are if a part is poured to those by hand.
fn poured(alloc: Global, part: Part) -> Result<[usize; 2], Fail> {
    let mut fields = fields_by_hand(alloc)?;
    part.pour(&mut fields)?;
    Ok([fields.elements.len(), fields.registrants.len()])
}

/// Whether a KILL leaves the registrant, no element, and no move.
pub fn is_killed(alloc: Global) -> Result<bool, Fail> {
    let state = state_by_hand(alloc)?;
    let (part, moves) = killed(alloc, &state)?;
    let none = moves.is_empty();
    drop(moves);
    Ok(poured(alloc, part)? == [1, 2] && none)
}

// Whether the state spells one with one element and one registrant.
fn spells_both(alloc: Global, state: &State) -> Result<bool, Fault> {
    let spelled = spelled(alloc, state)?;
    let again = read(alloc, &spelled)?;
    Ok(again.element_count() == 1 && again.registrant_count() == 1)
}

/// Whether the state does, which stands behind two records.
pub fn is_spelled(alloc: Global) -> Result<bool, Fail> {
    let state = state_by_hand(alloc)?;
    let counts = state.next() == 2 && state.element_count() == 1;
    Ok(counts && spells_both(alloc, &state)?)
}
