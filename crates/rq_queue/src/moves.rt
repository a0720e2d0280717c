//! Elements on their way to their error queue.

ghost use Rattle.std.specs.Prelude.{◌≡◌, ◌++◌, IfOk, IfErr, OnOk};
ghost use Rattle.rq_queue.specs.Kept.{sent_from};
ghost use Rattle.rq_record.specs.declared.fault.Fault.TheVariants.{Resources};

use rq_record::{Fault, KeptPayload, Payload};
use rq_state::{Definition, ElementOf, KeptElement, MadeOf, PayloadBytes};
use std::alloc::Global;
use std::marker::Model;

/// An element as it arrives in an error queue, with attempts 0, and the place of the ABORT that
/// moved it. `P` is the type of its payload: `Payload` or `KeptPayload`.
#[derive(Drop)]
pub struct MoveOf<P: PayloadBytes> {
    pub place: u64,
    pub element: ElementOf<P>,
}

/// A move, as a caller makes it and takes it apart.
pub type Move = MoveOf<Payload>;

/// The same with an element that is kept.
pub type KeptMove = MoveOf<KeptPayload>;

impl<P: PayloadBytes> Model for MoveOf<P> {
    ghost use Rattle.std.specs.Prelude.{◌≡◌};
    ghost use Rattle.rq_model.specs.States.{Free};
    ghost use Rattle.rq_model.specs.Queues as queues;

    ghost Value = { queues.Move };

    ghost view = { λ m. record { place = m.place; element = m.element } };

    ghost invariant = { λ m. (m.element.attempts ≡ 0) × (m.element.mark ≡ Free) };
}

impl KeptMove {
    /// The place of the ABORT.
    pub fn place(&self) -> u64
        ensures { result ≡ self.now.place }
    {
        self.place
    }
}

/// Moves of the same elements, in their order: kept, or as a caller takes them apart.
pub(crate) fn moves_of<P: PayloadBytes, Q: MadeOf<P>>(
    alloc: Global,
    moves: &[MoveOf<P>],
) -> Result<Vec<MoveOf<Q>>, Fault>
    ensures same { IfOk result (λ v. v.items ≡ moves.now) }
    ensures refused { IfErr result (λ e. e ≡ Resources) }
{
    let mut all = Vec::with_capacity(alloc, moves.len())?;
    for m in moves {
        all.push(MoveOf {
            place: m.place,
            element: ElementOf::of(alloc, &m.element)?,
        })?;
    }
    Ok(all)
}

/// Adds the elements to the moves, as they arrive in the error queue.
pub(crate) fn send(
    leaving: Vec<KeptElement>,
    place: u64,
    home: &Definition,
    sent: &mut Vec<KeptMove>,
) -> Result<(), Fault>
    ensures sent { OnOk result
        (sent.new.items ≡ sent.old.items ++ sent_from place home.now leaving.items) }
    ensures refused { IfErr result (λ e. e ≡ Resources) }
{
    for e in leaving {
        sent.push(KeptMove {
            place,
            element: e.moved(home),
        })?;
    }
    Ok(())
}
