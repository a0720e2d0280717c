//! An element, as a caller has it and as a state keeps it.

ghost use Rattle.std.specs.Prelude.{◌≡◌, ℕ, List, IfOk, IfErr};
ghost use Rattle.rq_record.specs.declared.fault.Fault.TheVariants.{Resources};

use crate::members::Mark;
use rq_record::{ElemId, Fault, KeptPayload, Payload, QueueNo};
use std::alloc::Global;
use std::marker::Model;

/// The payload of an element, kept or not.
pub trait PayloadBytes: Drop {
    ghost payload_of: { Self → List ℕ };
}

impl PayloadBytes for Payload {
    ghost payload_of = { λ p. p };
}

impl PayloadBytes for KeptPayload {
    ghost payload_of = { λ p. p };
}

/// A payload that is made of one of another type.
pub trait MadeOf<P: PayloadBytes>: PayloadBytes {
    /// The payload of the same bytes. `Resources` if memory runs out.
    fn made_of(alloc: Global, payload: &P) -> Result<Self, Fault>
        ensures same { IfOk result (λ p. Self.payload_of p ≡ P.payload_of payload.now) }
        ensures refused { IfErr result (λ e. e ≡ Resources) };
}

impl MadeOf<Payload> for KeptPayload {
    fn made_of(alloc: Global, payload: &Payload) -> Result<KeptPayload, Fault> {
        KeptPayload::of(alloc, payload)
    }
}

impl MadeOf<KeptPayload> for Payload {
    fn made_of(alloc: Global, payload: &KeptPayload) -> Result<Payload, Fault> {
        payload.payload(alloc)
    }
}

/// An element of a queue. `P` is the type of its payload: `Payload` or `KeptPayload`.
#[derive(Drop)]
pub struct ElementOf<P: PayloadBytes> {
    /// The record number of the enqueue that made it.
    pub id: ElemId,
    /// The queue that it is in.
    pub home: QueueNo,
    /// The queue that it was put in first.
    pub origin: QueueNo,
    /// Greater ones are taken first.
    pub priority: u8,
    /// How often an aborted unit gave it back since it came to its home.
    pub attempts: u64,
    /// The bytes that its enqueue gave it, at most 65,535.
    pub payload: P,
    /// Which open unit put it in or took it out, if one did.
    pub mark: Mark,
}

/// An element of a queue, as a caller makes it and takes it apart.
pub type Element = ElementOf<Payload>;

/// An element of a queue, as a state keeps it: its payload takes 24 bytes, and a short one no
/// memory of its own. It says what an `Element` says.
pub type KeptElement = ElementOf<KeptPayload>;

impl<P: PayloadBytes> Model for ElementOf<P> {
    ghost use Rattle.rq_model.specs.States as model;
    ghost use Rattle.rq_state.specs.Views.{mark_of};

    ghost Value = { model.Element };

    ghost view = { λ e. record {
      id = e.id.0;
      home = e.home.0;
      origin = e.origin.0;
      priority = e.priority;
      attempts = e.attempts;
      payload = P.payload_of e.payload;
      mark = mark_of e.mark;
    } };
}

impl<P: PayloadBytes> ElementOf<P> {
    // The element with another payload of the same bytes.
    fn with_payload<Q: PayloadBytes>(&self, payload: Q) -> ElementOf<Q>
        requires { Q.payload_of payload ≡ self.now.payload }
        ensures { result ≡ self.now }
    {
        ElementOf {
            id: self.id,
            home: self.home,
            origin: self.origin,
            priority: self.priority,
            attempts: self.attempts,
            payload,
            mark: self.mark,
        }
    }

    /// The element that says the same as that one, whose payload is of another type: kept, or as a
    /// caller takes it apart. `Resources` if memory runs out.
    pub fn of<Q: PayloadBytes>(alloc: Global, e: &ElementOf<Q>) -> Result<ElementOf<P>, Fault>
    where
        P: MadeOf<Q>,
        ensures same { IfOk result (λ k. k ≡ e.now) }
        ensures refused { IfErr result (λ e. e ≡ Resources) }
    {
        Ok(e.with_payload(P::made_of(alloc, &e.payload)?))
    }
}

impl KeptElement {
    /// Its id, as a number.
    pub fn number(&self) -> u64
        ensures { result ≡ self.now.id }
    {
        self.id.0
    }

    /// The queue that it is in.
    pub fn home(&self) -> QueueNo
        ensures { result.0 ≡ self.now.home }
    {
        self.home
    }

    /// An element with a payload of the same bytes; `Resources` if these are shared too often.
    pub fn copied(&self) -> Result<KeptElement, Fault>
        ensures copied { IfOk result (λ e. e ≡ self.now) }
        ensures refused { IfErr result (λ e. e ≡ Resources) }
    {
        Ok(self.with_payload(self.payload.copied()?))
    }
}

// The elements that say the same as those, in their order.
fn all_of<P: PayloadBytes, Q: MadeOf<P>>(
    alloc: Global,
    elements: &[ElementOf<P>],
) -> Result<Vec<ElementOf<Q>>, Fault>
    ensures same { IfOk result (λ v. v.items ≡ elements.now) }
    ensures refused { IfErr result (λ e. e ≡ Resources) }
{
    let mut all = Vec::with_capacity(alloc, elements.len())?;
    for e in elements {
        all.push(ElementOf::of(alloc, e)?)?;
    }
    Ok(all)
}

/// Keeps the elements, in their order. `Resources` if memory runs out.
pub(crate) fn kept_elements(alloc: Global, elements: &[Element]) -> Result<Vec<KeptElement>, Fault>
    ensures kept { IfOk result (λ v. v.items ≡ elements.now) }
    ensures refused { IfErr result (λ e. e ≡ Resources) }
{
    all_of(alloc, elements)
}

/// The elements that are kept, in their order, as a caller takes them apart. `Resources` if memory
/// runs out.
pub fn told_elements(alloc: Global, kept: &[KeptElement]) -> Result<Vec<Element>, Fault>
    ensures same { IfOk result (λ v. v.items ≡ kept.now) }
    ensures refused { IfErr result (λ e. e ≡ Resources) }
{
    all_of(alloc, kept)
}
