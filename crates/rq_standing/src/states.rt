//! From a state to the queues as they stand, and back: what they hold is made of copies.

ghost use Rattle.std.specs.Prelude.{◌≡◌, [], None, length, IfOk, IfErr};
ghost use Rattle.rq_record.specs.declared.fault.Fault.TheVariants.{Resources};
ghost use Rattle.rq_standing.specs.Parts.{ArePartsOf};
ghost use Rattle.rq_standing.specs.Units.{AreUnits, has_open, engages_in};
ghost use Rattle.rq_model.specs.States as model;
ghost use Rattle.rq_queue.specs.Pouring.{HasPoured};
ghost use Rattle.rq_standing.specs.Stands.{HoldsState};

use crate::open_units::OpenUnits;
use crate::queues::Queues;
use rq_catalog::{Engaging, engage_by_marks, engage_by_notes};
use rq_queue::Part;
use rq_record::{Fault, QueueNo, UnitNo};
use rq_state::{KeptFields, State, copied_definitions};
use std::alloc::Global;

/// The parts of its queues, copied.
pub(crate) fn parts_of(alloc: Global, state: &State) -> Result<Vec<Part>, Fault>
    ensures size { IfOk result (λ v. length v.items ≡ length state.now.definitions) }
    ensures parts { IfOk result (λ v. ArePartsOf state.now v.items) }
    ensures refused { IfErr result (λ e. e ≡ Resources) }
{
    state.is_well_formed();
    let mut parts = Vec::new(alloc);
    for queue in 0..state.definition_count() {
        let part = Part::of(alloc, state, QueueNo(queue as u32))?;
        parts.push(part)?;
    }
    Ok(parts)
}

impl Engaging for OpenUnits {
    ghost numbers_of = { λ units. [] };

    ghost outcome_in = { λ units u. None };

    ghost has = { has_open };

    ghost engages = { engages_in };

    fn engage_queue(&mut self, unit: UnitNo, queue: QueueNo) -> Result<(), Fault> {
        self.engage(unit, queue)
    }
}

/// Its open units.
pub(crate) fn open_units_of(alloc: Global, state: &State) -> Result<OpenUnits, Fault>
    ensures units { IfOk result (λ x. AreUnits x state.now) }
    ensures refused { IfErr result (λ e. e ≡ Resources) }
{
    rq_model::step_by_parts();
    state.is_well_formed();
    let mut units = OpenUnits::none(alloc);
    let all = state.units();
    for unit in all {
        units.begin(alloc, *unit)?;
    }
    engage_by_marks(&mut units, state.elements())?;
    engage_by_notes(&mut units, state.notes())?;
    Ok(units)
}

// Pours out copies of the part of every queue, in their order.
fn pour_all(fields: KeptFields, parts: &[Part]) -> Result<KeptFields, Fault>
    ensures poured { IfOk result (λ f. (t : model.State) →
        length parts.now ≡ length t.definitions → ArePartsOf t parts.now
        → HasPoured t (length parts.now) fields f) }
    ensures refused { IfErr result (λ e. e ≡ Resources) }
{
    let mut poured = fields;
    for part in parts {
        part.pour_copies(&mut poured)?;
    }
    Ok(poured)
}

impl Queues {
    /// The state that they hold. Refused only with `Resources`.
    pub(crate) fn state(&self, alloc: Global) -> Result<State, Fault>
        requires { (t : model.State) × HoldsState self.now t }
        ensures state { IfOk result (λ s. (t : model.State) → HoldsState self.now t → s ≡ t) }
        ensures refused { IfErr result (λ e. e ≡ Resources) }
    {
        rq_state::parts_make_the_state();
        rq_state::any_order_makes_the_state();
        let definitions = copied_definitions(alloc, &self.definitions)?;
        let units = self.units.numbers(alloc)?;
        let bare = KeptFields {
            next: self.next,
            greatest: self.greatest,
            committed: self.committed,
            aborted: self.aborted,
            definitions,
            units,
            registrants: Vec::new(alloc),
            elements: Vec::new(alloc),
            notes: Vec::new(alloc),
        };
        let fields = pour_all(bare, &self.parts)?;
        let state = State::build_kept(alloc, fields)?;
        Ok(state)
    }
}
