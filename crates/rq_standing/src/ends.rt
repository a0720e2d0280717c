//! What becomes of the elements that a unit put in or took, when it ends.

ghost use Rattle.std.specs.Prelude.{◌≡◌, ◌==◌, ◌<◌, ◌+◌, ◌^◌, ◌++◌, Some, None, IfOk, IfErr, OnOk, length};
ghost use Rattle.std.specs.Prelude.{map, filter, option_map};
ghost use Rattle.std.specs.List.{AllByRecursion, list_any};
ghost use Rattle.std.specs.List.Sorted.{IsPermutation};
ghost use Rattle.rq_model.specs.Queues.{is_marked};
ghost use Rattle.rq_model.specs.States as model;
ghost use Rattle.rq_record.specs.Views.{record_of};
ghost use Rattle.rq_record.specs.declared.fault.Fault.TheVariants.{Resources};
ghost use Rattle.rq_state.specs.Views.{unit_of};
ghost use Rattle.rq_standing.specs.Ends.{ends, fates, marked_where, unit_ended};
ghost use Rattle.rq_standing.specs.Fates.{FatesComeTrue};
ghost use Rattle.rq_standing.specs.Stands.{HoldsState};

use crate::asks::part_here;
use crate::queues::Queues;
use rq_queue::{Fate, LentElement};
use rq_record::{ElemId, Fault, KeptRecord, UnitNo};
use rq_state::{Definition, order};
use std::alloc::Global;
use std::collections::BTreeSet;

/// A law: after the end of a unit, each element that it put in or took is where its fate says.
pub fn fates_come_true()
    ensures { FatesComeTrue }
{}

// The unit that a record ends.
fn unit_ended_by(what: &KeptRecord) -> Option<UnitNo>
    ensures { option_map unit_of result ≡ unit_ended (record_of what.now) }
{
    match what {
        KeptRecord::Commit { unit } => Some(*unit),
        KeptRecord::Abort { unit } => Some(*unit),
        KeptRecord::Define { .. }
        | KeptRecord::Register { .. }
        | KeptRecord::Deregister { .. }
        | KeptRecord::Begin { .. }
        | KeptRecord::Enqueue { .. }
        | KeptRecord::Dequeue { .. }
        | KeptRecord::Kill { .. }
        | KeptRecord::Checkpoint { .. } => None,
    }
}

// What the record makes of these elements.
fn fates_of(
    alloc: Global,
    definitions: &[Definition],
    what: &KeptRecord,
    elements: &[LentElement<'_>],
) -> Result<Vec<(ElemId, Fate)>, Fault>
    requires homes { AllByRecursion
        (λ (e : model.Element). e.home < length definitions.now) elements.now }
    requires room { AllByRecursion (λ (e : model.Element). e.attempts + 1 < 2 ^ 64) elements.now }
    ensures fates { IfOk result (λ v. map (λ p. (p.0.0, p.1)) v.items
        ≡ fates definitions.now (record_of what.now) elements.now) }
    ensures refused { IfErr result (λ e. e ≡ Resources) }
{
    let mut all = Vec::with_capacity(alloc, elements.len())?;
    for lent in elements {
        let e = lent.member();
        let home = &definitions[e.home().0 as usize];
        let Some(fate) = Fate::under(what, home, e) else {
            continue;
        };
        all.push((e.id(), fate))?;
    }
    Ok(all)
}

impl Queues {
    // Lends what the unit put in or took of a queue, where there is the queue.
    fn lend_marked_at<'a>(
        &'a self,
        queue: u64,
        unit: UnitNo,
        lent: &mut Vec<LentElement<'a>>,
    ) -> Result<(), Fault>
        ensures lent { OnOk result ((s : model.State) → HoldsState self.now s → IsPermutation
            (lent.old.items ++ marked_where unit.0 (λ k. k == queue) s.elements) lent.new.items) }
        ensures refused { IfErr result (λ e. e ≡ Resources) }
    {
        if queue >= self.parts.len() as u64 {
            return Ok(());
        }
        part_here(&self.parts, queue as usize).lend_marked_by(unit, lent)?;
        Ok(())
    }

    // Lends what the unit put in or took of these queues, of each once.
    fn lent_of<'a>(
        &'a self,
        alloc: Global,
        queues: &[u64],
        unit: UnitNo,
    ) -> Result<Vec<LentElement<'a>>, Fault>
        ensures lent { IfOk result (λ v. (s : model.State) → HoldsState self.now s → IsPermutation
            (marked_where unit.0 (λ k. list_any (λ v. v == k) queues.now) s.elements) v.items) }
        ensures refused { IfErr result (λ e. e ≡ Resources) }
    {
        let mut seen = BTreeSet::new(alloc);
        let mut lent = Vec::new(alloc);
        for queue in queues {
            if !seen.insert(*queue)? {
                continue;
            }
            self.lend_marked_at(*queue, unit, &mut lent)?;
        }
        Ok(lent)
    }

    // Lends what the unit put in or took, by id.
    fn lent_by_unit(&self, alloc: Global, unit: UnitNo) -> Result<Vec<LentElement<'_>>, Fault>
        requires { (s : model.State) × HoldsState self.now s }
        ensures lent { IfOk result (λ v. (s : model.State) → HoldsState self.now s → v.items
            ≡ filter (λ (e : model.Element). is_marked unit.0 e.mark) s.elements) }
        ensures refused { IfErr result (λ e. e ≡ Resources) }
    {
        let mut lent = self.lent_of(alloc, self.units.queues_named(unit), unit)?;
        order(&mut lent);
        Ok(lent)
    }

    /// What the record would make of the elements that the unit which it ends put in or took, by
    /// id; none for a record that ends no unit. Refused with `Resources` alone.
    pub(crate) fn ends(
        &self,
        alloc: Global,
        what: &KeptRecord,
    ) -> Result<Vec<(ElemId, Fate)>, Fault>
        requires { (s : model.State) × HoldsState self.now s }
        ensures ends { IfOk result (λ v. (s : model.State) → HoldsState self.now s
            → map (λ p. (p.0.0, p.1)) v.items ≡ ends s (record_of what.now)) }
        ensures refused { IfErr result (λ e. e ≡ Resources) }
    {
        let Some(unit) = unit_ended_by(what) else {
            return Ok(Vec::new(alloc));
        };
        // No log has so many records: past here attempts could run over.
        if self.next > 1 << 62 {
            return Err(Fault::Resources);
        }
        let lent = self.lent_by_unit(alloc, unit)?;
        let fates = fates_of(alloc, &self.definitions, what, &lent)?;
        Ok(fates)
    }
}
