//! Which rule a record breaks.

ghost use Rattle.std.specs.Prelude.{◌≡◌, ℕ, ◌&&◌, not, is_some, nat_lt, nat_le, length};
ghost use Rattle.std.specs.Prelude.{List, Some, option_map, IfSome, true};
ghost use Rattle.std.specs.List.{list_any};
ghost use Rattle.std.specs.Str.{bytes_eq};
ghost use Rattle.rq_model.specs.Machine as machine;
ghost use Rattle.rq_model.specs.Records as records;
ghost use Rattle.rq_model.specs.States.{State};
ghost use Rattle.rq_record.specs.Views.{record_of, version_of};
ghost use Rattle.rq_lawful.specs.Breaks.{Breaks, unit_needed, queue_needed, registrant_needed};
ghost use Rattle.rq_lawful.specs.declared.rules.Rule.TheVariants as rules;

use crate::knows::Knows;
use crate::rules::Rule;
use rq_record::{KeptBy, KeptName, KeptRecord, Name, QueueNo, UnitNo, Version};
use rq_state::Definition;

fn is_defined<K: Knows>(known: &K, queue: QueueNo) -> bool
    ensures { (s : State) → K.knows known.now s → result ≡ machine.is_defined s queue.0 }
{
    (queue.0 as usize) < known.defined()
}

fn queue_rule<K: Knows>(known: &K, queue: QueueNo) -> Option<Rule>
    ensures exact { (s : State) → K.knows known.now s
        → is_some result ≡ not (machine.is_defined s queue.0) }
    ensures which { IfSome result (λ rule. rule ≡ rules.NotDefined queue) }
{
    (!is_defined(known, queue)).then_some(Rule::NotDefined(queue))
}

// In version 1 an error queue has no error queue itself.
fn nesting_rule<K: Knows>(version: Version, known: &K, error: QueueNo) -> Option<Rule>
    ensures exact { (s : State) → K.knows known.now s
        → is_some result ≡ not (machine.may_be_error (version_of version) s error.0) }
    ensures which { IfSome result (λ rule. rule ≡ rules.Nested error) }
{
    match version {
        Version::One if known.error_of(error).0 != QueueNo::NONE.0 => Some(Rule::Nested(error)),
        _ => None,
    }
}

// The rule that a limit above 0 and its error queue break.
fn error_rule<K: Knows>(version: Version, known: &K, limit: u16, error: QueueNo) -> Option<Rule>
    ensures exact { (s : State) → K.knows known.now s
        → is_some result ≡ not (nat_le limit 1000 && (machine.is_defined s error.0
        && machine.may_be_error (version_of version) s error.0)) }
    ensures which { (s : State) (name : List ℕ) → K.knows known.now s → nat_le 1 limit ≡ true
        → IfSome result (Breaks (version_of version) s (records.Define limit error.0 name)) }
{
    if limit > Definition::LIMIT {
        return Some(Rule::Above(limit));
    }
    if is_defined(known, error) {
        return nesting_rule(version, known, error);
    }
    if error.0 == QueueNo::NONE.0 {
        Some(Rule::NoErrorQueue(limit))
    } else {
        Some(Rule::NotDefined(error))
    }
}

// The rule that the limit and the error queue of a definition break.
fn limit_rule<K: Knows>(version: Version, known: &K, limit: u16, error: QueueNo) -> Option<Rule>
    ensures exact { (s : State) → K.knows known.now s
        → is_some result ≡ not (machine.is_limit (version_of version) s limit error.0) }
    ensures which { (s : State) (name : List ℕ) → K.knows known.now s
        → IfSome result (Breaks (version_of version) s (records.Define limit error.0 name)) }
{
    if limit != 0 {
        return error_rule(version, known, limit, error);
    }
    (error.0 != QueueNo::NONE.0).then_some(Rule::NoLimit(error))
}

fn name_rule<K: Knows>(known: &K, name: Name) -> Option<Rule>
    ensures exact { (s : State) → K.knows known.now s
        → is_some result ≡ not (nat_lt (length s.definitions) 4096
        && not (list_any (λ d. bytes_eq d.name name) s.definitions)) }
    ensures which { (version : records.Version) (s : State) (limit error : ℕ) → K.knows known.now s
        → IfSome result (Breaks version s (records.Define limit error name)) }
{
    if known.defined() >= Definition::MOST {
        return Some(Rule::Full);
    }
    if known.is_taken(&name) {
        Some(Rule::Taken(name))
    } else {
        None
    }
}

fn registrant_rule<K: Knows>(known: &K, queue: QueueNo, name: &KeptName) -> Option<Rule>
    ensures exact { (s : State) → K.knows known.now s
        → is_some result ≡ not (machine.is_registered s queue.0 name.now) }
    ensures which { IfSome result (λ rule. rule ≡ rules.NotRegistered queue name.now) }
{
    if known.is_registered(queue, name) {
        None
    } else {
        Some(Rule::NotRegistered(queue, name.name()))
    }
}

// Whoever an operation is by is registered with its queue.
fn by_rule<K: Knows>(known: &K, queue: QueueNo, by: &KeptBy) -> Option<Rule>
    ensures exact { (s : State) → K.knows known.now s
        → is_some result ≡ not (machine.is_known s queue.0 by.now) }
    ensures which { (version : records.Version) (s : State) (r : records.Record) → K.knows known.now s
        → registrant_needed r ≡ option_map (λ b. (queue.0, b.name)) by.now
        → IfSome result (Breaks version s r) }
{
    match by.name() {
        Some(name) => registrant_rule(known, queue, name),
        None => None,
    }
}

fn operation_rule<K: Knows>(known: &K, unit: UnitNo, queue: QueueNo, by: &KeptBy) -> Option<Rule>
    ensures exact { (s : State) → K.knows known.now s
        → is_some result ≡ not (machine.is_defined s queue.0
        && (machine.is_open s unit.0 && machine.is_known s queue.0 by.now)) }
    ensures which { (version : records.Version) (s : State) (r : records.Record) → K.knows known.now s
        → queue_needed r ≡ Some queue.0 → unit_needed r ≡ Some unit.0
        → registrant_needed r ≡ option_map (λ b. (queue.0, b.name)) by.now
        → IfSome result (Breaks version s r) }
{
    if !is_defined(known, queue) {
        return Some(Rule::NotDefined(queue));
    }
    if !known.is_open(unit) {
        return Some(Rule::NotOpen(unit));
    }
    by_rule(known, queue, by)
}

fn unit_rule<K: Knows>(known: &K, unit: UnitNo) -> Option<Rule>
    ensures exact { (s : State) → K.knows known.now s
        → is_some result ≡ not (machine.is_open s unit.0) }
    ensures which { IfSome result (λ rule. rule ≡ rules.NotOpen unit) }
{
    (!known.is_open(unit)).then_some(Rule::NotOpen(unit))
}

fn kill_rule<K: Knows>(version: Version, known: &K, queue: QueueNo) -> Option<Rule>
    ensures exact { (s : State) (element : ℕ) → K.knows known.now s → is_some result
        ≡ not (machine.is_lawful (version_of version) s (records.Kill queue.0 element)) }
    ensures which { (s : State) (element : ℕ) → K.knows known.now s
        → IfSome result (Breaks (version_of version) s (records.Kill queue.0 element)) }
{
    match version {
        Version::One => Some(Rule::NoKill),
        Version::Two => queue_rule(known, queue),
    }
}

fn begin_rule<K: Knows>(known: &K, unit: UnitNo) -> Option<Rule>
    ensures exact { (s : State) → K.knows known.now s
        → is_some result ≡ not (nat_lt s.greatest unit.0) }
    ensures which { (version : records.Version) (s : State) → K.knows known.now s
        → IfSome result (Breaks version s (records.Begin unit.0)) }
{
    let greatest = known.greatest();
    if greatest < unit.0 {
        None
    } else {
        Some(Rule::NotAbove(unit, greatest))
    }
}

/// A rule of the version that the record breaks in the state that is known; none exactly if it is
/// lawful there. This is the one place that says what is lawful.
pub fn broken<K: Knows>(version: Version, known: &K, next: &KeptRecord) -> Option<Rule>
    ensures exact { (s : State) → K.knows known.now s → is_some result
        ≡ not (machine.is_lawful (version_of version) s (record_of next.now)) }
    ensures which { (s : State) → K.knows known.now s
        → IfSome result (Breaks (version_of version) s (record_of next.now)) }
{
    match next {
        KeptRecord::Define { limit, error, name } => {
            match limit_rule(version, known, *limit, *error) {
                Some(rule) => Some(rule),
                None => name_rule(known, name.name()),
            }
        }
        KeptRecord::Register { queue, .. } => queue_rule(known, *queue),
        KeptRecord::Deregister { queue, name } => registrant_rule(known, *queue, name),
        KeptRecord::Begin { unit } => begin_rule(known, *unit),
        KeptRecord::Enqueue {
            unit,
            queue,
            by,
            ..
        } => operation_rule(known, *unit, *queue, by),
        KeptRecord::Dequeue { unit, queue, by } => operation_rule(known, *unit, *queue, by),
        KeptRecord::Commit { unit } | KeptRecord::Abort { unit } => unit_rule(known, *unit),
        KeptRecord::Checkpoint { .. } => None,
        KeptRecord::Kill { queue, .. } => kill_rule(version, known, *queue),
    }
}
