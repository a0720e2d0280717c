//! Lists put in order.

ghost use Rattle.std.specs.Prelude.{◌≡◌, ◌<◌, ℕ, true, nat_lt, map};
ghost use Rattle.rq_model.specs.States as model;
ghost use Rattle.rq_model.specs.WellFormed.{Ordered};
ghost use Rattle.rq_state.specs.Orders.{put_in_order};
ghost use Rattle.rq_state.specs.Views.{unit_of};

use crate::kept_element::KeptElement;
use crate::kept_registrant::KeptRegistrant;
use crate::members::Note;
use rq_record::UnitNo;

/// Puts units in order.
pub(crate) fn order_units(units: &mut Vec<UnitNo>)
    requires { Ordered (λ a b. a < b) (put_in_order nat_lt (map unit_of units.old.items)) }
    ensures { map unit_of units.new.items ≡ put_in_order nat_lt (map unit_of units.old.items) }
{
    units.sort_unstable_by_key(|unit| unit.0);
}

/// Puts registrants in order.
pub(crate) fn order_registrants(registrants: &mut Vec<KeptRegistrant>)
    requires { Ordered (λ a b. model.registrant_before a b ≡ true)
        (put_in_order model.registrant_before registrants.old.items) }
    ensures { registrants.new.items ≡ put_in_order model.registrant_before registrants.old.items }
{
    registrants.sort_unstable_by_key(|registrant| registrant.key());
}

/// What is in order by a number: an element by its id, a note by its place.
pub trait Ordinal: Drop {
    ghost ordinal_of: { Self → ℕ };

    /// The number.
    fn ordinal(&self) -> u64
        ensures { result ≡ ordinal_of self.now };
}

impl Ordinal for KeptElement {
    ghost ordinal_of = { λ e. e.id };

    fn ordinal(&self) -> u64 {
        self.number()
    }
}

impl Ordinal for Note {
    ghost ordinal_of = { λ n. n.last.place };

    fn ordinal(&self) -> u64 {
        self.place()
    }
}

/// Puts members of distinct numbers in order.
pub fn order<M: Ordinal>(members: &mut Vec<M>)
    requires { Ordered (λ a b. M.ordinal_of a < M.ordinal_of b)
        (put_in_order (λ a b. nat_lt (M.ordinal_of a) (M.ordinal_of b)) members.old.items) }
    ensures { members.new.items
        ≡ put_in_order (λ a b. nat_lt (M.ordinal_of a) (M.ordinal_of b)) members.old.items }
{
    members.sort_unstable_by_key(|member| member.ordinal());
}
