//! Searches in lists that are in order.

ghost use Rattle.std.specs.Prelude.{◌≡◌, ◌<◌, ◌==◌, true, map};
ghost use Rattle.std.specs.List.{list_any};
ghost use Rattle.rq_model.specs.States.{is_registrant, registrant_before};
ghost use Rattle.rq_model.specs.WellFormed.{Ordered};
ghost use Rattle.rq_state.specs.Views.{unit_of};

use crate::kept_registrant::KeptRegistrant;
use rq_record::{Name, QueueNo, UnitNo};

/// Whether the unit is among these, which rise.
pub(crate) fn has_unit(units: &[UnitNo], unit: UnitNo) -> bool
    requires { Ordered (λ u v. u < v) (map unit_of units.now) }
    ensures { result ≡ list_any (λ v. v == unit.0) (map unit_of units.now) }
{
    units.binary_search_by_key(&unit.0, |one| one.0).is_ok()
}

/// Whether a registrant of that name is among these, which rise by queue and name.
pub(crate) fn has_registrant(registrants: &[KeptRegistrant], queue: QueueNo, name: Name) -> bool
    requires { Ordered (λ r t. registrant_before r t ≡ true) registrants.now }
    ensures { result ≡ list_any (is_registrant queue.0 name) registrants.now }
{
    registrants
        .binary_search_by_key(&(queue.0, name), |one| one.key())
        .is_ok()
}
