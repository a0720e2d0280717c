//! A pass of a countdown.

ghost use Rattle.std.specs.Prelude.{◌≡◌, ◌≤◌, [], replicate, None, vec_capacity};
ghost use Rattle.std.specs.Option.{ForSome, ForNone};
ghost use Rattle.rq_pool.specs.Countdowns.Phases.{indexed};
ghost use Rattle.rq_pool.specs.Countdowns.Rule.{lasts, made_in, refused_in};
ghost use Rattle.rq_pool.specs.Countdowns.History.{back_in, refused_outboxes};

use crate::countdown::arrival::Entry;
use crate::countdown::fits::Fits;
use crate::countdown::steps::Chair;
use diary::Diary;

/// Its holder arrives for sources of its countdown, in any thread. Contracts see its arrivals.
#[derive(Drop)]
pub struct Pass<T: Fits> {
    pub(crate) seat: Chair<T>,
    pub(crate) room: Option<Vec<T>>,
    pub(crate) diary: Diary<Entry<T>>,
    ghost rests: { (seat.me.0.at ≡ None) × (seat.me.0.parts ≡ 1) },
    ghost told: { (made_in diary ≡ seat.me.0.made) × (refused_in diary ≡ seat.me.0.refused) },
    ghost gave_back: { back_in diary ≡ refused_outboxes diary },
    ghost has_room: { ForSome room (λ v. (lasts seat.me.0 ≡ 0) × (seat.me.1 ≡ [])
        × (v.items ≡ []) × (seat.table_id.slots ≤ vec_capacity v)) },
    ghost was_last: { ForNone room
        ((lasts seat.me.0 ≡ 1) × (seat.me.1 ≡ indexed 0 (replicate seat.table_id.slots None))) },
}
