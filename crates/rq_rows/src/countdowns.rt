//! Parcels that arrive at a countdown, one of them twice.
ghost use Rattle.std.specs.Prelude.{◌≡◌};

use rq_pool::{Arrival, Closing, Countdown, Fits};
use rq_record::Fault;
use std::alloc::Global;

/// What the source of its number hands in.
#[derive(Drop)]
pub struct Parcel {
    pub number: u32,
}

impl Fits for Parcel {
    type Key = ();

    ghost fits = { λ _ source parcel. parcel.number ≡ source };
}

// Whether these are the parcels of the sources 0 and 2.
fn are_first_and_third(parcels: &[Parcel]) -> bool {
    parcels.len() == 2 && parcels[0].number == 0 && parcels[1].number == 2
}

// Whether these two arrived, and no last one.
fn first_and_third_arrived(closing: Closing<Parcel>) -> bool {
    let two = closing.arrived() == 2 && closing.last().is_none();
    let seen = are_first_and_third(closing.home());
    two && seen && are_first_and_third(&closing.into_home())
}

/// Whether a source that arrives by one pass, and then by another, is told so.
pub fn tells_a_second_arrival(alloc: Global) -> Result<bool, Fault> {
    let (countdown, mut passes) = Countdown::<Parcel>::open(alloc, (), 3, 2)?;
    let first = countdown.arrive(&mut passes[0], 0, Parcel { number: 0 });
    let second = countdown.arrive(&mut passes[1], 2, Parcel { number: 2 });
    let again = countdown.arrive(&mut passes[0], 2, Parcel { number: 2 });
    let closing = countdown.close(passes);
    let are_first = matches!(&first, Arrival::NotLast) && matches!(&second, Arrival::NotLast);
    let is_told = matches!(&again, Arrival::Twice(parcel) if parcel.number == 2);
    Ok(are_first && is_told && first_and_third_arrived(closing))
}
