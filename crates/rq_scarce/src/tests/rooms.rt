//! Rooms and countdowns: they are opened whole or not at all, and then need no memory any more.

use super::host::Scarce;
use super::{Call, is_right};
use rq_pool::{Arrival, Countdown, Room};
use rq_rows::{Parcel, two, two_took};
use rq_tool::Fault;
use std::alloc::Global;
use std::test::Fail;

// What a call tells that goes as it must.
const WELL: &[u8] = b"well";

/// In a room of `[[0, 1], [2]]` the second of two seats takes a number of its own.
pub fn open(alloc: Global, lent: &mut Vec<u8>) -> Result<(), Fault> {
    let (room, mut seats) = Room::open(alloc, two(alloc, &[0, 1], &[2])?)?;
    let _ = seats[1].take(&room);
    let left = room.close(seats);
    if two_took(&left, &[], &[2], 2) {
        lent.extend_from_slice(WELL)?;
    }
    Ok(())
}

/// At a countdown of two the second that arrives is told that it is the last.
pub fn arrive(alloc: Global, lent: &mut Vec<u8>) -> Result<(), Fault> {
    let (countdown, mut passes) = Countdown::<Parcel>::open(alloc, (), 2, 2)?;
    let _ = countdown.arrive(&mut passes[1], 1, Parcel { number: 1 });
    let second = countdown.arrive(&mut passes[0], 0, Parcel { number: 0 });
    let closing = countdown.close(passes);
    if closing.arrived() == 2 && is_last(&second) {
        lent.extend_from_slice(WELL)?;
    }
    Ok(())
}

fn is_last(answer: &Arrival<Parcel>) -> bool {
    matches!(answer, Arrival::Last(parcels) if parcels.len() == 2)
}

#[test]
fn a_room_or_a_countdown_is_opened_or_refused(rt: HostRuntime) -> Result<(), Fail> {
    assert!(rt; is_right(&rt, &mut Call::Open, &[], WELL)?, "a room");
    assert!(rt; is_right(&rt, &mut Call::Arrive, &[], WELL)?, "a countdown");
    Ok(())
}

#[test]
fn a_room_is_closed_where_no_memory_is_left(rt: HostRuntime) -> Result<(), Fail> {
    let (room, mut seats) = Room::open(rt.alloc(), two(rt.alloc(), &[0, 1], &[2])?)?;
    let scarce = Scarce::whole(rt.alloc())?;
    let own = seats[1].take(&room);
    let left = room.close(seats);
    drop(scarce);
    assert!(rt; own == Some(2) && two_took(&left, &[], &[2], 2));
    Ok(())
}

// What is answered is held until the end, since it gives memory back. Nothing is kept.
#[test]
fn a_countdown_ends_where_no_memory_is_left(rt: HostRuntime) -> Result<(), Fail> {
    let (countdown, mut passes) = Countdown::<Parcel>::open(rt.alloc(), (), 2, 2)?;
    let scarce = Scarce::whole(rt.alloc())?;
    let first = countdown.arrive(&mut passes[0], 1, Parcel { number: 1 });
    let again = countdown.arrive(&mut passes[1], 1, Parcel { number: 1 });
    let second = countdown.arrive(&mut passes[1], 0, Parcel { number: 0 });
    let closing = countdown.close(passes);
    drop(scarce);
    assert!(rt; matches!(&first, Arrival::NotLast) && matches!(&again, Arrival::Twice(_)));
    assert!(rt; is_last(&second) && closing.last() == Some(1));
    assert!(rt; closing.arrived() == 2 && closing.home().is_empty());
    Ok(())
}
