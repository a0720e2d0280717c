//! Countdowns by known outboxes, with one thread and with sixty-four.
ghost use Rattle.std.specs.Prelude.{◌≡◌, ◌<◌, All, IfSome, length};
ghost use Rattle.rq_pool.specs.Countdowns.History.{Fit};
ghost use Rattle.rq_pool.specs.Countdowns.Words.{IsPassOf, sources_of};

use rq_pool::{Arrival, Closing, Countdown, Pass};
use rq_rows::{Parcel, tells_a_second_arrival};
use std::sync::atomic::{AtomicBool, AtomicU32, Ordering};
use std::test::Fail;
use std::thread;
use std::thread::Threads;

// Whether these are the parcels of the sources 0, 1, .. in this order.
fn in_order(parcels: &[Parcel]) -> bool {
    let mut all = true;
    for (i, parcel) in parcels.iter().enumerate() {
        all = all && parcel.number as usize == i;
    }
    all
}

// It arrives by one pass, and then by another.
#[test]
fn a_source_that_arrives_twice_is_told(rt: HostRuntime) -> Result<(), Fail> {
    assert!(rt; tells_a_second_arrival(rt.alloc())?);
    Ok(())
}

// Hands in a parcel. The last goes on with all of them.
fn hand_in(
    countdown: &Countdown<Parcel>,
    pass: &mut Pass<Parcel>,
    parcel: Parcel,
) -> Option<Vec<Parcel>>
    requires { IsPassOf countdown.now pass.old × (parcel.number < sources_of countdown.now) }
    ensures pass { IsPassOf countdown.now pass.new }
    ensures all { IfSome result (λ v. length v.items ≡ sources_of countdown.now) }
    ensures fit { IfSome result (λ v. Fit (λ source x. x.number ≡ source) v.items) }
{
    match countdown.arrive(pass, parcel.number, parcel) {
        Arrival::Last(parcels) => Some(parcels),
        Arrival::NotLast => None,
        Arrival::Twice(again) => {
            drop(again);
            None
        }
    }
}

// Whether this many arrived, and nothing is kept.
fn all_arrived(closing: &Closing<Parcel>, arrived: u32) -> bool {
    closing.arrived() == arrived && closing.home().is_empty()
}

#[test]
fn the_last_of_two_is_given_both(rt: HostRuntime) -> Result<(), Fail> {
    let (countdown, mut passes) = Countdown::<Parcel>::open(rt.alloc(), (), 2, 2)?;
    let first = hand_in(&countdown, &mut passes[0], Parcel { number: 1 });
    let second = hand_in(&countdown, &mut passes[1], Parcel { number: 0 });
    let closing = countdown.close(passes);
    assert!(rt; first.is_none());
    let both = second.ok_or("both")?;
    assert!(rt; both.len() == 2 && in_order(&both));
    assert!(rt; closing.last() == Some(1) && all_arrived(&closing, 2));
    Ok(())
}

// What was seen of the answers.
#[derive(Drop)]
struct Seen {
    lasts: AtomicU32,
    whole: AtomicBool,
}

// The arrival of one source.
fn arrive_for(countdown: &Countdown<Parcel>, pass: &mut Pass<Parcel>, number: u32, seen: &Seen)
    requires { IsPassOf countdown.now pass.old × (number < sources_of countdown.now) }
    ensures { IsPassOf countdown.now pass.new }
{
    if let Arrival::Last(parcels) = countdown.arrive(pass, number, Parcel { number }) {
        seen.lasts.fetch_add(1, Ordering::SeqCst);
        let whole = parcels.len() == 64 && in_order(&parcels);
        seen.whole.store(whole, Ordering::SeqCst);
    }
}

// A thread for each pass arrives for the source of the pass's place.
fn arrive_all<R: Threads + Sync>(
    rt: &R,
    countdown: &Countdown<Parcel>,
    passes: &mut [Pass<Parcel>],
    seen: &Seen,
)
    requires { All (IsPassOf countdown.now) passes.old
        × (length passes.old ≡ 64) × (sources_of countdown.now ≡ 64) }
    ensures { All (IsPassOf countdown.now) passes.new × (length passes.new ≡ length passes.old) }
{
    thread::for_each_mut(
        rt,
        passes,
        64,
        &|i: usize, pass: &mut Pass<Parcel>|
            requires { IsPassOf countdown.now pass.now
                × (i < 64) × (sources_of countdown.now ≡ 64) }
            ensures { IsPassOf countdown.entry.now pass.exit.now }
        { arrive_for(countdown, pass, i as u32, seen) },
    );
}

// One of them is told so, and given all parcels.
#[test]
fn one_of_sixty_four_threads_is_last(rt: HostRuntime) -> Result<(), Fail> {
    let (countdown, mut passes) = Countdown::<Parcel>::open(rt.alloc(), (), 64, 64)?;
    let seen = Seen {
        lasts: AtomicU32::new(0),
        whole: AtomicBool::new(false),
    };
    arrive_all(&rt, &countdown, passes.as_mut_slice(), &seen);
    let closing = countdown.close(passes);
    assert!(rt; seen.lasts.load(Ordering::SeqCst) == 1 && seen.whole.load(Ordering::SeqCst));
    assert!(rt; closing.last().is_some() && all_arrived(&closing, 64));
    Ok(())
}
