//! How work is shared. A room is a work-stealing pool of numbers: when it is closed, what was taken
//! plus what is left is exactly what was dealt. A countdown gathers what its sources hand in, and
//! gives it all to whoever hands in last.
#![tactic(auto)]

mod countdown;
mod deck;
mod deque;
mod deque_room;
mod deque_seat;
mod list_room;
mod room;
mod seat;
mod vault;

pub use countdown::{Arrival, Closing, Countdown, Fits, Pass};
pub use room::{Left, Room};
pub use rq_plan::{Gate, Open, Plan};
pub use seat::Seat;
