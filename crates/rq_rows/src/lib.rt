//! Callers of the libraries, as somebody writes them who has the statement and the pages alone. They are
//! proved, so what the calls require can be met. `rq_tests` and `rq_scarce` run them.
#![tactic(auto)]

mod appenders;
mod by_hand;
mod countdowns;
mod followers;
mod lanes;
mod logs;
mod managers;
mod replays;
mod rooms;
mod sessions;
mod standby;
mod surface;
mod texts;

pub use appenders::{is_marked_and_carried_on, takes};
pub use by_hand::{is_killed, is_spelled};
pub use countdowns::{Parcel, tells_a_second_arrival};
pub use followers::followed;
pub use lanes::{are_right, put_message};
pub use logs::{CHECKPOINT, ONE_ELEMENT, answer, log_in, log_of, makes, records_of, spelled};
pub use managers::{
    committed_of, defines, found_in, goes_on_from, goes_on_in, goes_on_twice, puts_in,
};
pub use replays::{Lawful, analysed, course_of, lawful_of, replayed, traced};
pub use rooms::{drained_by_threads, take_until, two, two_took};
pub use sessions::{Counting, answers_to};
pub use standby::{Told, first_of, lists, marks, told};
pub use surface::{
    has_right_chain, is_made_and_upgraded, is_open, is_restarted, is_restarted_at, is_run,
    log_framed, log_with, marks_are_seen, why,
};
pub use texts::{has_all, misses_name, written};
