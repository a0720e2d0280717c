//! What happens to elements.

use rq_queue::Fate;
use std::fmt;

/// What happens to an element.
#[derive(Clone, Copy)]
pub enum Effect {
    /// A unit puts it in.
    Put,
    /// A unit takes it.
    Taken,
    /// This becomes of it, as its unit ends or as it is killed.
    Ended(Fate),
}

/// What happens to which element.
#[derive(Clone, Copy)]
pub enum Event {
    /// There is none to take, or to kill.
    NoElement,
    /// This happens to the element of this number.
    To(u64, Effect),
}

// Writes what becomes of an element.
fn write_fate<W: fmt::Write>(f: &mut fmt::Formatter<W>, element: u64, fate: Fate) -> fmt::Result {
    match fate {
        Fate::Freed(queue) => write!(f, "element {element} is free in queue {}", queue.0),
        Fate::Gone => write!(f, "element {element} is gone"),
        Fate::Undone => write!(f, "element {element} was not put in"),
        Fate::Back(queue, attempts) => write!(
            f,
            "element {element} is back in queue {}, attempts {attempts}",
            queue.0
        ),
        Fate::Moved(queue) => write!(f, "element {element} moves to queue {}", queue.0),
    }
}

impl fmt::Display for Event {
    fn fmt<W: fmt::Write>(&self, f: &mut fmt::Formatter<W>) -> fmt::Result {
        let Event::To(element, effect) = *self else {
            return f.write_str("finds no element");
        };
        match effect {
            Effect::Put => write!(f, "puts in element {element}"),
            Effect::Taken => write!(f, "takes element {element}"),
            Effect::Ended(fate) => write_fate(f, element, fate),
        }
    }
}
