//! How a number goes along the log.

ghost use Rattle.std.specs.Prelude.{◌≤◌};

use crate::markup::Html::{Count, Number, Tag};
use crate::markup::put_html;
use rq_found::Put;
use std::alloc::{AllocError, Global};

// What stands before the line of a curve.
const CURVE: &str = "<div class=\"plot\"><span class=\"scale\"><span>{}</span><span>0</span></span>\
    <svg viewBox=\"0 0 {} {}\" preserveAspectRatio=\"none\" role=\"img\"><title>{}, at most {}</title>\
    <path d=\"M0 {}";

/// Where a part of a whole stands on a line of so many steps.
pub(crate) fn along(part: u64, whole: u64, steps: u64) -> u64
    ensures { result ≤ steps }
{
    let place = part.saturating_mul(steps).checked_div(whole);
    place.unwrap_or(0).min(steps)
}

/// The bin of an offset in a log of so many bytes that is cut into so many bins.
pub(crate) fn bin_of(offset: u64, total: u64, bins: u64) -> u64 {
    along(offset, total, bins).min(bins.saturating_sub(1))
}

// What the number does in one bin: its greatest and its last value there.
#[derive(Clone, Copy)]
struct Bin {
    number: u64,
    most: u64,
    last: u64,
}

/// A picture: its width and its height, where the front ends in it, and in how many bins its width is
/// cut.
#[derive(Clone, Copy)]
pub(crate) struct Canvas {
    pub(crate) width: u64,
    pub(crate) height: u64,
    pub(crate) end: u64,
    pub(crate) bins: u64,
}

impl Canvas {
    // Where a bin begins, or the front ends before it.
    fn at(&self, bin: u64) -> u64 {
        along(bin, self.bins, self.width).min(self.end)
    }

    // How far below the top a value stands of which the greatest is known.
    fn below_top(&self, value: u64, most: u64) -> u64 {
        self.height.saturating_sub(along(value, most, self.height))
    }
}

/// How a number goes along the log: each bin in which it changes.
#[derive(Drop)]
pub(crate) struct Curve {
    changed: Vec<Bin>,
    now: u64,
    most: u64,
}

impl Curve {
    /// Nothing so far.
    pub(crate) fn new(alloc: Global) -> Curve {
        Curve {
            changed: Vec::new(alloc),
            now: 0,
            most: 0,
        }
    }

    /// The greatest value.
    pub(crate) fn most(&self) -> u64 {
        self.most
    }

    /// The number is from here on, in this bin, another.
    pub(crate) fn set(&mut self, number: u64, value: u64) -> Result<(), AllocError> {
        if value == self.now {
            return Ok(());
        }
        let most = self.now.max(value);
        self.now = value;
        self.most = self.most.max(value);
        if let Some(bin) = self.changed.last_mut() {
            if bin.number == number {
                bin.most = bin.most.max(value);
                bin.last = value;
                return Ok(());
            }
        }
        self.changed.push(Bin {
            number,
            most,
            last: value,
        })?;
        Ok(())
    }

    /// The number is one more, or one fewer.
    pub(crate) fn change(&mut self, number: u64, grows: bool) -> Result<(), AllocError> {
        let value = if grows {
            self.now.saturating_add(1)
        } else {
            self.now.saturating_sub(1)
        };
        self.set(number, value)
    }

    // Puts the line through its bins.
    fn put_line(&self, text: &mut String, frame: &Canvas) -> Put {
        for bin in &self.changed {
            let (from, to) = (frame.at(bin.number), frame.at(bin.number.saturating_add(1)));
            let top = frame.below_top(bin.most, self.most);
            let behind = frame.below_top(bin.last, self.most);
            put_html(text, "H{}V{}H{}", &[Number(from), Number(top), Number(to)])?;
            if behind != top {
                put_html(text, "V{}", &[Number(behind)])?;
            }
        }
        Ok(())
    }

    /// Puts the curve as a picture, up to where the front ends. Its scale stands beside it, and its
    /// title says what it shows.
    pub(crate) fn put(&self, text: &mut String, frame: &Canvas, title: &'static str) -> Put {
        let (width, height) = (Number(frame.width), Number(frame.height));
        let (title, most) = (Tag(title), Count(self.most));
        put_html(text, CURVE, &[most, width, height, title, most, height])?;
        self.put_line(text, frame)?;
        put_html(
            text,
            "H{}V{}Z\"/></svg></div>",
            &[Number(frame.end), height],
        )
    }
}

/// Puts the scale below a picture of the whole log.
pub(crate) fn put_axis(text: &mut String, total: u64) -> Put {
    let axis = "<div class=\"axis\"><span>byte 0</span><span>{}</span><span>{}</span></div>\n";
    put_html(text, axis, &[Count(total / 2), Count(total)])
}
