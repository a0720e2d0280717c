//! What stands behind the front of a log to which something is to be written.

ghost use Rattle.std.specs.Prelude.{◌≤◌, length, IfOk};

use crate::refusal::Refusal;
use rq_behind::{Found, Scan};
use rq_journal::{Damage, Why};
use rq_judged::Edge;
use rq_record::Version;
use std::alloc::Global;
use std::fmt;

/// So many bytes before the end of a front tell what stands behind it.
pub(crate) const LINK_LEN: usize = 32;

/// The last bytes of a log, all or some.
#[derive(Clone, Copy)]
pub(crate) struct LastBytes<'a> {
    pub(crate) bytes: &'a [u8],
    /// So many bytes of the log stand before them.
    pub(crate) before: usize,
    /// So many bytes the log has.
    pub(crate) total: usize,
}

impl<'a> LastBytes<'a> {
    /// All bytes of a log.
    pub(crate) fn all(bytes: &'a [u8]) -> LastBytes<'a> {
        LastBytes {
            bytes,
            before: 0,
            total: bytes.len(),
        }
    }
}

// Where the front ends in the last bytes of a log, before which so many stand. A log is another than
// it was if it does not.
fn place_in(bytes: &[u8], before: usize, end: Edge) -> Result<usize, Refusal>
    ensures { IfOk result (λ place. (32 ≤ place) × (place ≤ length bytes.now)) }
{
    let place = end.used.saturating_sub(before);
    if place < LINK_LEN || place > bytes.len() {
        return Err(Refusal::Changed);
    }
    Ok(place)
}

/// An end of a front behind which nothing is written.
#[derive(Clone, Copy)]
pub(crate) struct BadEnd {
    end: Edge,
    total: usize,
    // Why no crash left what stands there; none if one can have.
    damage: Option<Damage>,
    // Whether a word of the command leaves it out.
    is_left_out: bool,
}

impl BadEnd {
    /// The end of a front that is not recovered, of a log of so many bytes.
    pub(crate) fn damaged(end: Edge, total: usize, damage: Damage) -> BadEnd {
        BadEnd {
            end,
            total,
            damage: Some(damage),
            is_left_out: true,
        }
    }

    /// The same of a log that is not served.
    pub(crate) fn not_served(end: Edge, total: usize, damage: Damage) -> BadEnd {
        BadEnd {
            end,
            total,
            damage: Some(damage),
            is_left_out: false,
        }
    }

    // What stands behind the front, in words.
    fn put_damage<W: fmt::Write>(&self, f: &mut fmt::Formatter<W>) -> fmt::Result {
        match self.damage {
            None => f.write_str("no right frame stands behind it"),
            Some(Damage::Unlawful) => f.write_str("a right frame stands there"),
            Some(Damage::Long) => f.write_str("more stands behind it than a crash leaves"),
            Some(Damage::Right(place)) => { write!(f, "a right frame stands behind it at {place}") }
            Some(Damage::Unsearched(place)) => {
                write!(
                    f,
                    "whether a right frame stands behind it is not known from {place} on"
                )
            }
        }
    }
}

impl fmt::Display for BadEnd {
    fn fmt<W: fmt::Write>(&self, f: &mut fmt::Formatter<W>) -> fmt::Result {
        let (used, total, why) = (self.end.used, self.total, self.end.why.word());
        write!(
            f,
            "its front ends by {why} at {used} of {total} bytes, and "
        )?;
        self.put_damage(f)?;
        f.write_str(match self.damage {
            None => ": use rqlog recover",
            Some(_) if !self.is_left_out => ": use rqlook check, rqlook mend and rqlook salvage",
            Some(_) => ": use rqlook check, rqlook mend and rqlook salvage; --drop leaves it out",
        })
    }
}

/// What of a log is left out behind its front.
#[derive(Clone, Copy)]
pub(crate) struct LeftOut {
    // Its bytes.
    bytes: usize,
    // How many right frames were found in them.
    frames: usize,
}

/// Says what of a log was left out behind its front, if that is to be told.
pub(crate) fn tell_left_out<R: Eprint>(rt: &R, left: Option<LeftOut>) {
    let Some(LeftOut { bytes, frames }) = left else {
        return;
    };
    let _ = eprintln!(rt;
        "rqlog: left out {bytes} bytes behind the front, with {frames} right frames"
    );
}

/// The same damage of a log, before whose last bytes stand so many.
pub(crate) fn moved(damage: Damage, before: usize) -> Damage {
    match damage {
        Damage::Right(place) => Damage::Right(place.saturating_add(before)),
        Damage::Unsearched(place) => Damage::Unsearched(place.saturating_add(before)),
        _ => damage,
    }
}

// Why nothing is written behind a front; none if something is: nothing stands there, or the
// beginning of a frame.
fn bad_end(
    alloc: Global,
    last: LastBytes<'_>,
    version: Version,
    end: Edge,
) -> Result<Option<BadEnd>, Refusal> {
    let place = place_in(last.bytes, last.before, end)?;
    let damage = Damage::left_behind(alloc, version, last.bytes, place, end.why)?;
    if damage.is_none() && matches!(end.why, Why::Whole | Why::Cut) {
        return Ok(None);
    }
    Ok(Some(BadEnd {
        end,
        total: last.total,
        damage: damage.map(|damage| moved(damage, last.before)),
        is_left_out: true,
    }))
}

// How many right frames a check finds behind a place; or one, if it finds none and one stands alone.
fn right_frames(
    alloc: Global,
    version: Version,
    bytes: &[u8],
    place: usize,
) -> Result<usize, Refusal>
    requires after { 32 ≤ place }
    requires within { place ≤ length bytes.now }
{
    let found = Found::of(alloc, version, bytes, place)?;
    if found.spans.is_empty() && matches!(Scan::of(version, bytes, place), Scan::At(_)) {
        return Ok(1);
    }
    Ok(found.spans.len())
}

/// What is left out if something is written behind a front.
pub(crate) fn left_out(
    alloc: Global,
    last: LastBytes<'_>,
    version: Version,
    end: Edge,
) -> Result<LeftOut, Refusal> {
    let place = place_in(last.bytes, last.before, end)?;
    Ok(LeftOut {
        bytes: last.bytes.len() - place,
        frames: right_frames(alloc, version, last.bytes, place)?,
    })
}

/// Refuses a front behind which nothing is written, unless what stands there is to be left out, and
/// answers then what that is.
pub(crate) fn expect_end(
    alloc: Global,
    last: LastBytes<'_>,
    version: Version,
    end: Edge,
    drops: bool,
) -> Result<Option<LeftOut>, Refusal> {
    match bad_end(alloc, last, version, end)? {
        None => Ok(None),
        Some(_) if drops => Ok(Some(left_out(alloc, last, version, end)?)),
        Some(bad) => Err(Refusal::Damaged(bad)),
    }
}
