//! The place of the next right frame.

ghost use Rattle.std.specs.Prelude.{◌≡◌, ◌≤◌, ℕ, length, MatchOption};
ghost use Rattle.rq_record.specs.Views.{version_of};
ghost use Rattle.rq_behind.specs.Runs.{BeginsRun};
ghost use Rattle.rq_behind.specs.Behind.{IsNextPlace, IsPlaceAt, IsRunPlace, LeadsFrom, LeadsTo};

use crate::runs::{judge, judge_run, length_at, looks_like_run};
use rq_front::FRAME_LEN;
use rq_record::Version;

// What a digest costs beside its bytes: one block of its function.
const BLOCK: usize = 64;

/// Where a search ends.
#[derive(Clone, Copy, Debug)]
pub(crate) enum SearchEnd {
    /// A right frame stands here.
    At(usize),
    /// No right frame is found any more. If too many bytes were looked at in vain, this is the place
    /// that is not looked at, too.
    Nowhere(Option<usize>),
}

/// Takes the cost of a digest that was made in vain from what may be spent.
pub(crate) fn spend(budget: &mut usize, from: usize, end: usize) {
    let cost = end.saturating_sub(from).saturating_add(BLOCK);
    *budget = budget.saturating_sub(cost);
}

// What a place shows: that a run begins there, or that nothing may be spent any more. None if no run
// begins there.
fn place_at(version: Version, bytes: &[u8], at: usize, budget: &mut usize) -> Option<SearchEnd>
    requires after { 32 ≤ at }
    requires within { at ≤ length bytes.now }
    ensures { MatchOption result (BeginsRun (version_of version) bytes.now at → ⊥)
        (IsPlaceAt (version_of version) bytes.now at) }
{
    if !looks_like_run(version, bytes, at) {
        return None;
    }
    if *budget == 0 {
        return Some(SearchEnd::Nowhere(Some(at)));
    }
    let judged = judge_run(bytes, at);
    if judged.is_right {
        return Some(SearchEnd::At(at));
    }
    spend(budget, at, judged.end);
    None
}

// The first place of a run from an offset on.
fn run_from(version: Version, bytes: &[u8], from: usize, budget: &mut usize) -> SearchEnd
    requires after { 32 ≤ from }
    ensures { IsRunPlace (version_of version) bytes.now from result }
{
    for at in from..bytes.len() {
        match place_at(version, bytes, at, budget) {
            Some(place) => return place,
            None => {}
        }
    }
    SearchEnd::Nowhere(None)
}

// The right frame to which lengths lead, and where the bytes end that were looked at for it.
#[derive(Clone, Copy, Debug)]
struct Led {
    place: Option<usize>,
    end: usize,
}

// From the frame behind a wrong one.
fn led_from(bytes: &[u8], second: usize) -> Led
    requires after { 32 ≤ second }
    requires within { second ≤ length bytes.now }
    ensures { MatchOption result.place ((p : ℕ) → LeadsFrom bytes.now second p → ⊥)
        (LeadsFrom bytes.now second) }
{
    let judged = judge(bytes, second);
    if judged.is_right {
        return Led {
            place: Some(second),
            end: judged.end,
        };
    }
    let Some(len) = length_at(bytes, second) else {
        return Led {
            place: None,
            end: judged.end,
        };
    };
    let third = second + FRAME_LEN + len;
    let judged = judge(bytes, third);
    Led {
        place: if judged.is_right { Some(third) } else { None },
        end: judged.end,
    }
}

// From a wrong frame.
fn led_to(bytes: &[u8], at: usize) -> Led
    requires after { 32 ≤ at }
    requires within { at ≤ length bytes.now }
    ensures { MatchOption result.place ((p : ℕ) → LeadsTo bytes.now at p → ⊥)
        (LeadsTo bytes.now at) }
{
    match length_at(bytes, at) {
        Some(len) => led_from(bytes, at + FRAME_LEN + len),
        None => Led {
            place: None,
            end: at,
        },
    }
}

/// The place of the next right frame from an offset on: the one that stands there; else that to which
/// the lengths of a wrong frame lead, or of a wrong one behind it; else the first of the next run.
/// Digests that are made in vain are paid from a budget of bytes. If that is spent, the answer is
/// the place that is not looked at any more.
pub(crate) fn next_place(version: Version, bytes: &[u8], at: usize, budget: &mut usize) -> SearchEnd
    requires after { 32 ≤ at }
    requires within { at ≤ length bytes.now }
    ensures { IsNextPlace (version_of version) bytes.now at result }
{
    if judge(bytes, at).is_right {
        return SearchEnd::At(at);
    }
    let led = led_to(bytes, at);
    if let Some(place) = led.place {
        return SearchEnd::At(place);
    }
    spend(budget, at, led.end);
    if at == bytes.len() {
        return SearchEnd::Nowhere(None);
    }
    run_from(version, bytes, at + 1, budget)
}
