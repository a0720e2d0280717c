//! A log as one page that a browser shows.

ghost use Rattle.std.specs.Prelude.{ℕ, ◌≡◌, ◌<◌, ◌++◌, ◌⊎◌, List, IfOk, IfErr, OnOk, string_bytes};
ghost use Rattle.std.specs.Io.KnownBytes.{Appends};
ghost use Rattle.rq_model.specs.Fronts as fronts;
ghost use Rattle.rq_record.specs.declared.fault.Fault.TheVariants.{Resources};
ghost use Rattle.rq_front.specs.Chains.{IsLog};
ghost use Rattle.rq_found.specs.Ends.{IsRestartFrom};
ghost use Rattle.rq_found.specs.Refusals.{CountsFaults, IsBroken, IsRefusal, StaysUnshown};
ghost use Rattle.rq_found.specs.declared.trouble.Trouble.TheVariants.{Log};
ghost use Rattle.rq_page.specs.Markup.{page_foot, page_head};

use crate::histories::put_histories;
use crate::lives::{Lives, lives_of};
use crate::markup::{BEGINNING, put_foot, put_head};
use crate::pictures::put_picture;
use crate::records::put_record_rows;
use crate::shown::Linked;
use crate::summaries::{put_header, put_left_out, put_parts, put_summary};
use crate::surveys::{Survey, surveyed};
use crate::tables::put_queue_table;
use crate::units::put_open;
use rq_behind::Found;
use rq_found::{Diagnosis, End, Output, Put, ShownLog, Trouble, write_bytes};
use rq_look::{Findings, may_have_right, standing_behind};
use rq_restart::Restarted;
use rq_state::State;
use std::alloc::Global;
use std::thread::Threads;

/// In which order the queues of a page stand.
#[derive(Clone, Copy, Debug, PartialEq, Eq)]
pub enum Order {
    /// The one with the most free elements first, and by number if they have as many.
    Depth,
    /// By number.
    Number,
    /// By name, and by number if they have the same.
    Name,
}

/// What a page is asked to show, and what it says of itself.
#[derive(Clone, Copy, Debug)]
pub struct Asked<'a> {
    /// The name of the log.
    pub name: &'a str,
    /// What stands for the log in a line that is typed.
    pub typed: &'a str,
    /// The version of the program that makes the page.
    pub version: &'a str,
    /// The order of the queues.
    pub order: Order,
    /// Elements whose lives are shown, however long the log is.
    pub elements: &'a [u64],
    /// Units whose lives are shown, however long the log is.
    pub units: &'a [u64],
}

// What is found of a log: its restart, where its front ends, what stands behind that, and which
// checkpoints are true.
#[derive(Drop)]
struct RestartedLog {
    restarted: Restarted,
    end: End,
    behind: Found,
    checkpoints: Vec<(u64, bool)>,
}

// What a page shows of a log, beside lives: also the state behind which the front begins, and what a
// walk over the front finds.
#[derive(Drop)]
struct Contents {
    found: RestartedLog,
    first: State,
    seen: Survey,
    // The elements and the units that were asked for.
    elements: Vec<u64>,
    units: Vec<u64>,
}

// The same, with the lives that stand on the page, and whether these are all.
#[derive(Drop)]
struct PageContents {
    contents: Contents,
    lives: Lives,
    all: bool,
}

fn found_in<R: Threads + Sync>(
    rt: &R,
    alloc: Global,
    log: &ShownLog<'_>,
) -> Result<RestartedLog, Trouble>
    ensures log { OnOk result (IsLog log.now.bytes.now) }
    ensures restart { IfOk result
        (λ found. IsRestartFrom log.now.at log.now.bytes.now found.restarted) }
    ensures refused { IfErr result (λ e. (IsLog log.now.bytes.now × (e ≡ Log Resources))
        ⊎ IsRefusal log.now.at log.now.bytes.now e) }
{
    let restarted = log.restarted(rt, alloc)?;
    let end = End::after_restart(rt, alloc, log, &restarted)?;
    let behind = standing_behind(alloc, log.bytes, &end)?;
    let checkpoints = Findings::audited_from(rt, alloc, log)?;
    Ok(RestartedLog {
        restarted,
        end,
        behind,
        checkpoints,
    })
}

fn contents_of(
    alloc: Global,
    bytes: &[u8],
    found: RestartedLog,
    asked: &Asked<'_>,
) -> Result<Contents, Trouble>
    ensures { IfErr result (λ e. e ≡ Log Resources) }
{
    let elements = asked.elements.to_vec(alloc)?;
    let units = asked.units.to_vec(alloc)?;
    let first = ShownLog::first_state(alloc, bytes, found.end.at)?;
    let seen = surveyed(alloc, bytes, &first, &found.end, found.restarted.state())?;
    Ok(Contents {
        found,
        first,
        seen,
        elements,
        units,
    })
}

// What is shown, as far as it is known before lives are gathered: whether those of all may be.
fn begun(contents: &Contents) -> Linked<'_> {
    let found = &contents.found;
    let (elements, units) = (contents.elements.as_slice(), contents.units.as_slice());
    let count = found.end.front.next.saturating_sub(contents.first.next());
    Linked::of(
        found.restarted.state().definitions(),
        elements,
        units,
        count,
    )
}

// The lives of all, or of those that were asked for.
fn gathered(alloc: Global, bytes: &[u8], contents: &Contents, all: bool) -> Result<Lives, Trouble>
    ensures { IfErr result (λ e. e ≡ Log Resources) }
{
    let mut shown = begun(contents);
    shown.all = all;
    let (first, found) = (&contents.first, &contents.found);
    lives_of(
        alloc,
        bytes,
        first,
        &found.end,
        &shown,
        found.checkpoints.as_slice(),
    )
}

// Shows the lives of all, if they may be shown and fit.
fn told_of(alloc: Global, bytes: &[u8], contents: Contents) -> Result<PageContents, Trouble>
    ensures { IfErr result (λ e. e ≡ Log Resources) }
{
    let may_be_all = begun(&contents).all;
    let mut lives = gathered(alloc, bytes, &contents, may_be_all)?;
    let all = may_be_all && lives.more == 0;
    if may_be_all && !all {
        lives = gathered(alloc, bytes, &contents, false)?;
    }
    Ok(PageContents {
        contents,
        lives,
        all,
    })
}

// Puts what stands before the queues.
fn put_top(
    alloc: Global,
    text: &mut String,
    bytes: &[u8],
    told: &PageContents,
    asked: &Asked<'_>,
) -> Put {
    let found = &told.contents.found;
    let (restarted, end) = (&found.restarted, &found.end);
    put_head(alloc, text, asked.name)?;
    let checkpoints = found.checkpoints.as_slice();
    let is_sound = checkpoints.iter().all(|checkpoint| checkpoint.1);
    let diagnosis = Diagnosis::of(end, may_have_right(&found.behind), is_sound);
    put_header(alloc, text, asked, restarted, end, diagnosis)?;
    put_parts(text, &told.lives, told.all)?;
    text.push_str("<main>\n")?;
    put_summary(
        alloc,
        text,
        bytes,
        restarted,
        end,
        &found.behind,
        checkpoints,
    )
}

// Puts what the log's length, its units and its queues show.
fn put_middle(
    alloc: Global,
    text: &mut String,
    shown: &Linked<'_>,
    contents: &Contents,
    order: Order,
) -> Put {
    let (seen, found) = (&contents.seen, &contents.found);
    let (state, end) = (found.restarted.state(), &found.end);
    put_picture(alloc, text, seen, end, found.checkpoints.as_slice())?;
    put_open(text, shown, seen, end)?;
    put_queue_table(alloc, text, shown, seen, state, end, order)
}

// Puts the lives that are shown, and that others are left out, if they are.
fn put_lives(text: &mut String, shown: &Linked<'_>, lives: &Lives, is_long: bool) -> Put {
    if !shown.all {
        put_left_out(text, is_long)?;
    }
    put_histories(text, shown, lives)?;
    put_record_rows(text, lives.rows.as_str(), lives.count, lives.more)?;
    text.push_str("</main>\n")
}

// Puts all parts, one behind the other.
fn put_all(
    alloc: Global,
    text: &mut String,
    bytes: &[u8],
    told: &PageContents,
    asked: &Asked<'_>,
) -> Put
    ensures { OnOk result ((put : List ℕ) × (string_bytes text.new ≡ put ++ page_foot)) }
{
    let mut shown = begun(&told.contents);
    let is_long = !shown.all;
    let lives = Some(&told.lives);
    shown.all = told.all;
    shown.lives = lives;
    put_top(alloc, text, bytes, told, asked)?;
    put_middle(alloc, text, &shown, &told.contents, asked.order)?;
    put_lives(text, &shown, &told.lives, is_long)?;
    put_foot(text)
}

fn put_page<W: Output>(
    alloc: Global,
    bytes: &[u8],
    told: &PageContents,
    asked: &Asked<'_>,
    output: &mut W,
) -> Result<(), Trouble>
    requires faults { W.faults output.old < 18446744073709551615 }
    ensures whole { OnOk result ((put : List ℕ)
        × Appends (W.contents output.old) (W.contents output.new)
        (page_head ++ (put ++ page_foot))) }
    ensures refused { IfErr result IsBroken }
    ensures faults { CountsFaults (W.faults output.old) (W.faults output.new) result }
{
    let mut text = String::new(alloc);
    put_all(alloc, &mut text, bytes, told, asked)?;
    write_bytes(output, BEGINNING.as_bytes())?;
    write_bytes(output, text.as_bytes())?;
    Ok(())
}

/// Writes a log as one page of HTML: where its front ends and why, a picture of the log along its
/// length, the units that were open at the front's end, and each queue with its depth along the log
/// and its elements; and what became of each element, unit and registrant, record by record, if all
/// of it fits, and else of those that are asked for. Of a log that was carried on it shows what comes
/// from the checkpoint on that it begins with. The page has no parts outside and no script. It is made
/// in memory, and its length is bounded whatever the log is.
///
/// Refuses what a restart refuses, from there if there is an offset, and with `Resources` if memory
/// is refused, and before anything is written; and with `WriteFailed` if a write failed, and then
/// some of it may be written.
#[tactic(auto, using(rq_found::proofs::Writes::refusal_unwritten))]
pub fn page<R: Threads + Sync, W: Output>(
    rt: &R,
    alloc: Global,
    asked: &Asked<'_>,
    log: &ShownLog<'_>,
    output: &mut W,
) -> Result<(), Trouble>
    requires faults { W.faults output.old < 18446744073709551615 }
    ensures log { OnOk result (IsLog log.now.bytes.now) }
    ensures restart { OnOk result
        ((r : fronts.Restarted) × IsRestartFrom log.now.at log.now.bytes.now r) }
    ensures whole { OnOk result ((put : List ℕ)
        × Appends (W.contents output.old) (W.contents output.new)
        (page_head ++ (put ++ page_foot))) }
    ensures refused { IfErr result (StaysUnshown log.now.at log.now.bytes.now
        (W.contents output.old) (W.contents output.new)) }
    ensures faults { CountsFaults (W.faults output.old) (W.faults output.new) result }
{
    let found = found_in(rt, alloc, log)?;
    let contents = contents_of(alloc, log.bytes, found, asked)?;
    let told = told_of(alloc, log.bytes, contents)?;
    put_page(alloc, log.bytes, &told, asked, output)
}
