//! The log along its length: records by kind, checkpoints, and what stands behind the front.

use crate::curves::{along, bin_of, put_axis};
use crate::markup::Html::{Count, Number, Tag};
use crate::markup::{put_html, put_rect};
use crate::surveys::{BINS, Bin, Survey};
use rq_found::{End, Put};
use std::alloc::{AllocError, Global};
use std::collections::BTreeMap;

// The picture's width; of a bin; the height of the bars, and of the line of checkpoints below.
const WIDTH: u64 = 1000;

const BIN: u64 = 5;

const HEIGHT: u64 = 160;

const LINE: u64 = 14;

// What stands before the records.
const TOP: &str = "<section id=\"log\">
<h2>The log along its length</h2>
<div class=\"plot tall\"><span class=\"scale\"><span>{}</span><span>0</span></span>\
    <svg viewBox=\"0 0 {} {}\" preserveAspectRatio=\"none\" role=\"img\">\
    <title>Records by kind along the log, at most {} in one of 200 parts</title>
";

fn records_of(bin: &Bin) -> u64 {
    let mut sum: u64 = 0;
    for (_, count) in bin {
        sum = sum.saturating_add(*count);
    }
    sum
}

// The most records that begin in one bin.
fn most_of(bins: &[Bin]) -> u64 {
    let mut most = 0;
    for bin in bins {
        most = records_of(bin).max(most);
    }
    most
}

fn put_counts(text: &mut String, bin: &Bin) -> Put {
    for (kind, count) in bin {
        put_html(text, "{} {} ", &[Count(*count), Tag(*kind)])?;
    }
    Ok(())
}

// Puts the records of one bin, one kind on the other; the most of any bin fill the height.
fn put_stack(text: &mut String, bin: &Bin, x: u64, most: u64) -> Put {
    let mut below: u64 = 0;
    for (kind, count) in bin {
        let base = along(below, most, HEIGHT);
        below = below.saturating_add(*count);
        let top = along(below, most, HEIGHT);
        let place = [x, HEIGHT.saturating_sub(top), BIN, top.saturating_sub(base)];
        put_rect(text, *kind, place, "/>")?;
    }
    Ok(())
}

// Puts the records of each bin, with what the pointer shows of it.
fn put_bars(text: &mut String, bins: &[Bin], most: u64) -> Put {
    let mut index = 0;
    for bin in bins {
        if !bin.is_empty() {
            text.push_str("<g><title>")?;
            put_counts(text, bin)?;
            text.push_str("</title>")?;
            put_stack(text, bin, along(index, BINS, WIDTH), most)?;
            text.push_str("</g>\n")?;
        }
        index = index.saturating_add(1);
    }
    Ok(())
}

// The bins that have a checkpoint, and whether all of theirs are true.
fn marked(
    marks: &mut BTreeMap<u64, bool>,
    checkpoints: &[(u64, bool)],
    total: u64,
) -> Result<(), AllocError> {
    for (offset, truth) in checkpoints {
        let bin = bin_of(*offset, total, BINS);
        let before = marks.get(&bin).copied().unwrap_or(true);
        marks.insert(bin, before && *truth)?;
    }
    Ok(())
}

fn put_marks(text: &mut String, marks: &BTreeMap<u64, bool>) -> Put {
    for (bin, truth) in marks {
        let (class, behind) = if *truth {
            ("true", "><title>a checkpoint</title></rect>\n")
        } else {
            (
                "false",
                "><title>a checkpoint that does not spell the state before it</title></rect>\n",
            )
        };
        put_rect(
            text,
            class,
            [along(*bin, BINS, WIDTH), HEIGHT + 4, BIN, 10],
            behind,
        )?;
    }
    Ok(())
}

// Puts what stands behind the front; however short it is, it is seen.
fn put_damage(text: &mut String, end: &End) -> Put {
    if end.front.used >= end.front.total {
        return Ok(());
    }
    let x = along(end.front.used, end.front.total, WIDTH).min(WIDTH - 4);
    put_rect(
        text,
        "damage",
        [x, 0, WIDTH.saturating_sub(x), HEIGHT + LINE],
        "",
    )?;
    let count = Count(end.front.total.saturating_sub(end.front.used));
    put_html(
        text,
        "><title>{} bytes behind the front</title></rect>\n",
        &[count],
    )
}

// Puts what the colours mean, and how many records of each kind there are.
fn put_legend(text: &mut String, seen: &Survey, end: &End, marks: bool) -> Put {
    text.push_str("<ul class=\"legend\">\n")?;
    for (kind, count) in &seen.kinds {
        let kind = Tag(*kind);
        put_html(
            text,
            "<li class=\"{}\">{} {}</li>\n",
            &[kind, Count(*count), kind],
        )?;
    }
    if marks {
        text.push_str("<li class=\"true\">a checkpoint stands here</li>\n")?;
    }
    if end.front.used < end.front.total {
        text.push_str("<li class=\"damage\">behind the front</li>\n")?;
    }
    text.push_str("</ul>\n</section>\n")
}

/// Puts the log along its length: the records, the checkpoints and what stands behind the front, above
/// an axis.
pub(crate) fn put_picture(
    alloc: Global,
    text: &mut String,
    seen: &Survey,
    end: &End,
    checkpoints: &[(u64, bool)],
) -> Put {
    let mut marks = BTreeMap::new(alloc);
    marked(&mut marks, checkpoints, end.front.total)?;
    let most = most_of(&seen.bins);
    let (scale, height) = (Count(most), Number(HEIGHT + LINE));
    put_html(text, TOP, &[scale, Number(WIDTH), height, scale])?;
    put_bars(text, &seen.bins, most)?;
    put_marks(text, &marks)?;
    put_damage(text, end)?;
    text.push_str("</svg></div>\n")?;
    put_axis(text, end.front.total)?;
    put_legend(text, seen, end, !marks.is_empty())
}
