//! Numbers of a log as they are shown.

use crate::measures::Measures;
use crate::rows::Value::{Number, Word};
use crate::rows::{
    DEPTHS, KINDS, MOVES, OUTCOMES, PAYLOADS, Row, Sort, UNITS, put_greatest, put_rows, write_list,
    write_only,
};
use rq_found::{FrontShown, Put};
use rq_record::Name;
use serde::{Described, Serialize, Serializer};
use std::alloc::{AllocError, Global};

/// All that is shown.
#[derive(Clone, Copy)]
pub(crate) struct StatisticsShown<'a> {
    pub(crate) front: FrontShown<'a>,
    pub(crate) rows: &'a [Row<'a>],
}

impl StatisticsShown<'_> {
    fn write_rows<S: Serializer>(&self, out: &mut S) -> Result<(), S::Error> {
        let rows = self.rows;
        write_list(&KINDS, rows, out)?;
        write_only(&OUTCOMES, rows, out)?;
        write_list(&PAYLOADS, rows, out)?;
        write_list(&UNITS, rows, out)?;
        write_list(&DEPTHS, rows, out)?;
        write_list(&MOVES, rows, out)
    }
}

impl Described for StatisticsShown<'_> {}

impl Serialize for StatisticsShown<'_> {
    fn serialize<S: Serializer>(&self, out: &mut S) -> Result<(), S::Error> {
        self.front.begin(out)?;
        self.write_rows(out)?;
        out.end_map()
    }
}

// Puts the lines of all rows.
fn put_lines(text: &mut String, rows: &[Row<'_>]) -> Put {
    put_rows(text, &KINDS, rows)?;
    put_rows(text, &OUTCOMES, rows)?;
    put_rows(text, &UNITS, rows)?;
    put_rows(text, &PAYLOADS, rows)?;
    put_rows(text, &DEPTHS, rows)?;
    put_rows(text, &MOVES, rows)
}

/// The lines of all rows of these measures.
pub(crate) fn lines_of(alloc: Global, measures: &Measures) -> Result<String, AllocError> {
    let rows = rows_of(alloc, measures)?;
    let mut text = String::new(alloc);
    put_lines(&mut text, &rows)?;
    Ok(text)
}

// Puts the queues with the most elements, the most first, of these numbers of elements by queue.
fn put_queues<'a>(
    alloc: Global,
    rows: &mut Vec<Row<'a>>,
    sort: &'static Sort,
    names: &'a [Name],
    counts: &[u64],
) -> Result<(), AllocError> {
    let mut ranked: Vec<Row<'a>> = Vec::new(alloc);
    for (queue, name) in names.iter().enumerate() {
        let rank = counts.get(queue).copied().unwrap_or(0);
        let fields = [Number(queue as u64), Word(name.text()), Number(rank)];
        if rank > 0 {
            put_greatest(&mut ranked, &Row { sort, fields, rank })?;
        }
    }
    rows.extend_from_slice(&ranked)?;
    Ok(())
}

// Puts the rows of these measures.
fn put_all<'a>(
    alloc: Global,
    rows: &mut Vec<Row<'a>>,
    measures: &'a Measures,
) -> Result<(), AllocError> {
    let rank = 0;
    for kind in measures.kinds.values() {
        let (sort, fields) = (
            &KINDS,
            [Word(kind.kind), Number(kind.records), Number(kind.bytes)],
        );
        rows.push(Row { sort, fields, rank })?;
    }
    let (committed, aborted) = (Number(measures.committed), Number(measures.aborted));
    let (sort, fields) = (&OUTCOMES, [committed, aborted, Number(measures.cut_off)]);
    rows.push(Row { sort, fields, rank })?;
    rows.extend_from_slice(&measures.loads)?;
    rows.extend_from_slice(&measures.units)?;
    put_queues(alloc, rows, &DEPTHS, &measures.names, &measures.depths)?;
    put_queues(alloc, rows, &MOVES, &measures.names, &measures.moves)
}

/// What is shown of these measures.
pub(crate) fn rows_of<'a>(
    alloc: Global,
    measures: &'a Measures,
) -> Result<Vec<Row<'a>>, AllocError> {
    let mut rows: Vec<Row<'a>> = Vec::new(alloc);
    put_all(alloc, &mut rows, measures)?;
    Ok(rows)
}
