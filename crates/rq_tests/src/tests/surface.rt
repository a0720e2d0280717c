//! What the calls of the public surface answer to a caller that is written from the statement.

use rq_restart::Why;
use rq_rows::{
    ONE_ELEMENT, has_right_chain, is_made_and_upgraded, is_open, is_restarted, is_restarted_at,
    is_run, log_framed, log_of, log_with, marks_are_seen, why,
};
use std::test::Fail;

#[test]
fn a_restart_is_told_and_written(rt: HostRuntime) -> Result<(), Fail> {
    assert!(rt; is_restarted(&rt)?);
    Ok(())
}

#[test]
fn marks_and_notes_are_looked_at(rt: HostRuntime) -> Result<(), Fail> {
    assert!(rt; marks_are_seen(&rt)?);
    Ok(())
}

// The body of a BEGIN of unit 1 has these bytes; no body has kind 77.
const BEGIN_AGAIN: [u8; 9] = [4, 0, 0, 0, 0, 0, 0, 0, 1];

const NO_KIND: [u8; 9] = [77, 0, 0, 0, 0, 0, 0, 0, 1];

// A frame of one byte, with a digest of zeros.
const WRONG: [u8; 37] = [
    0, 0, 0, 1, 5, 0, 0, 0, 0, 0, 0, 0, 0, 0, 0, 0, 0, 0, 0, 0, 0, 0, 0, 0, 0, 0, 0, 0, 0, 0, 0, 0,
    0, 0, 0, 0, 0,
];

#[test]
fn a_front_ends_for_each_reason(rt: HostRuntime) -> Result<(), Fail> {
    assert!(rt; why(&rt, &log_with(&rt, &[0, 0])?)? == Why::Cut);
    assert!(rt; why(&rt, &log_with(&rt, &[0, 0, 0, 0])?)? == Why::Length);
    assert!(rt; why(&rt, &log_with(&rt, &WRONG)?)? == Why::Chain);
    assert!(rt; why(&rt, &log_framed(&rt, &NO_KIND)?)? == Why::Form);
    assert!(rt; why(&rt, &log_framed(&rt, &BEGIN_AGAIN)?)? == Why::Law);
    Ok(())
}

#[test]
fn a_chain_is_right_and_a_unit_is_open(rt: HostRuntime) -> Result<(), Fail> {
    assert!(rt; has_right_chain(&rt, &log_of(&rt, ONE_ELEMENT)?)?);
    assert!(rt; is_open(rt.alloc())?);
    Ok(())
}

#[test]
fn a_report_is_made_from_the_beginning_and_from_a_checkpoint(rt: HostRuntime) -> Result<(), Fail> {
    assert!(rt; is_run(&rt)?);
    assert!(rt; is_restarted_at(&rt)?);
    Ok(())
}

#[test]
fn a_log_is_made_and_upgraded_to_version_2(rt: HostRuntime) -> Result<(), Fail> {
    assert!(rt; is_made_and_upgraded(&rt)?);
    Ok(())
}
