//! Calls that the program never makes, or makes only through others, each once, with ample memory.

use rq_file::Replaces;
use rq_rows::{CHECKPOINT, answer, log_of, makes};
use rq_tool::{Command, Fault, Open};
use rq_writer::decimal_number;
use std::fs;
use std::test::Fail;

const FAULTS: [(Fault, &str, u8); 10] = [
    (Fault::Form, "no record", 1),
    (Fault::NotALog, "not a log", 1),
    (Fault::TooLong, "too long", 1),
    (Fault::TooLarge, "too large", 1),
    (Fault::BadCheckpoint, "bad checkpoint", 1),
    (Fault::Resources, "resources", 4),
    (Fault::NoCheckpoint, "no checkpoint", 1),
    (Fault::Script(7), "script line 7", 1),
    (Fault::ReadFailed, "read fault", 3),
    (Fault::WriteFailed, "write fault", 3),
];

#[test]
fn faults_have_texts_and_statuses(rt: HostRuntime) -> Result<(), Fail> {
    for (fault, text, status) in &FAULTS {
        let told = fault.to_string(rt.alloc())?;
        assert!(rt; told.as_str() == *text && fault.exit() == *status, "{text}");
    }
    Ok(())
}

#[test]
fn a_script_is_made_from_bytes_and_from_a_reader(rt: HostRuntime) -> Result<(), Fail> {
    let log = log_of(&rt, CHECKPOINT)?;
    let command = Command::Make {
        script: "script",
        log: "log",
    };
    let (done, made) = answer(&rt, &command, CHECKPOINT, Vec::new(rt.alloc()), &Open);
    assert!(rt; done.is_ok() && made == log && log.len() == 724);
    assert!(rt; makes(&rt, CHECKPOINT, &log));
    Ok(())
}

// The digits of the greatest number are read, and those of the next one are not.
#[test]
fn numbers_are_read(rt: HostRuntime) {
    assert!(rt; decimal_number(255, b"255") == Some(255));
    assert!(rt; decimal_number(255, b"256").is_none());
}

// A file of a few bytes, or of none, which no line of a program makes.
#[test]
fn a_file_is_made_and_made_again(rt: HostRuntime) -> Result<(), Fail> {
    for bytes in ["the first file", "another", ""] {
        Replaces::Anything.put_over(&rt, "made", &[bytes.as_bytes()])?;
        assert!(rt; fs::read_to_string(&rt, "made")?.as_str() == bytes);
        assert!(rt;
            fs::symlink_metadata(&rt, "made.rq0").is_err(),
            "the name stays free"
        );
    }
    fs::remove_file(&rt, "made")?;
    Ok(())
}
