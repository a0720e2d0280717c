//! A manager serves lines: what it answers, and what stands on its device then.

use rq_device::{Memory, NewMemory};
use rq_live::Manager;
use rq_record::Version;
use rq_rows::{Counting, answers_to};
use std::test::Fail;

// What is asked: each request once at least, and each way in which one is refused.
const ASKED: &[u8] = b"define dead 0 -\n\
    define jobs 2 dead\n\
    define jobs 2 dead\n\
    define jobs 3 dead\n\
    define more 1 none\n\
    define more 0 dead\n\
    register jobs ann\n\
    begin\n\
    begin 7\n\
    begin 7\n\
    enqueue 7 jobs 5 ann 10 6869\n\
    enqueue 7 jobs 9 - 0 -\n\
    enqueue 7 none 9 - 0 -\n\
    commit 7\n\
    abort 7\n\
    enqueue 1 jobs 5 ann 11 6869\n\
    commit 1\n\
    register jobs ann\n\
    last jobs ann\n\
    last jobs bob\n\
    queues\n\
    begin 8\n\
    dequeue 8 jobs - 0\n\
    dequeue 8 jobs ann 12\n\
    abort 8\n\
    queue jobs 3\n\
    kill jobs 8\n\
    kill jobs 8\n\
    deregister jobs ann\n\
    settle\n\
    begin 9\n\
    commit 9 later\n\
    begin 10\n\
    no request\n\
    commit 10\n\
    close\n\
    settle\n";

const ANSWERED: &str = "queue 0\n\
    queue 1\n\
    queue 1\n\
    refused defined: the queue is defined with another limit or error queue\n\
    refused no-queue: no queue has this name\n\
    refused limit: this limit does not go with this error queue\n\
    last none\n\
    unit 1\n\
    unit 7\n\
    refused unit: the unit is not greater than every one before\n\
    element 5\n\
    element 6\n\
    refused no-queue: no queue has this name\n\
    refused doomed: a line was refused in the unit: abort it\n\
    ok\n\
    element 8\n\
    ok\n\
    last enqueue 11 8\n\
    last enqueue 11 8\n\
    refused no-registrant: nobody is registered with this queue by the name\n\
    lines 2\n\
    queue 0 dead limit 0 error - free 0 fresh 0 held 0\n\
    queue 1 jobs limit 2 error 0 free 1 fresh 0 held 0\n\
    unit 8\n\
    element 8 jobs 5 0 6869\n\
    none\n\
    ok\n\
    lines 2\n\
    e 8 from 1 priority 5 attempts 1 6869\n\
    r ann enqueue tag 11 element 8\n\
    ok\n\
    none\n\
    ok\n\
    ok\n\
    unit 9\n\
    later\n\
    unit 10\n\
    error: the line is no request\n\
    refused doomed: a line was refused in the unit: abort it\n\
    closed 966\n";

// No log is as long.
const NEVER: usize = 4_294_967_296;

#[test]
fn a_program_is_served(rt: HostRuntime) -> Result<(), Fail> {
    let alloc = rt.alloc();
    let mut m = Manager::new(alloc, Version::Two, Memory::new(alloc))?;
    let mut next = Counting::new(NewMemory::new(alloc));
    let answered = answers_to(alloc, &mut m, &mut next, NEVER, ASKED)
        .ok()
        .ok_or("served")?;
    assert_eq!(rt; answered.as_slice(), ANSWERED.as_bytes());
    assert_eq!(rt; m.device().synced(), m.device().bytes().len());
    Ok(())
}

// What follows the last line of the input is no request.
#[test]
fn half_a_line_is_not_done(rt: HostRuntime) -> Result<(), Fail> {
    let alloc = rt.alloc();
    let mut m = Manager::new(alloc, Version::Two, Memory::new(alloc))?;
    let asked = b"define jobs 0 -\nbegin\nbegin 10".as_slice();
    let mut next = Counting::new(NewMemory::new(alloc));
    let answered = answers_to(alloc, &mut m, &mut next, NEVER, asked)
        .ok()
        .ok_or("served")?;
    assert_eq!(rt; answered.as_slice(), b"queue 0\nunit 1\n".as_slice());
    Ok(())
}

// A log of 300 bytes goes on in a new one, and so does one for which a line asks; a unit stays open.
#[test]
fn a_log_is_carried_on(rt: HostRuntime) -> Result<(), Fail> {
    let alloc = rt.alloc();
    let mut m = Manager::new(alloc, Version::Two, Memory::new(alloc))?;
    let mut next = Counting::new(NewMemory::new(alloc));
    let asked = b"define jobs 0 -\nbegin\nenqueue 1 jobs 5 - 0 6869\ncarry\ncommit 1\nbegin\n\
        dequeue 2 jobs - 0\ncommit 2\nbegin\nabort 3\nqueues\nclose\n"
        .as_slice();
    let answered = answers_to(alloc, &mut m, &mut next, 300, asked)
        .ok()
        .ok_or("served")?;
    let want = "queue 0\nunit 1\nelement 2\ncarried 3\nok\nunit 2\nelement 2 jobs 5 0 6869\nok\n\
        unit 3\nok\nlines 1\nqueue 0 jobs limit 0 error - free 0 fresh 0 held 0\nclosed 225\n";
    assert_eq!(rt; answered.as_slice(), want.as_bytes());
    assert_eq!(rt; (next.carried, next.refused), (1, 0));
    assert_eq!(rt; m.device().synced(), m.device().bytes().len());
    Ok(())
}
