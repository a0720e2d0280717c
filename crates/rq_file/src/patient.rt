//! A writer that waits for a reader who is slow.

use std::io::{self, ErrorKind, Write};
use std::thread;
use std::time::{Clock, Duration};

// How long it waits before it tries a write again, in milliseconds.
const PAUSE: u64 = 5;

/// A writer that takes what the inner one takes, and waits by the clock where that would not: a
/// pipe or a terminal that does not block, of which nobody read for a while, refuses a write that
/// it takes later.
#[derive(Drop)]
pub struct Patient<'a, R: Clock, W: Write> {
    pub rt: &'a R,
    pub inner: W,
}

impl<'a, R: Clock, W: Write> Write for Patient<'a, R, W> {
    fn write(&mut self, bytes: &[u8]) -> io::Result<usize> {
        for _ in 0..u64::MAX {
            match self.inner.write(bytes) {
                Err(error) if error.kind() == ErrorKind::WouldBlock => {
                    thread::sleep(self.rt, Duration::from_millis(PAUSE));
                }
                answer => return answer,
            }
        }
        Err(io::Error::from(ErrorKind::TimedOut))
    }

    fn flush(&mut self) -> io::Result<()> {
        self.inner.flush()
    }
}
