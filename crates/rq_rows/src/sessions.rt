//! A program that is served, over memory or any other device.

ghost use Rattle.rq_live.specs.Managers.{IsInOrder, stand_of};

use rq_device::{Device, Successor, Unmade};
use rq_live::Manager;
use rq_report::{OverRead, OverWrite};
use rq_serve::{CarryPoint, Operator, Refused, Unserved, serve};
use std::alloc::Global;
use std::io::Cursor;

/// Makes devices on which a log goes on, and counts what its operator hears.
#[derive(Drop)]
pub struct Counting<S> {
    next: S,
    /// How often the log was carried on by itself.
    pub carried: u64,
    /// How often it was not, though that was due or asked for.
    pub refused: u64,
}

impl<S> Counting<S> {
    /// Nothing was heard yet.
    pub fn new(next: S) -> Counting<S> {
        Counting {
            next,
            carried: 0,
            refused: 0,
        }
    }
}

impl<D: Device, S: Successor<D>> Successor<D> for Counting<S> {
    fn put(&mut self, records: u64, first: &[u8]) -> Result<D, Unmade> {
        self.next.put(records, first)
    }
}

impl<S> Operator for Counting<S> {
    fn hear_carried(&mut self, _records: u64) {
        self.carried = self.carried.saturating_add(1);
    }

    fn hear_refused(&mut self, _why: Refused) {
        self.refused = self.refused.saturating_add(1);
    }
}

/// What a manager answers to these lines. Then it has settled all, and no unit is open. Its log is carried
/// on when it has so many bytes, and twice as many as it had at the beginning.
pub fn answers_to<D, S>(
    alloc: Global,
    m: &mut Manager<D>,
    next: &mut S,
    least: usize,
    asked: &[u8],
) -> Result<Vec<u8>, Unserved>
where
    D: Device + Drop,
    S: Successor<D> + Operator,
    requires { IsInOrder (stand_of D.written D.synced D.doubted D.failed m.old) }
    ensures { IsInOrder (stand_of D.written D.synced D.doubted D.failed m.new) }
{
    let mut input = OverRead::new(Cursor::new(asked));
    let mut output = OverWrite::new(Vec::new(alloc));
    let point = CarryPoint::new(least, m.len());
    serve(alloc, m, next, point, &mut input, &mut output)?;
    Ok(output.into_inner())
}
