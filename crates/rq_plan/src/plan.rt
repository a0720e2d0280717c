//! How the work is split.

ghost use Rattle.std.specs.Prelude.{◌≡◌, ◌≤◌, ◌↔◌, IsSome, IfSome};

/// How many workers redo the queues, 1 to 64, and how many frames of the log make one grain of the
/// check of digests, 1 to 1,000,000. No answer depends on either.
#[derive(Clone, Copy, Debug)]
pub struct Plan {
    workers: u32,
    grain: u32,
    ghost workers_fit: { (1 ≤ workers) × (workers ≤ 64) },
    ghost grain_fits: { (1 ≤ grain) × (grain ≤ 1000000) },
}

impl Plan {
    ghost use Rattle.rq_plan.specs.Plans.{workers_of, grain_of};

    /// The plan of this many workers and this many frames a grain, if both are in their range.
    pub fn new(workers: u32, grain: u32) -> Option<Plan>
        ensures range { IsSome result
            ↔ ((1 ≤ workers) × (workers ≤ 64) × (1 ≤ grain) × (grain ≤ 1000000)) }
        ensures plan { IfSome result (λ p. (workers_of p ≡ workers) × (grain_of p ≡ grain)) }
    {
        if workers < 1 || 64 < workers || grain < 1 || 1_000_000 < grain {
            return None;
        }
        Some(Plan { workers, grain })
    }

    /// How many workers there are.
    pub fn workers(&self) -> u32
        ensures value { result ≡ workers_of self.now }
        ensures range { (1 ≤ result) × (result ≤ 64) }
    {
        self.workers
    }

    /// How many frames one grain has.
    pub fn grain(&self) -> u32
        ensures value { result ≡ grain_of self.now }
        ensures range { (1 ≤ result) × (result ≤ 1000000) }
    {
        self.grain
    }
}
