//! One seat's deque, under its rule.

ghost use Rattle.std.specs.Prelude.{◌≡◌, ℕ, ◌≤◌, ◌<◌, ◌+◌, ◌^◌, [], ◌∷◌, ◌++◌, length, IfOk};
ghost use Rattle.std.specs.Prelude.{IfSome, IfNone, sum_by, MatchOption, vec_len, vec_capacity};
ghost use Rattle.crossbeam_deque.specs.Handles.{view, IsPassOf, worker_deque, worker_flavor};
ghost use Rattle.crossbeam_deque.specs.Handles.{worker_view, stealer_deque, stealer_flavor};
ghost use Rattle.rq_pool.specs.Passes.{share};
ghost use Rattle.rq_pool.specs.Rules.{Taken};

use crossbeam_deque::protocol::{Join, Lesson, Outcome, Protocol, Split};
use crossbeam_deque::{Pass, Stealer, Worker};
use std::alloc::{AllocError, Global};
use std::collections::LinkedList;

/// A pass's parts of the right to know the whole, what was dealt, and what it took. No value of
/// this type is made.
pub(crate) struct Share {
    pub(crate) parts: u64,
    pub(crate) dealt: LinkedList<u32>,
    pub(crate) taken: LinkedList<u32>,
}

pub(crate) struct DealRule;

impl Protocol<u32, Share> for DealRule {
    ghost use Rattle.rq_pool.specs.Rules.{Balanced};

    ghost holds = { Balanced };

    ghost first = { share 256 [] [] };

    ghost guest = { share 0 [] [] };
}

pub(crate) struct Puts;

impl Outcome<u32, Share> for Puts {
    ghost use Rattle.rq_pool.specs.Rules.{Pushed};

    ghost then = { Pushed };
}

pub(crate) struct Gets;

impl Outcome<u32, Share> for Gets {
    ghost use Rattle.rq_pool.specs.Rules.{Taken, Emptied};

    ghost then = { Taken };

    ghost empty = { Emptied };
}

pub(crate) struct Steals;

impl Outcome<u32, Share> for Steals {
    ghost use Rattle.rq_pool.specs.Rules.{Taken};

    ghost then = { Taken };
}

pub(crate) struct Parts;

impl Split<Share> for Parts {
    ghost use Rattle.std.specs.Prelude.{◌-◌};

    ghost left = { λ v. share (v.parts - 1) v.dealt v.taken };

    ghost right = { λ v. share 1 v.dealt [] };
}

impl Join<Share> for Parts {
    ghost both = { λ v w. share (v.parts + w.parts) v.dealt (v.taken ++ w.taken) };

    ghost spent = { share 0 [] [] };
}

// All of a view goes to the new pass.
pub(crate) struct Whole;

impl Split<Share> for Whole {
    ghost left = { λ v. share 0 [] [] };

    ghost right = { λ v. v };
}

pub(crate) struct Over;

impl Lesson<u32, Share> for Over {
    ghost fact = { λ v items. v.parts ≤ 256 };
}

pub(crate) type Owner = Worker<u32, Global, Share, DealRule>;

pub(crate) type Thief = Stealer<u32, Global, Share, DealRule>;

pub(crate) type DequePass = Pass<u32, Share>;

/// A deque that holds the list. It has room for it from the start.
#[tactic(auto, using(crate::proofs::Rules::puts))]
pub(crate) fn dealt(alloc: Global, list: &[u32]) -> Result<Owner, AllocError>
    requires { length list.now < 2 ^ 32 }
    ensures { IfOk result (λ w. (worker_flavor w ≡ 0) × (worker_view w ≡ share 256 list.now [])) }
{
    let mut owner = Owner::fifo_as(alloc, list.len())?;
    for &x in list {
        match owner.push_as::<Puts>(x) {
            Ok(()) => {}
            Err(_) => unreachable!(),
        }
    }
    Ok(owner)
}

/// A pass with one part.
#[tactic(auto, using(crate::proofs::Rules::cuts))]
pub(crate) fn cut(owner: &mut Owner) -> DequePass
    requires { 1 < (worker_view owner.old).parts }
    ensures same { (worker_deque owner.new ≡ worker_deque owner.old)
        × (worker_flavor owner.new ≡ worker_flavor owner.old) }
    ensures view { ((worker_view owner.new).parts + 1 ≡ (worker_view owner.old).parts)
        × ((worker_view owner.new).dealt ≡ (worker_view owner.old).dealt)
        × ((worker_view owner.new).taken ≡ (worker_view owner.old).taken) }
    ensures one { IsPassOf (worker_deque owner.new) result
        × (view result ≡ share 1 (worker_view owner.old).dealt []) }
{
    owner.another::<Parts>()
}

/// The owner's pop.
pub(crate) fn pop(owner: &mut Owner) -> Option<u32>
    requires { (worker_flavor owner.old ≡ 0) × (0 < (worker_view owner.old).parts) }
    ensures same { (worker_deque owner.new ≡ worker_deque owner.old)
        × (worker_flavor owner.new ≡ 0) }
    ensures taken { IfSome result
        (λ x. Taken (worker_view owner.old) (x ∷ []) (worker_view owner.new)) }
    ensures none { IfNone result (worker_view owner.new ≡ worker_view owner.old) }
    ensures emptied { IfNone result ((worker_view owner.old).parts ≡ 256 → (h : ℕ → ℕ) →
        sum_by h (worker_view owner.old).taken ≡ sum_by h (worker_view owner.old).dealt) }
{
    owner.pop_as::<Gets>()
}

/// Takes in a pass with all that it took.
#[tactic(auto, using(crate::proofs::Rules::glues))]
pub(crate) fn gather(owner: &mut Owner, pass: DequePass)
    requires { IsPassOf (worker_deque owner.old) pass × (0 < (worker_view owner.old).parts) }
    ensures same { (worker_deque owner.new ≡ worker_deque owner.old)
        × (worker_flavor owner.new ≡ worker_flavor owner.old) }
    ensures view { worker_view owner.new ≡ share ((worker_view owner.old).parts + (view pass).parts)
        (worker_view owner.old).dealt ((worker_view owner.old).taken ++ (view pass).taken) }
{
    owner.absorb::<Parts>(pass);
}

/// Two owners of one deque have no more than all parts together. So two whose parts are more cannot
/// exist.
#[tactic(auto, using(crate::proofs::Rules::wholes, crate::proofs::Rules::glues))]
pub(crate) fn together(one: &mut Owner, mut two: Owner)
    requires { (worker_deque two ≡ worker_deque one.old) × (0 < (worker_view one.old).parts) }
    ensures { (worker_view one.old).parts + (worker_view two).parts ≤ 256 }
{
    let pass = two.another::<Whole>();
    one.absorb::<Parts>(pass);
    one.len_as::<Over>();
}
