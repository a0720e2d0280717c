//! What every state keeps.

ghost use Rattle.rq_model.specs.WellFormed.{IsWellFormed};

use crate::state::State;

impl State {
    /// Every state is well formed.
    pub fn is_well_formed(&self)
        ensures { IsWellFormed self.now }
    {
        self.next();
    }
}
