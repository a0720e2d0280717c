//! Where a room shared by threads keeps its decks: the one slot of a table that nobody steps on.

ghost use Rattle.std.specs.Prelude.{◌≡◌, IfOk};
ghost use Rattle.rq_pool.specs.Vaults.{Keeps, reach};

use crate::deck::Deck;
use crate::seat::Seat;
use atomic_table::{Table, TableRule};
use std::alloc::{AllocError, Global};

/// The seat that it is told of names the deques of all decks.
pub(crate) struct VaultRule;

impl TableRule<Vec<Deck>, (), Seat> for VaultRule {
    ghost use Rattle.rq_pool.specs.Vaults.{Kept};

    ghost holds = { Kept };

    ghost first = { λ seat. tt };
}

/// The decks of a room while their passes and owners are out.
#[derive(Drop)]
pub(crate) struct Vault {
    pub(crate) table: Table<Vec<Deck>, (), Seat, VaultRule, Global>,
    ghost one: { (table.shared.table_id.words ≡ 0) × (table.shared.table_id.slots ≡ 1) },
}

impl Vault {
    /// Locks the decks in.
    pub(crate) fn new(alloc: Global, decks: Vec<Deck>, seat: &Seat) -> Result<Vault, AllocError>
        requires { Keeps (reach seat.now) decks }
        ensures { IfOk result (λ v. v.table.shared.key ≡ seat.now) }
    {
        let mut slots = Vec::with_capacity(alloc, 1)?;
        slots.push_reserved(decks);
        match Table::new(alloc, &[], slots, seat) {
            Ok((table, _seat)) => Ok(Vault { table }),
            Err(_refused) => Err(AllocError),
        }
    }

    /// Takes them out.
    pub(crate) fn into_decks(self) -> Vec<Deck>
        ensures { Keeps (reach self.table.shared.key) result }
    {
        let Vault { table } = self;
        let mut closed = table.close();
        let decks = closed.take(0);
        closed.free();
        decks
    }
}
