//! What may be handed in at a source.

ghost use Rattle.std.specs.Prelude.{ℕ};

/// What a source hands in. Whether it fits a key at a source is only for contracts: whoever arrives
/// owes it, and whoever is last is told it of all that it is given.
pub trait Fits: Drop {
    type Key: Drop;

    ghost fits: { Self.Key → ℕ → Self → Type 0 };
}
