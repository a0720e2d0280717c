//! The padding of a message (FIPS 180-4, 5.1.1): how many blocks it makes, and the last of them.

ghost use Rattle.std.specs.Prelude.{◌≡◌, ℕ, List, ◌+◌, ◌-◌, ◌*◌, ◌%◌, ◌<◌, ◌++◌, ◌∷◌, length};
ghost use Rattle.std.specs.Prelude.{replicate, take};
ghost use Rattle.sha2.specs.Sha256.{padded_message, padding};

// The padding's first bytes: a bit 1, then zeros.
const PADDING: [u8; 64] = [
    0x80, 0, 0, 0, 0, 0, 0, 0, 0, 0, 0, 0, 0, 0, 0, 0, 0, 0, 0, 0, 0, 0, 0, 0, 0, 0, 0, 0, 0, 0, 0,
    0, 0, 0, 0, 0, 0, 0, 0, 0, 0, 0, 0, 0, 0, 0, 0, 0, 0, 0, 0, 0, 0, 0, 0, 0, 0, 0, 0, 0, 0, 0, 0,
    0,
];

/// How many blocks a padded message of `len` bytes has.
pub(crate) fn blocks_of(len: usize) -> usize
    ensures { (m : List ℕ) → length m ≡ len → result * 64 ≡ length (padded_message m) }
{
    let more = if len % 64 < 56 { 1 } else { 2 };
    len / 64 + more
}

// The padding's bytes before the length field.
fn front(zeros: usize) -> &'static [u8]
    requires { zeros < 64 }
    ensures { result.now ≡ 0x80 ∷ replicate zeros 0 }
{
    &PADDING[..zeros + 1]
}

/// Puts the last block or two of a message of `len` bytes at the front of this room; `rest` are the
/// bytes after its last whole block. What stands behind them stays.
pub(crate) fn put_last_blocks(room: &mut [u8; 128], rest: &[u8], len: u64)
    requires { length rest.now ≡ len % 64 }
    ensures { take (len % 64 + (119 - len % 64) % 64 + 9) room.new ≡ rest.now ++ padding len }
{
    let used = rest.len();
    let zeros = (119 - used) % 64;
    let end = used + (zeros + 1);
    room[..used].copy_from_slice(rest);
    room[used..end].copy_from_slice(front(zeros));
    room[end..end + 8].copy_from_slice(&len.wrapping_mul(8).to_be_bytes());
}
