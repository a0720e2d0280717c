//! The functions of FIPS 180-4, 4.1.2, of the words of all lanes at once.

ghost use Rattle.std.specs.Prelude.{◌≡◌, ℕ, ◌<◌, ◌/◌, ◌^◌, bit_and, bit_xor, slice_index};
ghost use Rattle.std.specs.Int.{w32, rotate_right};
ghost use Rattle.sha2.specs.Sha256 as standard;

use std::simd::Simd;

#[inline(always)]
pub(crate) fn rotate<const N: usize>(x: Simd<u32, N>, count: u32) -> Simd<u32, N>
    requires { (0 < count) × (count < 32) }
    ensures { (j : ℕ) → j < N
        → slice_index result j ≡ rotate_right w32 (slice_index x.entry j) count }
{
    (x >> Simd::splat(count)) | (x << Simd::splat(32 - count))
}

#[inline(always)]
pub(crate) fn shift<const N: usize>(x: Simd<u32, N>, count: u32) -> Simd<u32, N>
    requires { count < 32 }
    ensures { (j : ℕ) → j < N → slice_index result j ≡ slice_index x.entry j / 2 ^ count }
{
    x >> Simd::splat(count)
}

#[inline(always)]
pub(crate) fn add<const N: usize>(x: Simd<u32, N>, y: Simd<u32, N>) -> Simd<u32, N>
    ensures { (j : ℕ) → j < N
        → slice_index result j ≡ standard.add32 (slice_index x.entry j) (slice_index y.entry j) }
{
    x + y
}

#[inline(always)]
pub(crate) fn splat<const N: usize>(word: u32) -> Simd<u32, N>
    ensures { (j : ℕ) → j < N → slice_index result j ≡ word }
{
    Simd::splat(word)
}

#[inline(always)]
fn xor<const N: usize>(x: Simd<u32, N>, y: Simd<u32, N>) -> Simd<u32, N>
    ensures { (j : ℕ) → j < N
        → slice_index result j ≡ bit_xor (slice_index x.entry j) (slice_index y.entry j) }
{
    x ^ y
}

#[inline(always)]
fn and<const N: usize>(x: Simd<u32, N>, y: Simd<u32, N>) -> Simd<u32, N>
    ensures { (j : ℕ) → j < N
        → slice_index result j ≡ bit_and (slice_index x.entry j) (slice_index y.entry j) }
{
    x & y
}

#[inline(always)]
pub(crate) fn xor_three<const N: usize>(
    x: Simd<u32, N>,
    y: Simd<u32, N>,
    z: Simd<u32, N>,
) -> Simd<u32, N>
    ensures { (j : ℕ) → j < N
        → slice_index result j ≡ bit_xor (bit_xor (slice_index x.entry j) (slice_index y.entry j))
        (slice_index z.entry j) }
{
    xor(xor(x, y), z)
}

// One operation fewer than the standard's form.
#[inline(always)]
pub(crate) fn ch<const N: usize>(x: Simd<u32, N>, y: Simd<u32, N>, z: Simd<u32, N>) -> Simd<u32, N>
    ensures { (j : ℕ) → j < N → slice_index result j
        ≡ standard.ch (slice_index x.entry j) (slice_index y.entry j) (slice_index z.entry j) }
{
    xor(z, and(x, xor(y, z)))
}

// One operation fewer than the standard's form.
#[inline(always)]
pub(crate) fn maj<const N: usize>(x: Simd<u32, N>, y: Simd<u32, N>, z: Simd<u32, N>) -> Simd<u32, N>
    ensures { (j : ℕ) → j < N → slice_index result j
        ≡ standard.maj (slice_index x.entry j) (slice_index y.entry j) (slice_index z.entry j) }
{
    xor(y, and(xor(x, y), xor(y, z)))
}
