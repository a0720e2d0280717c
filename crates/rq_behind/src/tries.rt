//! What is tried where a frame is not right.

ghost use Rattle.std.specs.Prelude.{◌≡◌, ◌≤◌, ◌+◌, IfOk, length};
ghost use Rattle.rq_behind.specs.Mending.{IsTried};

use crate::byte_search::{Others, sought_byte};
use crate::efforts::{Effort, Untried};
use crate::mending::Mending;
use crate::places::{SearchEnd, next_place};
use crate::runs::{judge, length_at};
use crate::scan::{Scan, seen_at};
use byteorder::{BigEndian, ByteOrder};
use rq_front::FRAME_LEN;
use rq_record::Version;
use sha2::{Digest, Sha256};
use std::alloc::AllocError;
use std::marker::Sync;
use std::thread::Threads;

// The bytes of a block of the hash function (FIPS 180-4, 5.2.1).
const BLOCK: usize = 64;

// How long a body is, at most, for which another length is tried that is not led to.
const LENGTH_LIMIT: usize = 131_072;

// What these tries cost, in blocks of the hash function, at most.
const LENGTHS_COST: usize = 1_100_000;

// How long a body is, at most, of which each byte is tried by all others: some seconds on four
// processors.
const BYTES_LIMIT: usize = 8_192;

// And of which each byte is tried by those of which one bit is another.
const BITS_LIMIT: usize = 32_768;

// To go along the lengths of so many bytes of frames costs no more than a block of the hash function.
const WALKED: usize = 512;

// How many blocks of the hash function so many tries in the place of each byte of a body take, at most.
fn cost_of(len: usize, tries: usize) -> usize {
    let blocks = (FRAME_LEN + 32).saturating_add(len) / BLOCK + 1;
    blocks.saturating_mul(tries).saturating_mul(len)
}

impl Mending {
    // The digest of the frame at the place anew, if that of the frame behind it is taken over it.
    fn try_digest(&mut self) -> Result<bool, AllocError>
        requires after { 32 ≤ self.old.at }
        requires within { self.old.at ≤ length self.old.bytes.items }
        ensures { IfOk result (IsTried self.old self.new) }
    {
        let Some(len) = length_at(&self.bytes, self.at) else {
            return Ok(false);
        };
        let end = self.at + 4 + len;
        let digest = Sha256::digest(&self.bytes[self.at - 32..end]);
        self.try_put(end + 32, end, &digest)
    }

    // The length with which the frame at the place ends at an offset.
    fn try_length(&mut self, end: usize) -> Result<bool, AllocError>
        requires after { 32 ≤ self.old.at }
        requires within { self.old.at ≤ length self.old.bytes.items }
        requires end { end ≤ length self.old.bytes.items }
        ensures { IfOk result (IsTried self.old self.new) }
    {
        if end < self.at + FRAME_LEN {
            return Ok(false);
        }
        let Ok(len) = u32::try_from(end - self.at - FRAME_LEN) else {
            return Ok(false);
        };
        self.try_put(self.at, self.at, &len.to_be_bytes())
    }

    // The length with which the frame at the place ends where the next right frame is found.
    fn try_found_length(
        &mut self,
        version: Version,
        effort: &mut Effort,
    ) -> Result<bool, AllocError>
        requires after { 32 ≤ self.old.at }
        requires within { self.old.at ≤ length self.old.bytes.items }
        ensures { IfOk result (IsTried self.old self.new) }
    {
        match next_place(version, &self.bytes, self.at, &mut effort.search) {
            SearchEnd::At(place) => self.try_length(place),
            SearchEnd::Nowhere(_) => Ok(false),
        }
    }

    // The length with which the frame at the place ends at an offset, if a right record stands there.
    fn try_record_length(
        &mut self,
        version: Version,
        end: usize,
        effort: &mut Effort,
    ) -> Result<bool, AllocError>
        requires after { 32 ≤ self.old.at }
        requires within { self.old.at ≤ length self.old.bytes.items }
        requires behind { self.old.at ≤ end }
        requires end { end ≤ length self.old.bytes.items }
        ensures { IfOk result (IsTried self.old self.new) }
    {
        let Some(Scan::At(_)) = seen_at(version, &self.bytes, end, &mut effort.search) else {
            return Ok(false);
        };
        if !effort.take_length((end - self.at) / BLOCK + 1) {
            return Ok(false);
        }
        self.try_length(end)
    }

    // The lengths with which it ends where a right record stands, one after the other, or where all bytes
    // end: a body may hold what looks like records.
    fn try_record_lengths(
        &mut self,
        version: Version,
        effort: &mut Effort,
    ) -> Result<bool, AllocError>
        requires after { 32 ≤ self.old.at }
        requires within { self.old.at ≤ length self.old.bytes.items }
        ensures { IfOk result (IsTried self.old self.new) }
    {
        'places: for end in self.at..self.bytes.len() {
            if self.try_record_length(version, end, effort)? {
                return Ok(true);
            }
            if effort.lengths == 0 {
                return Ok(false);
            }
        }
        let end = self.bytes.len();
        self.try_length(end)
    }

    // This length of the frame at the place, if it is not too long to be tried.
    fn try_stated(&mut self, stated: &[u8; 4]) -> Result<bool, AllocError>
        requires after { 32 ≤ self.old.at }
        requires within { self.old.at + 4 ≤ length self.old.bytes.items }
        ensures { IfOk result (IsTried self.old self.new) }
    {
        if BigEndian::read_u32(stated) as usize > LENGTH_LIMIT {
            return Ok(false);
        }
        self.try_put(self.at, self.at, stated)
    }

    // The length of the frame at the place with another byte.
    fn try_lengths(&mut self, effort: &mut Effort) -> Result<bool, AllocError>
        requires after { 32 ≤ self.old.at }
        requires within { self.old.at + 4 ≤ length self.old.bytes.items }
        ensures { IfOk result (IsTried self.old self.new) }
    {
        if !effort.take(LENGTHS_COST) {
            return Ok(false);
        }
        let mut stated = [0u8; 4];
        stated.copy_from_slice(&self.bytes[self.at..self.at + 4]);
        'others: for index in 0..1024usize {
            let mut other = stated;
            other[index / 256] = (index % 256) as u8;
            if self.try_stated(&other)? {
                return Ok(true);
            }
        }
        Ok(false)
    }

    // Whether a right frame stands behind the one at the place: then its length and its digest are
    // right.
    fn is_followed(&self) -> bool
        requires after { 32 ≤ self.now.at }
        requires within { self.now.at ≤ length self.now.bytes.items }
    {
        match length_at(&self.bytes, self.at) {
            Some(len) => judge(&self.bytes, self.at + FRAME_LEN + len).is_right,
            None => false,
        }
    }

    // Its digest or its length.
    fn try_ends(&mut self, version: Version, effort: &mut Effort) -> Result<bool, AllocError>
        requires after { 32 ≤ self.old.at }
        requires within { self.old.at + 4 ≤ length self.old.bytes.items }
        ensures { IfOk result (IsTried self.old self.new) }
    {
        if self.is_followed() {
            return Ok(false);
        }
        if self.try_digest()? {
            return Ok(true);
        }
        if self.try_found_length(version, effort)? {
            return Ok(true);
        }
        if self.try_record_lengths(version, effort)? {
            return Ok(true);
        }
        self.try_lengths(effort)
    }

    // A byte of its body, of which so many others are tried.
    fn try_byte<R: Threads + Sync>(
        &mut self,
        rt: &R,
        len: usize,
        others: Others,
        least: usize,
    ) -> Result<bool, AllocError>
        requires after { 32 ≤ self.old.at }
        requires within { self.old.at + (36 + len) ≤ length self.old.bytes.items }
        ensures { IfOk result (IsTried self.old self.new) }
    {
        match sought_byte(rt, &self.bytes, self.at, len, others, least) {
            Some(found) => self.try_put(self.at, found.offset, &[found.now]),
            None => Ok(false),
        }
    }

    // A byte of its body, if that is not too long: bits first.
    fn try_bytes<R: Threads + Sync>(
        &mut self,
        rt: &R,
        effort: &mut Effort,
    ) -> Result<bool, AllocError>
        requires after { 32 ≤ self.old.at }
        requires within { self.old.at ≤ length self.old.bytes.items }
        ensures { IfOk result (IsTried self.old self.new) }
    {
        let Some(len) = length_at(&self.bytes, self.at) else {
            return Ok(false);
        };
        if len > BITS_LIMIT {
            effort.untried = Some(Untried::Long);
            return Ok(false);
        }
        if !effort.take(cost_of(len, 8)) {
            return Ok(false);
        }
        if self.try_byte(rt, len, Others::Bits, effort.least)? {
            return Ok(true);
        }
        if len > BYTES_LIMIT {
            effort.untried = Some(Untried::Long);
            return Ok(false);
        }
        if !effort.take(cost_of(len, 255)) {
            return Ok(false);
        }
        self.try_byte(rt, len, Others::All, effort.least)
    }

    /// Tries what may be wrong with the frame at the place, and pays for the way to it from the front.
    /// Answers whether it put something back.
    pub(crate) fn mend_place<R: Threads + Sync>(
        &mut self,
        rt: &R,
        version: Version,
        effort: &mut Effort,
    ) -> Result<bool, AllocError>
        requires after { 32 ≤ self.old.at }
        requires within { self.old.at ≤ length self.old.bytes.items }
        ensures { IfOk result (IsTried self.old self.new) }
    {
        effort.untried = None;
        let left = self.bytes.len() - self.at;
        if left < FRAME_LEN || !effort.take(left / WALKED) {
            return Ok(false);
        }
        if self.try_ends(version, effort)? {
            return Ok(true);
        }
        self.try_bytes(rt, effort)
    }
}
