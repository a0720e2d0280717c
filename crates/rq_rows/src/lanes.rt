//! Messages that have their digests behind them, in two lanes.

use rq_lanes::{Lanes, Message};
use sha2::{Digest, Sha256};
use std::alloc::AllocError;

/// Appends a text and its digest, and answers where the text lies.
pub fn put_message(out: &mut Vec<u8>, text: &[u8]) -> Result<Message, AllocError> {
    let message = Message {
        start: out.len(),
        len: text.len(),
    };
    out.extend_from_slice(text)?;
    out.extend_from_slice(&Sha256::digest(text))?;
    Ok(message)
}

/// Whether two lanes find the digest of each message right.
pub fn are_right(bytes: &[u8], messages: &[Message]) -> bool {
    let mut lanes: Lanes<2> = Lanes::new();
    for message in messages {
        lanes.take(bytes, *message);
    }
    lanes.finish(bytes)
}
