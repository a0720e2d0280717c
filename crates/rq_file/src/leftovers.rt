//! Whether a crash left a file that was being written, or somebody else put it there.

ghost use Rattle.std.specs.Prelude.{◌≡◌, take};
ghost use Rattle.rq_file.specs.Leftovers as spec;

/// So many bytes of a log that another one goes on in tell the length of its first frame: the header,
/// the link, and that length. They are on the disk before any other of it.
pub(crate) const BEGUN: usize = 76;

// How many bytes of it are the header, which is the same in each.
const HEADER: usize = 40;

// So many bytes a file has besides the body of its first frame, if that is its only one.
const BESIDES: u64 = 108;

// Whether a file of so many bytes that begins so has at most one frame: that has a body, or is none yet.
fn has_one_frame(begins: &[u8], len: u64) -> bool
    ensures { result ≡ spec.has_one_frame begins.now len }
{
    let Some(length) = begins.get(72..76) else {
        return true;
    };
    let body = u32::from_be_bytes([length[0], length[1], length[2], length[3]]) as u64;
    body == 0 || len <= BESIDES + body
}

// Whether no byte is another than zero.
fn is_blank(begins: &[u8]) -> bool
    ensures { result ≡ spec.is_blank begins.now }
{
    begins.iter().all(|byte| *byte == 0)
}

// The bytes of the header, as far as they are there.
fn header_in(begins: &[u8]) -> &[u8]
    ensures { result.now ≡ take 40 begins.now }
{
    if begins.len() <= HEADER {
        return begins;
    }
    begins.split_at(HEADER).0
}

/// Whether a crash can have left a file of so many bytes, which begins so, of a new log that begins
/// with those bytes: nothing of it but zeros, or a beginning of its header, with at most one frame
/// behind it. `begins` are the first 76 bytes, or all if there are fewer.
pub(crate) fn is_left(begins: &[u8], len: u64, first: &[u8]) -> bool
    ensures { result ≡ spec.is_left begins.now len first.now }
{
    if len <= BEGUN as u64 && is_blank(begins) {
        return true;
    }
    has_one_frame(begins, len) && first.starts_with(header_in(begins))
}
