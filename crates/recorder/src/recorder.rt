// The recorder itself.
ghost use Rattle.std.specs.Prelude.{◌≡◌, ◌<◌, ◌≤◌, length, take};
ghost use Rattle.glass.specs.Row.{widest};
ghost use Rattle.recorder.specs.Log.{Written, log_width, most_bytes};

use std::marker::PhantomData;

pub mod calls;
pub mod making;
pub mod writing;

/// The most bytes that a recorder uses.
pub const MOST_BYTES: usize = 65536;

// No model: its contracts name the lent buffer itself, which its maker reads afterwards.

/// A glass that is a log: a version byte, then a record for each call. The log stands in the first `used` bytes of the
/// lent buffer, and no more than `limit` are ever used. One that was made in spite of a refusal has a limit of 0.
/// Its bytes are exactly what the calls that they read as are written as, and its width is the one that they make.
#[derive(Drop)]
pub struct Recorder<'a, F> {
    // The lent buffer is all the memory that a recorder has, so its length in use stands beside it.
    bytes: &'a mut [u8],
    used: usize,
    limit: usize,
    line: u16,
    width: usize,
    font: PhantomData<F>,
    ghost within: { (used ≤ limit) × (limit ≤ most_bytes) × (limit ≤ length bytes.now) },
    ghost begun: { 0 < limit → 0 < used },
    ghost reads: { Written line (take used bytes.now) },
    ghost shape: { (log_width (take used bytes.now) ≡ width) × (width ≤ widest) },
}
