// How a recorder is made, read and ended.
ghost use Rattle.std.specs.Prelude.{◌≡◌, length, take, drop};
ghost use Rattle.glass.specs.Row.{blank_row};
ghost use Rattle.recorder.specs.Log.{Written, making_refused, answer, opening, room_for, first_width, CallsAreReadBack};
ghost use Rattle.recorder.specs.Recorded.{log, shown_by};

use super::{MOST_BYTES, Recorder};
use font::Font;
use glass::WIDEST;
use std::marker::PhantomData;
use text::refusal::Refusal;

/// How many bytes a new recorder writes: its version and the record of its width.
pub const OPENING: usize = 6;

/// Whether a recorder of a width can be made in a buffer of so many bytes: asked first, since making one is not refused.
pub fn can_record(width: usize, room: usize) -> Result<(), Refusal>
    ensures value { result ≡ answer (making_refused width room) }
{
    if !(1..=WIDEST).contains(&width) {
        return Err(Refusal::OutsideGlass);
    }
    if room < OPENING {
        return Err(Refusal::BufferTooShort);
    }
    Ok(())
}

impl<'a, F: Font> Recorder<'a, F> {
    /// A recorder of line `line` of a screen, in a lent buffer. One that `can_record` refuses takes none of the buffer,
    /// shows a blank row of width 1 and has nothing to spare.
    pub fn new(line: u16, width: usize, bytes: &'a mut [u8]) -> Recorder<'a, F>
        ensures opens { log result ≡ opening (making_refused width (length bytes.old)) line width }
        ensures rest_kept { drop result.used result.bytes.now ≡ drop result.used bytes.old }
        ensures limit { result.limit ≡ room_for (making_refused width (length bytes.old)) (length bytes.old) }
        ensures row { shown_by F.Font.columns result ≡ blank_row (first_width (making_refused width (length bytes.old)) width) }
        ensures tied { (result.bytes.ghost_name ≡ bytes.entry.ghost_name) × (result.line ≡ line) }
    {
        let (used, limit, width) = match can_record(width, bytes.len()) {
            Ok(()) => {
                let [high, low] = (width as u16).to_be_bytes();
                bytes[..OPENING].copy_from_slice(&[1, 0, 3, 5, high, low]);
                (OPENING, bytes.len().min(MOST_BYTES), width)
            }
            Err(_) => (0, 0, 1),
        };
        Recorder {
            bytes,
            used,
            limit,
            line,
            width,
            font: PhantomData,
        }
    }

    /// The bytes so far.
    pub fn bytes_so_far(&self) -> &[u8]
        ensures value { result.now ≡ log self.now }
    {
        &self.bytes[..self.used]
    }

    /// Ends the recorder, and says how many bytes of the buffer are its log.
    pub fn finish(self) -> usize
        ensures count { result ≡ self.entry.used }
        ensures buffer { self.exit.0.now ≡ self.entry.bytes.now }
        ensures written { Written self.entry.line (take result self.exit.0.now) }
    {
        self.used
    }
}

/// The calls that a row takes are read back from what they are written as, whatever the line.
pub fn calls_are_read_back()
    ensures law { CallsAreReadBack }
{}
