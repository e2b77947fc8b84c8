// How records are written.
ghost use Rattle.std.specs.Prelude.{◌≡◌, ◌+◌, ◌*◌, ◌<◌, ◌≤◌, true, length, MatchResult};
ghost use Rattle.std.proofs.Math.Utf8.{encodes, scalars};
ghost use Rattle.glass.specs.Calls.{GlassCall};
ghost use Rattle.glass.specs.Row.{widest};
ghost use Rattle.recorder.specs.Log.{RecordOf, pen_code, record_of, written_at};
ghost use Rattle.recorder.specs.Recorded.{Grown, spare_of};

use super::Recorder;
use glass::PenChange;
use text::refusal::Refusal;

// How many bytes pay one unit of a cost: no record takes more for each unit of its own.
const UNIT: usize = 8;

// Said here and not as a `From` of the pen's: the codes are the record's, and a `From` could only stand beside the pen.
pub(super) fn pen_code(change: PenChange) -> u8
    ensures { result ≡ pen_code change }
{
    match change {
        PenChange::Plain => 0,
        PenChange::Prompt => 1,
        PenChange::ReverseOn => 2,
        PenChange::ReverseOff => 3,
    }
}

// Writes a text in UTF-8 at a place, and gives the place after it.
fn write_text(bytes: &mut [u8], at: usize, characters: &[u32]) -> usize
    requires room { at + length (encodes characters.now) ≤ length bytes.old }
    requires scalar { scalars characters.now ≡ true }
    ensures end { result ≡ at + length (encodes characters.now) }
    ensures written { bytes.new ≡ written_at at (encodes characters.now) bytes.old }
{
    let mut end = at;
    for c in characters {
        let Some(ch) = char::from_u32(*c) else {
            unreachable!()
        };
        let mut room = [0; 4];
        let part = ch.encode_utf8(&mut room).as_bytes();
        bytes[end..end + part.len()].copy_from_slice(part);
        end += part.len();
    }
    end
}

impl<F> Recorder<'_, F> {
    // What its free bytes can pay.
    pub(super) fn spare(&self) -> usize
        ensures value { result ≡ spare_of self.now }
    {
        (self.limit - self.used) / UNIT
    }

    // Whether it can pay a cost.
    pub(super) fn can_pay(&self, cost: usize) -> Result<(), Refusal>
        ensures refused_exactly { MatchResult result (λ _. cost ≤ spare_of self.now) (λ e. (spare_of self.now < cost) × (e ≡ Refusal.LowSpare)) }
    {
        if self.spare() < cost {
            return Err(Refusal::LowSpare);
        }
        Ok(())
    }

    // Writes the record of a call after the log; the row then has the width `width`.
    pub(super) fn enter(&mut self, part: &[u8], width: usize)
        requires call { RecordOf self.old.line self.old.width width part.now }
        requires room { (0 < self.old.used) × (self.old.used + length part.now ≤ self.old.limit) }
        requires within { width ≤ widest }
        ensures grown { Grown part.now self.old self.new }
    {
        let end = self.used + part.len();
        self.bytes[self.used..end].copy_from_slice(part);
        self.used = end;
        self.width = width;
    }

    // Writes the record of a text after the log.
    pub(super) fn enter_text(&mut self, characters: &[u32])
        requires room { (0 < self.old.used) × (self.old.used + 3 + 4 * length characters.now ≤ self.old.limit) }
        requires scalar { scalars characters.now ≡ true }
        ensures grown { Grown (record_of self.old.line (GlassCall.text characters.now)) self.old self.new }
    {
        let at = self.used;
        let end = write_text(self.bytes, at + 3, characters);
        let [high, low] = ((end - at - 2) as u16).to_be_bytes();
        self.bytes[at..at + 3].copy_from_slice(&[high, low, 3]);
        self.used = end;
    }
}
