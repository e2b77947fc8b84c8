// The calls of a recorder. Each writes one record, of at most 8 bytes for each unit of its cost.
ghost use Rattle.recorder.specs.Recorded.{shown_by, spare_of, tied_of};

use super::Recorder;
use super::writing::pen_code;
use font::Font;
use glass::{Glass, PenChange, WIDEST};
use text::refusal::Refusal;
use text::scalar::all_scalars;

// Its row is the one that its bytes make.
impl<F: Font> Glass for Recorder<'_, F> {
    type Font = F;

    ghost row = { λ s. shown_by F.Font.columns s };

    ghost spare = { λ s. spare_of s };

    ghost tied = { λ s. tied_of s };

    #[tactic(auto, using(crate::proofs::Steps::width_is, crate::proofs::Logs::log_showable))]
    fn width(&self) -> usize {
        self.width
    }

    fn spare_left(&self) -> usize {
        self.spare()
    }

    #[tactic(auto, using(crate::proofs::Steps::width_is))]
    fn place(&mut self, column: usize) -> Result<(), Refusal> {
        if column >= self.width {
            return Err(Refusal::OutsideGlass);
        }
        self.can_pay(1)?;
        let [line_high, line_low] = self.line.to_be_bytes();
        let [high, low] = (column as u16).to_be_bytes();
        let part = [0, 5, 1, line_high, line_low, high, low];
        self.enter(&part, self.width);
        Ok(())
    }

    fn pen(&mut self, change: PenChange) -> Result<(), Refusal> {
        self.can_pay(1)?;
        self.enter(&[0, 2, 2, pen_code(change)], self.width);
        Ok(())
    }

    fn text(&mut self, characters: &[u32]) -> Result<(), Refusal> {
        self.can_pay(characters.len() + 1)?;
        if !all_scalars(characters) {
            return Err(Refusal::NotScalar);
        }
        self.enter_text(characters);
        Ok(())
    }

    fn clear(&mut self) -> Result<(), Refusal> {
        self.can_pay(1)?;
        self.enter(&[0, 1, 4], self.width);
        Ok(())
    }

    fn reshape(&mut self, width: usize) -> Result<(), Refusal> {
        if !(1..=WIDEST).contains(&width) {
            return Err(Refusal::OutsideGlass);
        }
        self.can_pay(1)?;
        let [high, low] = (width as u16).to_be_bytes();
        self.enter(&[0, 3, 5, high, low], width);
        Ok(())
    }
}
