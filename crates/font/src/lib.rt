// Fonts: how many columns a character takes on a row.
#![tactic(auto)]

ghost use Rattle.std.specs.Prelude.{◌≡◌, ℕ, ◌<◌, ◌≤◌};
ghost use Rattle.font.specs.declared.Columns.{Columns};
ghost use Rattle.font.specs.declared.Columns.TheVariants.{NoWidth, One};

pub mod counter;
pub mod foyer;
mod hex;
pub mod label;
pub mod measure;

/// The columns of a character: none because it has no width, or 0, 1 or 2.
#[derive(Clone, Copy, PartialEq, Eq, Debug)]
pub enum Columns {
    NoWidth,
    Zero,
    One,
    Two,
}

/// A font: a fixed function from scalar values to columns. A font is a type, and measuring takes no value of it.
pub trait Font {
    ghost columns: { ℕ → Columns };

    /// The columns that the font gives to `code`.
    fn columns_of(code: u32) -> Columns
        ensures value { result ≡ columns code };

    ghost ascii_has_one_column: { (c : ℕ) → 0x20 ≤ c → c ≤ 0x7E → columns c ≡ One };

    ghost low_controls_have_no_width: { (c : ℕ) → c < 0x20 → columns c ≡ NoWidth };

    ghost high_controls_have_no_width: { (c : ℕ) → 0x7F ≤ c → c ≤ 0x9F → columns c ≡ NoWidth };
}
