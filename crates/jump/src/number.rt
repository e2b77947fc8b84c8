// Reads a signed decimal number, as Rust's parse of an `isize` does: the first fault from the left decides.
ghost use Rattle.std.specs.Prelude.{◌≡◌, ◌+◌, ◌-◌, ◌*◌, ◌^◌, ◌<◌, ◌≤◌, IfOk, if◌then◌else◌, Some, None, Ok, Err, nat_le};
ghost use Rattle.jump.specs.Numeral.{limit as largest, passed as past_limit, one_more, digits_read, after_sign_read, number_read};

use text::refusal::Refusal;

const PLUS: u32 = '+' as u32;

const MINUS: u32 = '-' as u32;

#[derive(Clone, Copy, PartialEq, Eq, Debug)]
pub enum Sign {
    Plus,
    Minus,
}

impl Sign {
    /// The largest number that may follow the sign.
    fn limit(self) -> u64
        ensures value { result ≡ largest self }
    {
        match self {
            Sign::Plus => 0x7FFF_FFFF_FFFF_FFFF,
            Sign::Minus => 0x8000_0000_0000_0000,
        }
    }

    /// The refusal of a number that passes the limit.
    fn passed(self) -> Refusal
        ensures value { result ≡ past_limit self }
    {
        match self {
            Sign::Plus => Refusal::PosOverflow,
            Sign::Minus => Refusal::NegOverflow,
        }
    }
}

/// `value` with one digit more, unless it passes the limit.
fn appended(value: u64, digit: u64, limit: u64) -> Option<u64>
    ensures value { result ≡ (if nat_le (10 * value + digit) limit then Some (10 * value + digit) else None) }
{
    value
        .checked_mul(10)?
        .checked_add(digit)
        .filter(|next| *next <= limit)
}

/// The number that the digits so far write, with the character after them. A character that is no digit is refused as such, even
/// where the number would pass the limit.
fn read_on(sign: Sign, so_far: u64, c: u32) -> Result<u64, Refusal>
    ensures value { result ≡ one_more sign so_far c }
{
    match c {
        0x30..=0x39 => appended(so_far, u64::from(c - 0x30), sign.limit()).ok_or(sign.passed()),
        _ => Err(Refusal::InvalidDigit),
    }
}

/// The number that digits after a sign write.
fn magnitude(sign: Sign, digits: &[u32]) -> Result<u64, Refusal>
    ensures value { result ≡ digits_read sign digits.now }
    ensures bound { IfOk result (λ n. n ≤ largest sign) }
{
    let mut value = 0;
    for c in digits {
        value = read_on(sign, value, *c)?;
    }
    Ok(value)
}

/// The number that digits after a sign stand for. There is at least one digit.
fn signed(sign: Sign, digits: &[u32]) -> Result<i64, Refusal>
    ensures value { result ≡ after_sign_read sign digits.now }
{
    if digits.is_empty() {
        return Err(Refusal::InvalidDigit);
    }
    let value = magnitude(sign, digits)?;
    match sign {
        Sign::Plus => Ok(value as i64),
        Sign::Minus => Ok(-i128::from(value) as i64),
    }
}

/// The number that a text stands for.
pub fn number(text: &[u32]) -> Result<i64, Refusal>
    ensures value { result ≡ number_read text.now }
{
    match text {
        [] => Err(Refusal::EmptyNumber),
        [PLUS, digits @ ..] => signed(Sign::Plus, digits),
        [MINUS, digits @ ..] => signed(Sign::Minus, digits),
        digits => signed(Sign::Plus, digits),
    }
}
