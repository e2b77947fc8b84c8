// Walks over a text: on or back past the characters that pass a test. Inlined, so that the test is no call for each character.
ghost use Rattle.std.specs.Prelude.{◌≡◌, ℕ, ◌≤◌, Bool, min, length};
ghost use Rattle.text.specs.Walks.{Tests, on_past, back_past};

/// From a place on, past each character that passes the test. A place past the text counts as its end.
#[inline(always)]
pub fn on_past<P: Fn(u32) -> bool>(text: &[u32], from: usize, test: P) -> usize
    requires callable { P.IsAlwaysCallable test }
    ensures value { (passes : ℕ → Bool) → Tests (P.post test) passes → result ≡ on_past passes text.now (min from (length text.now)) }
    ensures goes_on { min from (length text.now) ≤ result }
    ensures bound { result ≤ length text.now }
{
    let from = from.min(text.len());
    from + text[from..].iter().take_while(|c| test(**c)).count()
}

/// From a place back, past each character before it that passes the test. A place past the text counts as its end.
#[inline(always)]
pub fn back_past<P: Fn(u32) -> bool>(text: &[u32], from: usize, test: P) -> usize
    requires callable { P.IsAlwaysCallable test }
    ensures value { (passes : ℕ → Bool) → Tests (P.post test) passes → result ≡ back_past passes text.now (min from (length text.now)) }
    ensures goes_back { result ≤ from }
    ensures bound { result ≤ length text.now }
{
    let from = from.min(text.len());
    from - text[..from].iter().rev().take_while(|c| test(**c)).count()
}
