// The gap in a table: a slice of which the first `len` elements are in use.
ghost use Rattle.std.specs.Prelude.{◌≡◌, ◌+◌, ◌&&◌, length, if◌then◌else◌, nat_le, is_ok};
ghost use Rattle.text.specs.Gap.{gap_opened, gap_closed};

/// The gap does not fit: it begins past what is in use, or the slice is too short.
#[derive(Clone, Copy, PartialEq, Eq, Debug)]
pub struct DoesNotFit;

/// Moves the elements in use from `at` on `count` places to the right. What stands in the gap is left as it was.
/// Refused, and nothing moved, where `at` is past what is in use or the elements would pass the slice's end.
pub fn open_gap<T: Copy>(
    items: &mut [T],
    len: usize,
    at: usize,
    count: usize,
) -> Result<(), DoesNotFit>
    ensures opens { is_ok result ≡ (nat_le at len && nat_le (len + count) (length items.old)) }
    ensures after { items.new ≡ (if is_ok result then gap_opened items.old len at count else items.old) }
{
    if at > len || len > items.len() || count > items.len() - len {
        return Err(DoesNotFit);
    }
    items.copy_within(at..len, at + count);
    Ok(())
}

/// Moves the elements in use after a run of `count` from `at` on to the left, over that run.
/// Refused, and nothing moved, where the run is not all in use or more is in use than the slice has.
pub fn close_gap<T: Copy>(
    items: &mut [T],
    len: usize,
    at: usize,
    count: usize,
) -> Result<(), DoesNotFit>
    ensures closes { is_ok result ≡ (nat_le (at + count) len && nat_le len (length items.old)) }
    ensures after { items.new ≡ (if is_ok result then gap_closed items.old len at count else items.old) }
{
    if len > items.len() || at > len || count > len - at {
        return Err(DoesNotFit);
    }
    items.copy_within(at + count..len, at);
    Ok(())
}
