// The calls of a glass as values, and a list of them performed on any glass.
ghost use Rattle.std.specs.Prelude.{map};
ghost use Rattle.glass.specs.Calls.{Obeys};
ghost use Rattle.glass.specs.Ties.{StaysTied, accepted};
ghost use Rattle.glass.specs.Performed.{call_of, Performed, made};

use crate::{Glass, PenChange};
use text::refusal::Refusal;

/// A call of a glass, with its arguments.
#[derive(Clone, Copy)]
pub enum Call<'a> {
    Place(usize),
    Pen(PenChange),
    Text(&'a [u32]),
    Clear,
    Reshape(usize),
}

/// Where a list of calls came to a stop: the first `made` were made, and the next one was refused.
#[derive(Clone, Copy, PartialEq, Eq, Debug)]
pub struct Stopped {
    pub made: usize,
    pub refusal: Refusal,
}

/// Performs one call.
// Inlined: of a call that is known, one case is left.
#[inline(always)]
pub fn perform<G: Glass>(glass: &mut G, call: Call<'_>) -> Result<(), Refusal>
    ensures obeys { Obeys G.Font.Font.columns G.Glass.row G.Glass.spare (call_of call.entry) glass.old result glass.new }
    ensures keeps { StaysTied (accepted (call_of call.entry) result) (G.Glass.tied glass.old) (G.Glass.tied glass.new) }
{
    // A list of calls is data, of which the row is a fold.
    match call {
        Call::Place(column) => glass.place(column),
        Call::Pen(change) => glass.pen(change),
        Call::Text(characters) => glass.text(characters),
        Call::Clear => glass.clear(),
        Call::Reshape(width) => glass.reshape(width),
    }
}

/// Performs the calls in their order, up to the first that is refused.
pub fn perform_all<G: Glass>(glass: &mut G, calls: &[Call<'_>]) -> Result<(), Stopped>
    ensures performed { Performed G.Font.Font.columns G.Glass.row G.Glass.spare (map call_of calls.now) glass.old result glass.new }
    ensures keeps { StaysTied (made (map call_of calls.now) result) (G.Glass.tied glass.old) (G.Glass.tied glass.new) }
{
    for (made, call) in calls.iter().enumerate() {
        perform(glass, *call).map_err(|refusal| Stopped { made, refusal })?;
    }
    Ok(())
}
