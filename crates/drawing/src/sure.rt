// Glass calls where a refusal is ruled out beforehand.
ghost use Rattle.std.specs.Prelude.{[], ◌∷◌};
ghost use Rattle.glass.specs.Calls.{Allowed, Drew};
ghost use Rattle.glass.specs.Performed.{call_of};
ghost use Rattle.glass.specs.Ties.{StaysTied};

use glass::Glass;
use glass::calls::{self, Call};

/// Performs a call that the glass does not refuse.
// Inlined: a drawing knows each of its calls.
#[inline(always)]
pub fn perform<G: Glass>(glass: &mut G, call: Call<'_>)
    requires allowed { Allowed G.Font.Font.columns (call_of call ∷ []) (G.Glass.row glass.old) (G.Glass.spare glass.old) }
    ensures drew { Drew G.Font.Font.columns G.Glass.row G.Glass.spare (call_of call.entry ∷ []) glass.old glass.new }
    ensures keeps { StaysTied (call_of call.entry ∷ []) (G.Glass.tied glass.old) (G.Glass.tied glass.new) }
{
    calls::perform(glass, call).unwrap();
}
