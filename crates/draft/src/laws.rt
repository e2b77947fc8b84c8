// What the definitions come to. Each law is the contract of a function, so that it is proved with the crate.
ghost use Rattle.draft.specs.Draft.{DraftsAreSound};
ghost use Rattle.draft.specs.Scroll.{ClampScrollsWell, ClampKeepsWellScrolled};
ghost use Rattle.draft.specs.Walks.{WordEndIsFurthest, WordStartIsFurthest};
ghost use Rattle.draft.specs.Clusters.{LeftUndoesRight, LeftUndoesRightOnlyThere};
ghost use Rattle.draft.specs.Letters.{LetterNeedsNoScrolling};
ghost use Rattle.draft.specs.Examples.{LastWordGoes, FirstSpaceStays, LeftPassesTheAccent};

/// A draft holds at most 256 scalar values, and the offset lies up to the place, which lies up to the end.
pub fn drafts_stand()
    ensures are_sound { DraftsAreSound }
{}

/// However a draft was scrolled, the clamp scrolls it well, and leaves it as it is where it was.
pub fn clamp_stands()
    ensures scrolls_well { ClampScrollsWell }
    ensures keeps_well_scrolled { ClampKeepsWellScrolled }
{}

/// Where a well scrolled draft answers Letter, the clamp that follows changes nothing.
pub fn letter_stands()
    ensures needs_no_scrolling { LetterNeedsNoScrolling }
{}

/// A walk over a word passes separators, then other characters, and goes as far as that can go.
pub fn walks_stand()
    ensures end_is_furthest { WordEndIsFurthest }
    ensures start_is_furthest { WordStartIsFurthest }
{}

/// Right and then Left come back exactly where the place was at the start of the line or before a character that is no mark.
pub fn steps_stand()
    ensures left_undoes_right { LeftUndoesRight }
    ensures only_there { LeftUndoesRightOnlyThere }
{}

/// Three edits worked by hand.
pub fn examples_stand()
    ensures last_word_goes { LastWordGoes }
    ensures first_space_stays { FirstSpaceStays }
    ensures left_passes_the_accent { LeftPassesTheAccent }
{}
