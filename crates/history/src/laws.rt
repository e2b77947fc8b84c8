// What the definitions come to. Each law is the contract of a function, so that it is proved with the crate.
ghost use Rattle.history.specs.Lines.{LinesLaws};
ghost use Rattle.history.specs.Loading.{LoadLaws};
ghost use Rattle.history.specs.Session.{SessionsAreSound};
ghost use Rattle.history.specs.Laws.{SavingLaws, WritingLaws};
ghost use Rattle.history.specs.Examples.{LoadExamples};

/// Which lines bytes have.
pub fn lines_stand()
    ensures laws { LinesLaws }
{}

/// What characters load to, and four lines worked by hand.
pub fn loading_stands()
    ensures laws { LoadLaws }
    ensures examples { LoadExamples }
{}

/// A saved draft is a clean, readable line, and loading it gives its text back. What is written is read again.
pub fn history_stands()
    ensures saving { SavingLaws }
    ensures writing { WritingLaws }
{}

/// One of at most 32 drafts is in hand.
pub fn sessions_stand()
    ensures are_sound { SessionsAreSound }
{}
