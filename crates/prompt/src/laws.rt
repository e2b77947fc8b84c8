// What the definitions of a session come to. Each law is the contract of a function, so that it is proved with the crate.
ghost use Rattle.prompt.specs.Examples.{LettersTyped, NarrowRow, BellTyped};
ghost use Rattle.prompt.specs.Session.{CallsEnterTheLedger};

/// What an accepted call does to the drafts is what it enters in the ledger, at whatever width.
pub fn ledger_stands()
    ensures calls_enter_the_ledger { CallsEnterTheLedger }
{}

/// Three sessions worked by hand.
pub fn examples_stand()
    ensures letters_typed { LettersTyped }
    ensures narrow_row { NarrowRow }
    ensures bell_typed { BellTyped }
{}
