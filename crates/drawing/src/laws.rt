// What the definition of a drawing comes to. Each law is the contract of a function, so that it is proved with the crate.
ghost use Rattle.drawing.specs.Drawing.{DrawingForgets, DrawingCosts, DrawingIsAllowed};

/// What a drawing leaves does not depend on what the row showed before.
pub fn drawing_stands()
    ensures forgets_the_row { DrawingForgets }
{}

/// A drawing costs 1,298 at most, so that none of its calls is refused where so much is to spare.
pub fn costs_stand()
    ensures stays_below { DrawingCosts }
    ensures is_never_refused { DrawingIsAllowed }
{}
