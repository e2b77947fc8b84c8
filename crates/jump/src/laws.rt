// Theorems over the definitions that the calls are proved equal to.
ghost use Rattle.jump.specs.Laws.{ReadsJustNumerals, StaysInTheListing, TenLines};

/// What holds of numbers and jumps as they are defined here. It does nothing: the checker proves a statement where a contract names it.
pub fn goto_stands()
    ensures reads_just_numerals { ReadsJustNumerals }
    ensures stays_in_the_listing { StaysInTheListing }
    ensures ten_lines { TenLines }
{}
