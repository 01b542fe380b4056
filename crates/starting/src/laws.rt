// What the search for the valve that is left out comes to.
ghost use Rattle.starting.specs.LeftOut.{LeftOutIsTheLowest};

// No valve is left out exactly when the set starts, and the one left out is the lowest outside the greatest starting part.
pub fn left_out_is_the_lowest() -> bool
    ensures { LeftOutIsTheLowest }
{
    true
}
