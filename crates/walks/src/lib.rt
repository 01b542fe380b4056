// The theory of walks: which totals account for one, which sets of valves start. Each function holds the theorem that its name tells.
#![tactic(auto)]

ghost use Rattle.walks.specs.Theorems.{TotalsGiveAWalk, WalksGiveTotals, WalksTurn, WalksCarryOver, ClosingAddsNoWalk, RoundsFindTheGreatestPart, SetsStartWhole};

// Totals that meet the four conditions account for a walk, which fires only the totalled valves.
pub fn totals_give_a_walk() -> bool
    ensures { TotalsGiveAWalk }
{
    true
}

// The totals of every walk meet the four conditions.
pub fn walks_give_totals() -> bool
    ensures { WalksGiveTotals }
{
    true
}

// A walk read backwards is a walk of the turned plant.
pub fn walks_turn() -> bool
    ensures { WalksTurn }
{
    true
}

// A walk is a walk of every plant with the same weights in which its valves are open, with the same scale and firings.
pub fn walks_carry_over() -> bool
    ensures { WalksCarryOver }
{
    true
}

// A walk of a plant with fewer open valves is a walk of the plant.
pub fn closing_adds_no_walk() -> bool
    ensures { ClosingAddsNoWalk }
{
    true
}

// The rounds compute the union of the subsets that start.
pub fn rounds_find_the_greatest_part() -> bool
    ensures { RoundsFindTheGreatestPart }
{
    true
}

// A set starts exactly when its greatest starting part is all of it.
pub fn sets_start_whole() -> bool
    ensures { SetsStartWhole }
{
    true
}
