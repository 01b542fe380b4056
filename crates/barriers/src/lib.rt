// The theory of barriers: an accepted barrier excludes every walk. Each function holds the theorem that its name tells.
#![tactic(auto)]

ghost use Rattle.barriers.specs.Theorems.{GoodImplies, Homogeneous, LocallyClosedInvariant, AcceptedSeparates, SeparatorExcludes, AcceptedExcludes};
ghost use Rattle.barriers.specs.Theorems.{LineDecided, BarrierDecided, GoodDecided, AcceptanceDecided};

// A good match is an implication between two lines, forward and backward, of all markings and for every amount.
pub fn good_matches_imply() -> bool
    ensures { GoodImplies }
{
    true
}

// A line holds of two markings exactly if it holds of a multiple of both.
pub fn lines_are_homogeneous() -> bool
    ensures { Homogeneous }
{
    true
}

// A locally closed barrier stays true under firings at either end.
pub fn closed_barriers_stay() -> bool
    ensures { LocallyClosedInvariant }
{
    true
}

// An accepted barrier is locally closed and separates source from target.
pub fn accepted_barriers_separate() -> bool
    ensures { AcceptedSeparates }
{
    true
}

// Where a barrier separates source from target, no walk leads from one to the other.
pub fn separators_exclude_walks() -> bool
    ensures { SeparatorExcludes }
{
    true
}

// An accepted barrier excludes every walk, also while more valves are closed.
pub fn accepted_barriers_exclude_walks() -> bool
    ensures { AcceptedExcludes }
{
    true
}

// The rule is decided by tests that compute.
pub fn acceptance_is_decided() -> bool
    ensures line { LineDecided }
    ensures barrier { BarrierDecided }
    ensures good { GoodDecided }
    ensures accepted { AcceptanceDecided }
{
    true
}
