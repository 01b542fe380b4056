// What the judgement of barriers comes to. The function holds the theorem that its name tells.
ghost use Rattle.barrier_rule.specs.Exact.{BarriersAreJudgedExactly};

// A barrier with its steps is accepted exactly when the rule holds of it, and refused only by what is so of it, at the lowest place.
pub fn barriers_are_judged_exactly() -> bool
    ensures { BarriersAreJudgedExactly }
{
    true
}
