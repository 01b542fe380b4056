// The worked cases, proved from the rules.
#![tactic(auto)]

ghost use Rattle.worked.specs.Cases.{TotalsCasesAreJudged};

// Totals that balance and cannot start, forward and from the target; the half charge; the empty walk; the joined one.
pub fn totals_cases_are_judged() -> bool
    ensures { TotalsCasesAreJudged }
{
    true
}
