// The weighing of a barrier paper.
ghost use Rattle.std.specs.Prelude.{◌≡◌};
ghost use Rattle.plant.specs.Walk.{held};
ghost use Rattle.barrier_paper.specs.OfBarrier.{barrier_said};
ghost use Rattle.barrier_rule.specs.Judgement.{barrier_judged};
ghost use Rattle.barrier_weighing.specs.OfCases.{ReadOn};
ghost use Rattle.barrier_weighing.specs.Weighed.{paper_weighed};

use crate::faults::BarrierPaperFault;
use crate::judge::Judge;
use barrier_paper::BarrierPaper;
use barrier_rule::BarrierFault;
use lines::Amounts;
use plant::Plant;

// What the barrier of a paper says of source and target, and then its steps. The tables of its lines are large: in a call of its
// own they are made for a well-formed paper alone.
fn judge_barrier<P: Plant>(
    plant: &P,
    paper: &BarrierPaper,
    source: &Amounts,
    target: &Amounts,
) -> Result<(), BarrierFault>
    requires { ReadOn (P.Plant.meaning plant.now) paper.now }
    ensures { result ≡ barrier_judged (P.Plant.meaning plant.now) (held source.now.each) (held target.now.each) (barrier_said paper.now) }
{
    Judge::new(plant, paper).judge(source, target)
}

// Whether a paper holds a barrier that parts source and target on a plant: its form, and then its barrier with its steps.
pub fn weigh_barrier<P: Plant>(
    plant: &P,
    source: &Amounts,
    target: &Amounts,
    evidence: &[u8],
) -> Result<(), BarrierPaperFault>
    ensures { result ≡ paper_weighed (P.Plant.meaning plant.now) (held source.now.each) (held target.now.each) evidence.now }
{
    let paper = BarrierPaper::read(evidence, plant.counts())?;
    judge_barrier(plant, &paper, source, target)?;
    Ok(())
}
