// Writing and reading barrier papers are inverse to each other; a refused one is refused at its first fault.
ghost use Rattle.barrier_paper.specs.Inverse.{BarrierPapersAreExact, BarrierPapersAreRefusedAtTheFirstFault};

// On a plant with any numbers of tanks and valves, a barrier paper is read without fault exactly when it is the writing of a well-formed
// document, and then reading gives that document.
pub fn barrier_papers_are_exact() -> bool
    ensures { BarrierPapersAreExact }
{
    true
}

// A barrier paper is refused at its first fault: the words before it pass, and the word at its place does not.
pub fn barrier_papers_are_refused_at_the_first_fault() -> bool
    ensures { BarrierPapersAreRefusedAtTheFirstFault }
{
    true
}
