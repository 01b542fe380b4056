// Writing and reading papers are inverse to each other.
ghost use Rattle.paper.specs.First.{PapersAreRefusedAtTheFirstFault};
ghost use Rattle.paper.specs.Inverse.{PlantPapersAreExact, TotalsPapersAreExact};

// A plant paper is read without fault exactly when it is the writing of a well-formed document, and then reading gives that document.
pub fn plant_papers_are_exact() -> bool
    ensures { PlantPapersAreExact }
{
    true
}

// The same of totals papers, on a plant with any number of valves.
pub fn totals_papers_are_exact() -> bool
    ensures { TotalsPapersAreExact }
{
    true
}

// A paper is refused at its first fault: the words before it pass, and the word at its place does not.
pub fn papers_are_refused_at_the_first_fault() -> bool
    ensures { PapersAreRefusedAtTheFirstFault }
{
    true
}
