// How many dossiers were judged, and how many of them agree with the table.
ghost use Rattle.std.specs.Prelude.{◌≡◌, ◌+◌, ◌^◌, ◌<◌, ◌≤◌, ◌++◌, if◌then◌else◌, Some, codes, decimal};

use std::fmt;

#[derive(Drop)]
pub struct Tally {
    dossiers: usize,
    agree: usize,
    ghost few: { agree ≤ dossiers },
}

impl Tally {
    // By hand, since a struct with a ghost field derives no Default.
    pub fn new() -> Tally
        ensures dossiers { result.dossiers ≡ 0 }
        ensures agree { result.agree ≡ 0 }
    {
        Tally {
            dossiers: 0,
            agree: 0,
        }
    }

    // One dossier more.
    pub(crate) fn count(&mut self, agrees: bool)
        requires { self.old.dossiers + 1 < 2 ^ 64 }
        ensures dossiers { self.new.dossiers ≡ self.old.dossiers + 1 }
        ensures agree { self.new.agree ≡ self.old.agree + (if agrees then 1 else 0) }
    {
        self.dossiers += 1;
        if agrees {
            self.agree += 1;
        }
    }

    // How many do not agree.
    pub fn differ(&self) -> usize
        ensures { result + self.now.agree ≡ self.now.dossiers }
    {
        self.dossiers - self.agree
    }
}

impl fmt::Display for Tally {
    ghost output = { λ t. Some (decimal t.dossiers ++ (codes " dossiers, " ++ (decimal t.agree ++ codes " agree"))) };

    fn fmt<W: fmt::Write>(&self, f: &mut fmt::Formatter<W>) -> fmt::Result {
        let Tally { dossiers, agree } = self;
        write!(f, "{dossiers} dossiers, {agree} agree")
    }
}
