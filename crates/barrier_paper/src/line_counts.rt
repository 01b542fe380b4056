// How many lines the cases of a barrier paper have.
ghost use Rattle.std.specs.Prelude.{◌≡◌, cond, length, None, Some, nat_lt, slice_index};
ghost use Rattle.barrier_paper.specs.Form as spec;
ghost use Rattle.barrier_paper.specs.Form.{counts_of, last};
ghost use Rattle.barrier_paper.specs.Limits.{most_cases, most_lines};

use crate::limits::{MOST_CASES, MOST_LINES};

// The lines of each case, in a table of bytes: a form that holds it stays small and `Copy`. It has no `Model`, since a form that holds
// a struct with a model cannot be passed by value and used again, and no invariant, so that definitions can write it as a plain record.
#[derive(Clone, Copy, Debug)]
pub struct LineCounts {
    pub table: [u8; MOST_CASES],
    pub cases: usize,
}

impl LineCounts {
    // Before the first case.
    pub fn new() -> LineCounts
        ensures { result ≡ spec.no_case }
    {
        LineCounts {
            table: [0; MOST_CASES],
            cases: 0,
        }
    }

    // How many cases there are.
    pub fn len(&self) -> usize
        ensures { result ≡ length (counts_of self.now) }
    {
        self.cases.min(MOST_CASES)
    }

    // How many lines a case has; 0 where there is no such case.
    pub fn get(&self, case: usize) -> usize
        ensures { result ≡ slice_index (counts_of self.now) case }
    {
        if case < self.len() {
            usize::from(self.table[case])
        } else {
            0
        }
    }

    // With one more case, which has no line yet, where there is room for it.
    pub fn with_case(mut self) -> Option<LineCounts>
        ensures { result ≡ cond (nat_lt (length (counts_of self)) most_cases) (Some (spec.with_case self)) None }
    {
        if self.cases >= MOST_CASES {
            return None;
        }
        self.table[self.cases] = 0;
        self.cases += 1;
        Some(self)
    }

    // With one more line of the last case, where there is room for it; the same where there is no case.
    pub fn with_line(mut self) -> Option<LineCounts>
        ensures { result ≡ cond (nat_lt (slice_index (counts_of self) (last (counts_of self))) most_lines) (Some (spec.with_line self)) None }
    {
        let cases = self.len();
        if cases == 0 {
            return Some(self);
        }
        let last = cases - 1;
        let count = self.table[last];
        if usize::from(count) >= MOST_LINES {
            return None;
        }
        self.table[last] = count + 1;
        Some(self)
    }
}
