//! A row in the making.

ghost use Rattle.std.specs.Prelude.{◌≡◌, ◌≤◌};
ghost use Rattle.amounts.specs.Drafts.{added, answered, no_runs};
ghost use Rattle.amounts.specs.Limits.{most_runs};

use crate::MOST_RUNS;
use sets::{Run, SetRefusal};

/// What stands in a place that holds no run.
// Bounds of no run, and no `Option`: a row lies in the host's tables, as eight pairs of numbers.
pub(crate) const BLANK: Run = Run { low: 1, high: 0 };

/// The runs found so far, ascending with gaps, and how many they are.
// An array and a count: no memory is taken, and the array is the row that is handed out, blanks and
// all. A vector of fixed capacity would be copied into one at the end.
#[derive(Clone, Copy)]
pub(crate) struct Draft {
    pub(crate) runs: [Run; MOST_RUNS],
    count: usize,
}

impl Draft {
    /// No runs.
    pub(crate) fn new() -> Draft
        ensures value { result ≡ no_runs most_runs }
    {
        Draft {
            runs: [BLANK; MOST_RUNS],
            count: 0,
        }
    }

    /// Adds a run that does not begin below the last one. Where the two overlap or touch, they
    /// become one.
    pub(crate) fn add(&mut self, run: Run) -> Result<(), SetRefusal>
        requires room { self.old.count ≤ most_runs }
        ensures draft { self.new ≡ added most_runs self.old run }
        ensures answer { result ≡ answered most_runs self.old run }
    {
        if self.count > 0 {
            let last = self.runs[self.count - 1];
            if run.low <= last.high.saturating_add(1) {
                self.runs[self.count - 1] = Run {
                    low: last.low,
                    high: last.high.max(run.high),
                };
                return Ok(());
            }
        }
        if self.count == MOST_RUNS {
            return Err(SetRefusal::NotHeld);
        }
        self.runs[self.count] = run;
        self.count += 1;
        Ok(())
    }
}
