//! The runs of a row, with the one that comes next in hand.

ghost use Rattle.std.specs.Prelude.{◌≡◌, slice_get};
ghost use Rattle.std.specs.Iterator.{item_count, YieldsFirst};
ghost use Rattle.amounts.specs.Limits.{most_runs};
ghost use Rattle.amounts.specs.Rows.{counted, places};
ghost use Rattle.amounts.specs.Walks.{ahead};

use crate::MOST_RUNS;
use crate::row::Runs;
use sets::Run;

/// The runs of a row that count, in ascending order, for walks that look at a run several times
/// before they take it: each place is tested once all the same.
#[derive(Clone, Copy)]
pub(crate) struct Peeked<'a> {
    pub(crate) runs: Runs<'a>,
    // the first place holds the run that comes next, and there is no place where none does
    ghost settled: { slice_get runs.places.now 0 ≡ slice_get (ahead runs) 0 },
}

impl<'a> Peeked<'a> {
    /// All runs of the row that count.
    pub(crate) fn of(row: &'a [Run; MOST_RUNS], top: u32) -> Peeked<'a>
        ensures ahead { ahead result.runs ≡ counted top 0 (places most_runs row.now) }
    {
        let mut runs = Runs::of(row, top);
        runs.settle();
        Peeked { runs }
    }

    /// The run that comes next; it is not taken.
    pub(crate) fn peek(&self) -> Option<Run>
        ensures first { result ≡ slice_get (ahead self.now.runs) 0 }
    {
        self.runs.places.first().copied()
    }
}

impl Iterator for Peeked<'_> {
    type Item = Run;

    ghost next_gives = { YieldsFirst (λ s. ahead s.runs) };

    ghost remaining = { item_count (λ s. ahead s.runs) };

    fn next(&mut self) -> Option<Run> {
        let run = self.peek()?;
        self.runs.pass(run);
        self.runs.settle();
        Some(run)
    }
}
