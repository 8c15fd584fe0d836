//! The row that two rows make, in one walk over both.

ghost use Rattle.std.specs.Prelude.{◌≡◌, ℕ, ◌<◌, ◌≤◌, Option, Some, slice_get};
ghost use Rattle.std.specs.Iterator.{at_most, IsFinite};
ghost use Rattle.amounts.specs.Drafts.{Made};
ghost use Rattle.amounts.specs.Limits.{most_runs};
ghost use Rattle.amounts.specs.Pieces.{leading, overlap, Splits};
ghost use Rattle.amounts.specs.Pairs.{both_left, count_left, either_left};
ghost use Rattle.amounts.specs.Walks.{ahead, Keeps, Takes, values};
ghost use Rattle.sets.specs.Sets.{joined as either, met as both, Values, ◌∈◌};
ghost use Rattle.sets.specs.declared.Run.{Run};

use crate::MOST_RUNS;
use crate::draft::Draft;
use crate::peeked::Peeked;
use sets::{Run, SetRefusal};

/// Runs that come by ascending start, and may overlap or touch.
pub(crate) trait Pieces: Iterator<Item = Run> {
    // the values of the runs that are still to come
    ghost left: { Self → Values };

    ghost splits: { (s : Self) (r : Option Run) (t : Self) →
        Self.Iterator.next_gives s r t → Splits (left s) r (left t) };
}

/// The runs of two rows, the one that begins first next.
#[derive(Clone, Copy)]
pub(crate) struct Either<'a> {
    pub(crate) mine: Peeked<'a>,
    pub(crate) theirs: Peeked<'a>,
}

impl Iterator for Either<'_> {
    type Item = Run;

    ghost next_gives = { λ s r t. Splits (either_left s) r (either_left t) };

    ghost remaining = { λ s. at_most (count_left s.mine s.theirs) };

    fn next(&mut self) -> Option<Run> {
        if leads(self.theirs.peek(), self.mine.peek()) {
            self.theirs.next()
        } else {
            self.mine.next()
        }
    }
}

impl Pieces for Either<'_> {
    ghost left = { either_left };

    ghost splits = { λ s r t g. g };
}

/// What the runs of two rows have in common.
#[derive(Clone, Copy)]
pub(crate) struct Both<'a> {
    pub(crate) mine: Peeked<'a>,
    pub(crate) theirs: Peeked<'a>,
}

impl Both<'_> {
    // Goes on in the row whose first run ends first: what follows the other's first run has nothing
    // in common with it.
    fn pass(&mut self, a: Run, b: Run)
        requires mine { slice_get (ahead self.old.mine.runs) 0 ≡ Some a }
        requires theirs { slice_get (ahead self.old.theirs.runs) 0 ≡ Some b }
        ensures mine { a.high ≤ b.high →
            Takes a self.old.mine.runs self.new.mine.runs
            × Keeps self.old.theirs.runs self.new.theirs.runs }
        ensures theirs { b.high < a.high →
            Takes b self.old.theirs.runs self.new.theirs.runs
            × Keeps self.old.mine.runs self.new.mine.runs }
    {
        if a.high <= b.high {
            self.mine.next();
        } else {
            self.theirs.next();
        }
    }
}

impl Iterator for Both<'_> {
    type Item = Run;

    ghost next_gives = { λ s r t. Splits (both_left s) r (both_left t) };

    ghost remaining = { λ s. at_most (count_left s.mine s.theirs) };

    fn next(&mut self) -> Option<Run> {
        // each turn takes from one of the two, so no chain of one iterator serves
        while let (Some(a), Some(b)) = (self.mine.peek(), self.theirs.peek()) {
            self.pass(a, b);
            if let Some(run) = common(a, b) {
                return Some(run);
            }
        }
        None
    }
}

impl Pieces for Both<'_> {
    ghost left = { both_left };

    ghost splits = { λ s r t g. g };
}

// Whether the first of two runs begins below the other, or is the only one.
fn leads(run: Option<Run>, other: Option<Run>) -> bool
    ensures value { result ≡ leading run other }
{
    match (run, other) {
        (Some(run), Some(other)) => run.low < other.low,
        (run, _) => run.is_some(),
    }
}

// What two runs have in common, if they overlap.
fn common(a: Run, b: Run) -> Option<Run>
    ensures value { result ≡ overlap a b }
{
    let low = a.low.max(b.low);
    let high = a.high.min(b.high);
    (low <= high).then_some(Run { low, high })
}

// The row of the runs, or a refusal where they make too many.
fn gathered<P: Pieces>(pieces: P) -> Result<[Run; MOST_RUNS], SetRefusal>
    requires can { P.can_next pieces }
    requires ends { IsFinite (P.remaining pieces) }
    ensures made { (top : ℕ) → ((v : ℕ) → v ∈ P.left pieces → v < top) →
        Made top most_runs (P.left pieces) result }
{
    let mut draft = Draft::new();
    for run in pieces {
        draft.add(run)?;
    }
    Ok(draft.runs)
}

// As the questions on rows, both take rows and their top, for the reason given there.

/// The row of the common members.
pub(crate) fn met(
    row: &[Run; MOST_RUNS],
    other: &[Run; MOST_RUNS],
    top: u32,
) -> Result<[Run; MOST_RUNS], SetRefusal>
    ensures made { let mine = values top most_runs row.now in
        let theirs = values top most_runs other.now in
        Made top most_runs (both mine theirs) result }
{
    gathered(Both {
        mine: Peeked::of(row, top),
        theirs: Peeked::of(other, top),
    })
}

/// The row of the members of either.
pub(crate) fn joined(
    row: &[Run; MOST_RUNS],
    other: &[Run; MOST_RUNS],
    top: u32,
) -> Result<[Run; MOST_RUNS], SetRefusal>
    ensures made { let mine = values top most_runs row.now in
        let theirs = values top most_runs other.now in
        Made top most_runs (either mine theirs) result }
{
    gathered(Either {
        mine: Peeked::of(row, top),
        theirs: Peeked::of(other, top),
    })
}
