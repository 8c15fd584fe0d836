//! Rows of runs below a top, and what is asked of them.
//!
//! A row may hold anything. It means its runs up to the first that is no run below the top, or that
//! leaves no gap above the one before it.

ghost use Rattle.std.specs.Prelude.{◌≡◌, ◌+◌, min, ◌↔◌, IsTrue, nat_le, Some, slice_get};
ghost use Rattle.std.specs.Iterator.{item_count, YieldsFirst};
ghost use Rattle.amounts.specs.Limits.{most_runs};
ghost use Rattle.amounts.specs.Rows.{counted, places, stands as standing};
ghost use Rattle.amounts.specs.Walks.{ahead, covering, Keeps, Sought, Takes, values};
ghost use Rattle.sets.specs.Sets.{nothing, Within};

use crate::MOST_RUNS;
use crate::peeked::Peeked;
use sets::Run;

/// The runs of a row that count, from some place on, in ascending order. Each next one is found by
/// a look at one place.
#[derive(Clone, Copy)]
pub(crate) struct Runs<'a> {
    pub(crate) places: &'a [Run],
    // where the next run may begin at the lowest
    least: u32,
    top: u32,
}

impl<'a> Runs<'a> {
    /// All runs of the row that count.
    #[tactic(auto, using(crate::specs::RowsLemmas::places_all))]
    pub(crate) fn of(row: &'a [Run; MOST_RUNS], top: u32) -> Runs<'a>
        ensures ahead { ahead result ≡ counted top 0 (places most_runs row.now) }
        ensures top { result.top ≡ top }
    {
        Runs {
            places: row,
            least: 0,
            top,
        }
    }

    /// The run that comes next; it is not taken.
    pub(crate) fn peek(&self) -> Option<Run>
        ensures first { result ≡ slice_get (ahead self.now) 0 }
    {
        let mut runs = *self;
        runs.next()
    }

    /// Goes past the run that comes next, which was looked at before.
    pub(crate) fn pass(&mut self, run: Run)
        requires first { slice_get (ahead self.old) 0 ≡ Some run }
        ensures taken { Takes run self.old self.new }
    {
        *self = Runs {
            places: &self.places[1..],
            least: past_gap(run),
            top: self.top,
        };
    }

    /// Leaves out all places where no run comes next.
    pub(crate) fn settle(&mut self)
        ensures same { Keeps self.old self.new }
        ensures settled { slice_get self.new.places.now 0 ≡ slice_get (ahead self.new) 0 }
    {
        if self.peek().is_none() {
            self.places = &self.places[..0];
        }
    }
}

impl Iterator for Runs<'_> {
    type Item = Run;

    ghost next_gives = { YieldsFirst ahead };

    ghost remaining = { item_count ahead };

    fn next(&mut self) -> Option<Run> {
        let (run, others) = self.places.split_first()?;
        if !stands(*run, self.least, self.top) {
            return None;
        }
        self.places = others;
        self.least = past_gap(*run);
        Some(*run)
    }
}

// Whether the run counts in a row: below the top, and from `least` on.
fn stands(run: Run, least: u32, top: u32) -> bool
    ensures value { result ≡ standing top least run }
{
    least <= run.low && run.low <= run.high && run.high < top
}

// Where the next run may begin at the lowest, with a gap between.
fn past_gap(run: Run) -> u32
    ensures value { result ≡ min (run.high + 2) 4294967295 }
{
    run.high.saturating_add(2)
}

// Whether the run ends at `from` or above.
fn reaches(run: Run, from: u32) -> bool
    ensures value { result ≡ nat_le from run.high }
{
    from <= run.high
}

// The questions take a row and its top. Tried: the `Runs` of a set, handed out by a method of
// `Amounts` that says what they mean. That is no plainer: the calls of the kind follow from these
// contracts as they stand, and would each need an answer of its own.

/// What the first run that ends at `from` or above tells of the values from there on.
pub(crate) fn seek(row: &[Run; MOST_RUNS], top: u32, from: u32) -> Option<Run>
    ensures sought { Sought (values top most_runs row.now) top from result }
{
    Runs::of(row, top).find(|run| reaches(*run, from))
}

/// Whether there is no member.
pub(crate) fn is_empty(row: &[Run; MOST_RUNS], top: u32) -> bool
    ensures decides { IsTrue result ↔ (values top most_runs row.now ≡ nothing) }
{
    Runs::of(row, top).peek().is_none()
}

/// Whether both have the same members.
pub(crate) fn same(row: &[Run; MOST_RUNS], other: &[Run; MOST_RUNS], top: u32) -> bool
    ensures decides { IsTrue result ↔
        (values top most_runs row.now ≡ values top most_runs other.now) }
{
    Runs::of(row, top).eq(Runs::of(other, top))
}

/// Whether each member is one of the other's.
pub(crate) fn within(row: &[Run; MOST_RUNS], other: &[Run; MOST_RUNS], top: u32) -> bool
    ensures decides { IsTrue result ↔
        Within (values top most_runs row.now) (values top most_runs other.now) }
{
    let mut mine = Peeked::of(row, top);
    let mut theirs = Peeked::of(other, top);
    // each turn takes from one of the two, so no chain of one iterator serves
    while let Some(run) = mine.peek() {
        let Some(cover) = theirs.peek() else {
            return false;
        };
        if covers(cover, run) {
            mine.next();
        } else if cover.high < run.low {
            theirs.next();
        } else {
            return false;
        }
    }
    true
}

// Whether the run lies wholly within the other.
fn covers(cover: Run, run: Run) -> bool
    ensures value { result ≡ covering cover run }
{
    cover.low <= run.low && run.high <= cover.high
}
