//! Amounts: sets of values below 2,000,000,000 with at most eight maximal runs.
#![tactic(auto)]

ghost use Rattle.std.specs.Prelude.{◌≡◌, ◌<◌, ◌≤◌, OnOk};
ghost use Rattle.amounts.specs.Amounts.{held, IsTidy, members_of, OneTidyRowEach};
ghost use Rattle.amounts.specs.Limits.{amounts_top, most_runs};
ghost use Rattle.sets.specs.Placing.{Placed, RunPlaced};
ghost use Rattle.sets.specs.Sets.{between, joined, met, nothing};
ghost use Rattle.amounts.specs.Rows.{places};
ghost use Rattle.amounts.specs.Held.{below, own_sets_held, nothing_held, run_held};
ghost use Rattle.std.proofs.Common.{rules};

use crate::draft::BLANK;
use sets::{Run, SetRefusal, Stepping, ValueSet};

mod combine;
mod draft;
mod peeked;
mod row;

/// How many runs a set has at most.
pub const MOST_RUNS: usize = 8;

// The top of the kind.
const TOP: u32 = 2_000_000_000;

/// A set of amounts, as its runs. 64 bytes; each call goes at most once through the runs of a row,
/// never through the values.
///
/// The eight places may hold any bytes. They are read from the first on, as long as what stands
/// there is a run below the top that starts two or more above the end of the one before; nothing
/// after that counts. Rows that calls make have no such leftovers: their runs come first, and the
/// other places are blank. So each set that can be held is that of just one such row.
#[derive(Clone, Copy)]
pub struct Amounts {
    pub runs: [Run; MOST_RUNS],
}

impl Amounts {
    // The set of one run.
    #[tactic(auto, using(crate::proofs::Singles::single_run))]
    fn of_run(run: Run) -> Amounts
        requires ordered { run.low ≤ run.high }
        requires below { run.high < amounts_top }
        ensures members { members_of result ≡ between run.low run.high }
        ensures tidy { IsTidy result }
    {
        let mut runs = [BLANK; MOST_RUNS];
        runs[0] = run;
        Amounts { runs }
    }
}

impl ValueSet for Amounts {
    ghost has = { λ s v. members_of s v };

    ghost top = { amounts_top };

    ghost holds = { held };

    ghost tidy = { λ s. IsTidy s };

    ghost top_fits = { Prim.search rules };

    ghost below_top = { λ s v e. below amounts_top (places most_runs s.runs) v e };

    ghost own_held = { λ s. own_sets_held amounts_top most_runs s.runs };

    ghost empty_held = { nothing_held amounts_top most_runs };

    ghost runs_held = { λ low high p q. run_held amounts_top 7 low high p q };

    #[tactic(auto, using(crate::proofs::Singles::no_run))]
    fn empty() -> Amounts {
        Amounts {
            runs: [BLANK; MOST_RUNS],
        }
    }

    fn run(low: u32, high: u32, place: &mut Amounts) -> Result<(), SetRefusal> {
        let run = Run { low, high };
        if !run.is_below(TOP) {
            return Err(SetRefusal::NotARun);
        }
        *place = Amounts::of_run(run);
        Ok(())
    }

    fn contains(&self, v: u32) -> bool {
        row::seek(&self.runs, TOP, v).is_some_and(|run| run.low <= v)
    }

    fn is_empty(&self) -> bool {
        row::is_empty(&self.runs, TOP)
    }

    fn equals(&self, other: &Amounts) -> bool {
        row::same(&self.runs, &other.runs, TOP)
    }

    fn is_within(&self, other: &Amounts) -> bool {
        row::within(&self.runs, &other.runs, TOP)
    }

    fn meet(&self, other: &Amounts, place: &mut Amounts) -> Result<(), SetRefusal> {
        let runs = combine::met(&self.runs, &other.runs, TOP)?;
        *place = Amounts { runs };
        Ok(())
    }

    fn join(&self, other: &Amounts, place: &mut Amounts) -> Result<(), SetRefusal> {
        let runs = combine::joined(&self.runs, &other.runs, TOP)?;
        *place = Amounts { runs };
        Ok(())
    }
}

impl Stepping for Amounts {
    fn least_member(&self, from: u32) -> Option<u32> {
        row::seek(&self.runs, TOP, from).map(|run| run.low.max(from))
    }

    fn least_non_member(&self, from: u32) -> Option<u32> {
        let run = row::seek(&self.runs, TOP, from).filter(|run| run.low <= from);
        Some(run.map_or(from, |run| run.high + 1))
    }
}

/// Every set of values below the top with at most eight maximal runs has just one row of the form
/// that calls make. So amounts hold every such set, and results with the same members are the same
/// row.
pub fn each_held_set_has_one_row()
    ensures theorem { OneTidyRowEach }
{}

#[cfg(test)]
mod tests;
