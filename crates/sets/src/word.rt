//! Operations on words, each with its meaning for the set of values whose bits are set.

ghost use Rattle.std.specs.Prelude.{◌≡◌, ◌<◌, ◌≤◌, Some, ◌↔◌, IsTrue};
ghost use Rattle.sets.specs.Sets.{between, joined as either, met as both, nothing, others, Within};
ghost use Rattle.sets.specs.Steps.{Least};
ghost use Rattle.sets.specs.Word.{bit};

use crate::Run;

pub(crate) fn none() -> u64
    ensures value { bit result ≡ nothing }
{
    0
}

pub(crate) fn run(run: Run) -> u64
    requires ordered { run.low ≤ run.high }
    requires below { run.high < 64 }
    ensures value { bit result ≡ between run.low run.high }
{
    (u64::MAX >> (63 - run.high)) & (u64::MAX << run.low)
}

#[tactic(auto, using(crate::proofs::Words::decides_none))]
pub(crate) fn is_none(a: u64) -> bool
    ensures decides { IsTrue result ↔ (bit a ≡ nothing) }
{
    a == 0
}

#[tactic(auto, using(crate::proofs::Words::decides_same))]
pub(crate) fn same(a: u64, b: u64) -> bool
    ensures decides { IsTrue result ↔ (bit a ≡ bit b) }
{
    a == b
}

#[tactic(auto, using(crate::proofs::Words::decides_within))]
pub(crate) fn within(a: u64, b: u64) -> bool
    ensures decides { IsTrue result ↔ (Within (bit a) (bit b)) }
{
    a & b == a
}

pub(crate) fn met(a: u64, b: u64) -> u64
    ensures value { bit result ≡ both (bit a) (bit b) }
{
    a & b
}

pub(crate) fn joined(a: u64, b: u64) -> u64
    ensures value { bit result ≡ either (bit a) (bit b) }
{
    a | b
}

// The lowest bit that is left once those below are moved out.
#[tactic(auto, using(crate::proofs::Words::one_or_none))]
pub(crate) fn least_one(a: u64, from: u32) -> Option<u32>
    requires { from < 64 }
    ensures least { Least (bit a) from result }
{
    let left = a >> from;
    (left != 0).then_some(from + left.trailing_zeros())
}

// From 64 on no value has a bit, so there is always one that is not set.
#[tactic(auto, using(crate::proofs::Words::least_other))]
pub(crate) fn least_zero(a: u64, from: u32) -> u32
    requires { from < 64 }
    ensures least { Least (others (bit a)) from (Some result) }
{
    least_one(!a, from).unwrap_or(64)
}
