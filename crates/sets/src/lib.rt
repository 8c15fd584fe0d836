//! Sets of values: the traits that generic code sees, and codes.
#![tactic(auto)]

ghost use Rattle.std.specs.Prelude.{◌≡◌, ℕ, ◌<◌, ◌≤◌, Bool, true, false, ◌↔◌, IfOk, IsTrue, OnOk, ⊤, ◌≢◌};
ghost use Rattle.sets.specs.Placing.{Placed, RunMade, RunPlaced};
ghost use Rattle.sets.specs.Refusals.{number_of};
ghost use Rattle.sets.specs.Sets.{between, joined, met, nothing, others, Values, Within};
ghost use Rattle.sets.specs.Steps.{FirstRun, Least};

pub mod codes;
mod word;

/// Why a set is not made.
#[derive(Clone, Copy, PartialEq, Eq, Debug)]
pub enum SetRefusal {
    /// Low is above high, or high is not below the kind's top: pass the bounds of a run.
    NotARun = 6,
    /// The kind has no value with just these members: take simpler sets, or another kind.
    NotHeld = 13,
}

impl SetRefusal {
    /// The number by which users know the refusal.
    pub fn number(self) -> u8
        ensures value { result ≡ number_of self }
    {
        self as u8
    }
}

/// The values from `low` to `high`, both among them.
#[derive(Clone, Copy, PartialEq, Eq, Debug)]
pub struct Run {
    pub low: u32,
    pub high: u32,
}

impl Run {
    /// Whether the bounds are those of a run, and all its values lie below the top.
    pub fn is_below(self, top: u32) -> bool
        ensures decides { IsTrue result ↔ ((self.low ≤ self.high) × (self.high < top)) }
    {
        self.low <= self.high && self.high < top
    }
}

/// A kind of finite sets of 32-bit values below a top.
///
/// Sets lie in the host's tables, so whatever a value of the type holds is a set of the kind, and
/// no implementing type has an invariant. Calls that make a set fill a place that the caller
/// lends; a refusal leaves it as it was. Questions alter nothing.
pub trait ValueSet: Copy {
    // which values are members
    ghost has: { Self → ℕ → Bool };

    // every member lies below it
    ghost top: { ℕ };

    // the hold rule: which sets of values below the top the kind can hold
    ghost holds: { (ℕ → Bool) → Bool };

    // the form of the values that calls make, where one set may lie in several values
    ghost tidy: { Self → Type 0 } = { λ _. ⊤ };

    /// The set with no member.
    fn empty() -> Self
        ensures value { has result ≡ nothing }
        ensures tidy { tidy result };

    /// Puts the values from `low` to `high` into the place.
    // Two bounds and no `Run`: callers have bounds in hand, and would write `Run { low, high }`
    // around them.
    fn run(low: u32, high: u32, place: &mut Self) -> Result<(), SetRefusal>
        ensures placed { RunPlaced has top low high place.old place.new result }
        ensures tidy { OnOk result (tidy place.new) };

    /// Whether `v` is a member.
    fn contains(&self, v: u32) -> bool
        ensures value { result ≡ has self.now v };

    /// Whether there is no member.
    fn is_empty(&self) -> bool
        ensures decides { IsTrue result ↔ (has self.now ≡ nothing) };

    /// Whether both have the same members.
    // No `PartialEq`: a derived `==` tells apart rows that have the same members and other
    // leftovers, and one by hand, with its laws, is no plainer than this.
    fn equals(&self, other: &Self) -> bool
        ensures decides { IsTrue result ↔ (has self.now ≡ has other.now) };

    /// Whether each member is one of `other`.
    fn is_within(&self, other: &Self) -> bool
        ensures decides { IsTrue result ↔ (Within (has self.now) (has other.now)) };

    /// Puts the common members into the place.
    fn meet(&self, other: &Self, place: &mut Self) -> Result<(), SetRefusal>
        ensures placed { let wanted = met (has self.now) (has other.now) in
            Placed has holds wanted place.old place.new result }
        ensures tidy { OnOk result (tidy place.new) };

    /// Puts the members of either into the place.
    fn join(&self, other: &Self, place: &mut Self) -> Result<(), SetRefusal>
        ensures placed { let wanted = joined (has self.now) (has other.now) in
            Placed has holds wanted place.old place.new result }
        ensures tidy { OnOk result (tidy place.new) };

    ghost top_fits: { top ≤ 4294967295 };

    ghost below_top: { (s : Self) (v : ℕ) → has s v ≡ true → v < top };

    ghost own_held: { (s : Self) → holds (has s) ≡ true };

    ghost empty_held: { holds nothing ≡ true };

    ghost runs_held: { (low high : ℕ) → low ≤ high → high < top → holds (between low high) ≡ true };
}

/// A kind in whose sets one can step upward. Both questions look at the values from the given one up
/// to 4,294,967,295, and answer none where no value there will do.
pub trait Stepping: ValueSet {
    /// The least member from `from` on.
    fn least_member(&self, from: u32) -> Option<u32>
        ensures least { Least (Self.has self.now) from result };

    /// The least value from `from` on that is no member.
    fn least_non_member(&self, from: u32) -> Option<u32>
        ensures least { Least (others (Self.has self.now)) from result };
}

/// The set of the values from `low` to `high`, where the caller has no place of its own to lend.
// Two bounds and no `Run`, as in `ValueSet::run`.
pub fn run_of<K: ValueSet>(low: u32, high: u32) -> Result<K, SetRefusal>
    ensures made { RunMade K.has K.top low high result }
    ensures tidy { IfOk result K.tidy }
{
    let mut set = K::empty();
    K::run(low, high, &mut set)?;
    Ok(set)
}

/// The first run of members from `from` on, of a set of any stepping kind. It ends where the next
/// value is no member, and begins at `from` where that is one.
pub fn next_run<K: Stepping>(set: &K, from: u32) -> Option<Run>
    ensures first { FirstRun (K.has set.now) from result }
{
    let low = set.least_member(from)?;
    let after = set.least_non_member(low)?;
    Some(Run {
        low,
        high: after - 1,
    })
}

/// What an empty answer reads as.
// A number and no `Option`: records come and go as the host's tables of 32-bit numbers.
pub const EMPTY_ANSWER: u32 = 4_294_967_295;

/// Whether an empty answer is a member: never, of whatever kind the set is.
pub fn has_empty_answer<K: ValueSet>(set: &K) -> bool
    ensures value { result ≡ K.has set.now 4294967295 }
    ensures never { result ≡ false }
{
    set.contains(EMPTY_ANSWER)
}

/// A set that the kind cannot hold has no value: so meet and join are refused only where there is
/// nothing that they could have put into the place.
pub fn unheld_has_no_value<K: ValueSet>(set: &K)
    ensures theorem { (A : Values) → K.holds A ≡ false → K.has set.now ≢ A }
{}
