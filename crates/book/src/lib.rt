//! The book of a survey: its refusals, its measure, and the questions asked of a record.
#![tactic(auto)]

ghost use Rattle.std.specs.Prelude.{◌≤◌, ◌↔◌, IsTrue, length};
ghost use Rattle.book.specs.Answers.{Measuring};
ghost use Rattle.book.specs.Books.{IsBook};
ghost use Rattle.book.specs.Measure.{most_edits, most_fields, most_weight, Sized, Weighed};

use refusal::Refusal;

pub mod mask;
pub mod message;
pub mod questions;
mod record;
pub mod refusal;

/// The most fields of a book; a mask of 32 bits has one for each.
pub const MOST_FIELDS: usize = 24;

/// The most edits of a book: an edit's number is one byte, and 0 is no edit's.
pub const MOST_EDITS: usize = 255;

/// The largest weight of a field.
pub const MOST_WEIGHT: u8 = 100;

/// A book, as a view over tables that the host keeps.
///
/// The sets table is flat: the `n` domains first, then the `n` sets of each of the `m` edits. The
/// weights table has a weight for each field. The host may pass anything; each call takes the
/// book's measure first, in time linear in `n`, and refuses what is none.
// Two flat tables and two sizes, and no rows of their own: the tables are the host's memory.
#[derive(Clone, Copy)]
pub struct Book<'a, K> {
    /// How many fields a record has, 1 to 24.
    pub n: usize,
    /// How many edits there are, 0 to 255.
    pub m: usize,
    pub sets: &'a [K],
    pub weights: &'a [u8],
}

impl<K> Book<'_, K> {
    // Whether the sizes fit one another.
    fn is_sized(&self) -> bool
        ensures decides { let sets = length self.now.sets.now in
            let weights = length self.now.weights.now in
            IsTrue result ↔ Sized most_fields most_edits self.now.n self.now.m sets weights }
    {
        1 <= self.n
            && self.n <= MOST_FIELDS
            && self.m <= MOST_EDITS
            && (self.m + 1) * self.n <= self.sets.len()
            && self.n <= self.weights.len()
    }

    // Whether the weight of each field is in its range.
    fn is_weighed(&self) -> bool
        requires { self.now.n ≤ length self.now.weights.now }
        ensures decides { IsTrue result ↔ Weighed self.now.n self.now.weights.now }
    {
        self.weights[..self.n]
            .iter()
            .all(|weight| is_weight(*weight))
    }

    /// Takes the book's measure: whether the numbers of fields and edits are in range, the tables
    /// long enough, and the weights 1 to 100.
    pub fn measure(&self) -> Result<(), Refusal>
        ensures answer { Measuring (IsBook self.now) result }
    {
        if self.is_sized() && self.is_weighed() {
            Ok(())
        } else {
            Err(Refusal::BadMeasure)
        }
    }
}

// Whether a weight is in the range of weights.
fn is_weight(weight: u8) -> bool
    ensures decides { IsTrue result ↔ ((1 ≤ weight) × (weight ≤ most_weight)) }
{
    (1..=MOST_WEIGHT).contains(&weight)
}

#[cfg(test)]
mod tests;
