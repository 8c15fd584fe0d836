//! A record under a book, once the two are known to fit one another.

ghost use Rattle.std.specs.Prelude.{◌≡◌, ◌+◌, ◌<◌, ◌≤◌, ◌↔◌, IsTrue};
ghost use Rattle.book.specs.Answers.{Flagged};
ghost use Rattle.book.specs.Books.{FailsEdit, InsideDomains, outside_of, PassesAll, Ready, row_of, SoundUnder, SpeaksOf};
ghost use Rattle.book.specs.Measure.{most_edits};
ghost use Rattle.sets.specs.Word.{bit};

use crate::mask::with_field;
use crate::{Book, MOST_EDITS};
use sets::ValueSet;

/// A record under a book: the book's measure is in order, and there is one value for each of its
/// fields. So each question on it has an answer.
#[derive(Drop)]
pub(crate) struct Record<'a, K> {
    pub(crate) book: &'a Book<'a, K>,
    pub(crate) values: &'a [u32],
    ghost ready: { Ready book.now values.now },
}

impl<K: ValueSet> Record<'_, K> {
    // The fields outside their domains.
    pub(crate) fn outside_mask(&self) -> u32
        ensures value { bit result ≡ outside_of K.has self.now.book.now self.now.values.now }
    {
        let mut mask = 0;
        for (i, (domain, value)) in self.row(0).iter().zip(self.values).enumerate() {
            if !domain.contains(*value) {
                mask = with_field(mask, i);
            }
        }
        mask
    }

    // A flag for each edit, up where the record fails it.
    pub(crate) fn failed_flags(&self) -> [bool; MOST_EDITS]
        ensures flags { let book = self.now.book.now in
            Flagged most_edits book.m (FailsEdit K.has book self.now.values.now) result }
    {
        let mut flags = [false; MOST_EDITS];
        // A loop, and no `array::from_fn`, which makes a call for each of the 255 places, however few
        // edits there are.
        for place in 0..self.book.m {
            flags[place] = self.fails(place + 1);
        }
        flags
    }

    // Whether the record is within the domains, and fails no edit.
    pub(crate) fn is_sound(&self) -> bool
        ensures decides { IsTrue result ↔ SoundUnder K.has self.now.book.now self.now.values.now }
    {
        self.is_inside() && self.passes_all()
    }

    // Whether each value is in its domain.
    fn is_inside(&self) -> bool
        ensures decides { IsTrue result ↔
            InsideDomains K.has self.now.book.now self.now.values.now }
    {
        self.outside_mask() == 0
    }

    // Whether the record fails no edit.
    fn passes_all(&self) -> bool
        ensures decides { IsTrue result ↔ PassesAll K.has self.now.book.now self.now.values.now }
    {
        (0..self.book.m).all(|place| !self.fails(place + 1))
    }

    // Whether the record fails the edit with this number.
    fn fails(&self, number: usize) -> bool
        requires number { number ≤ self.now.book.now.m }
        ensures decides { IsTrue result ↔
            FailsEdit K.has self.now.book.now self.now.values.now number }
    {
        self.row(number)
            .iter()
            .zip(self.row(0))
            .zip(self.values)
            .all(|((set, domain), value)| is_met(set, domain, *value))
    }

    // The sets of the edit with this number; those of row 0 are the domains.
    fn row(&self, number: usize) -> &[K]
        requires number { number ≤ self.now.book.now.m }
        ensures row { result.now ≡ row_of self.now.book.now number }
    {
        let start = number * self.book.n;
        &self.book.sets[start..start + self.book.n]
    }
}

// Whether the value is one that an edit speaks of: in its set, where it enters the field.
fn is_met<K: ValueSet>(set: &K, domain: &K, value: u32) -> bool
    ensures decides { IsTrue result ↔ SpeaksOf (K.has set.now) (K.has domain.now) value }
{
    set.contains(value) || set.equals(domain)
}
