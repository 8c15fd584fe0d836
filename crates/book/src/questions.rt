//! What is asked of a record under a book.

ghost use Rattle.std.specs.Prelude.{◌≡◌, ◌↔◌, IsTrue};
ghost use Rattle.book.specs.Answers.{Answered, Flagged};
ghost use Rattle.book.specs.Books.{FailsEdit, outside_of, SoundUnder};
ghost use Rattle.book.specs.Measure.{most_edits};
ghost use Rattle.sets.specs.Word.{bit};

use crate::record::Record;
use crate::refusal::Refusal;
use crate::{Book, MOST_EDITS};
use sets::ValueSet;

impl<K: ValueSet> Book<'_, K> {
    /// Which fields of the record are outside their domains: a mask with bit i for field i.
    // A number and no type of its own: the users' format of a mask is a number of 32 bits.
    pub fn outside_domains(&self, values: &[u32]) -> Result<u32, Refusal>
        ensures answer { let outside = outside_of K.has self.now values.now in
            Answered self.now values.now (λ mask. bit mask ≡ outside) result }
    {
        Ok(self.record(values)?.outside_mask())
    }

    /// Which edits the record fails: a flag for each, that of edit j at place j - 1. The flags past
    /// the last edit are down.
    // An array and no list: the users' format has 255 flags, and no call takes memory.
    pub fn failed_edits(&self, values: &[u32]) -> Result<[bool; MOST_EDITS], Refusal>
        ensures answer { let failed = FailsEdit K.has self.now values.now in
            Answered self.now values.now
            (λ flags. Flagged most_edits self.now.m failed flags) result }
    {
        Ok(self.record(values)?.failed_flags())
    }

    /// Whether the record is sound: within the domains, and failing no edit.
    pub fn is_sound(&self, values: &[u32]) -> Result<bool, Refusal>
        ensures answer { let sound = SoundUnder K.has self.now values.now in
            Answered self.now values.now (λ is_sound. IsTrue is_sound ↔ sound) result }
    {
        Ok(self.record(values)?.is_sound())
    }

    // The record of the book, where this is a book and the values are those of a record.
    fn record<'a>(&'a self, values: &'a [u32]) -> Result<Record<'a, K>, Refusal>
        ensures answer { Answered self.now values.now
            (λ r. (r.book.now ≡ self.now) × (r.values.now ≡ values.now)) result }
    {
        self.measure()?;
        if values.len() != self.n {
            return Err(Refusal::WrongValueCount);
        }
        Ok(Record { book: self, values })
    }
}
