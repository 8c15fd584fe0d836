//! What a refusal says to a person: its number, and what is wrong.

ghost use Rattle.std.specs.Prelude.{◌≡◌, Some};
ghost use Rattle.book.specs.Messages.{message_of, reason_of};

use crate::refusal::Refusal;
use std::error::Error;
use std::fmt;

impl Refusal {
    // What is wrong, in a few words.
    fn reason(self) -> &'static str
        ensures value { result.now ≡ reason_of self }
    {
        match self {
            Refusal::BadText => "the text is empty, too long, or does not end in a line end",
            Refusal::BadLine => "the line has not the form of a field line or an edit line",
            Refusal::MisplacedLine =>
                "a field line after an edit, a 25th field, or an edit before any field",
            Refusal::BadWeight => "a weight is not 1 to 100",
            Refusal::WrongName => "a name is declared twice, undeclared, or twice in an edit",
            Refusal::NotARun => "no run below the top, or not above the part before it",
            Refusal::PartsNotHeld => "a set of these parts cannot be held",
            Refusal::OutsideDomain => "a set of the edit is not within its domain",
            Refusal::BookTooLarge => "a table is too short, or there are over 255 edits",
            Refusal::BadMeasure => "the sizes, the weights or the ranges are not in order",
            Refusal::Contradiction => "the edits leave no sound record",
            Refusal::ListFull => "the edit list is at capacity",
            Refusal::NotHeld => "the result cannot be held by this kind of set",
            Refusal::BudgetSpent => "the budget of tries is spent",
            Refusal::BadFieldCount => "the number of fields is not 1 to 24",
            Refusal::SheetWaiting => "an imputed sheet is on the bench",
            Refusal::DeckFull => "the deck is full",
            Refusal::UnsoundDonor => "the record has not one value a field, or is not sound",
            Refusal::BenchTaken => "a sheet is on the bench",
            Refusal::WrongValueCount =>
                "there is not one value for each field, or the bench is not open",
            Refusal::TooManyEntries => "the bench has taken 60,000 sheets",
            Refusal::OtherSheet => "the bench has no such sheet",
            Refusal::NoFieldToChange => "a failed edit enters no field",
            Refusal::NoValueLeft => "no value is left to fill a changed field with",
            Refusal::TooFewPlaces => "there are fewer places than fields",
            Refusal::BadSheetLine => "the line has not one part a field, each a number or empty",
            Refusal::NoRoomForLine => "the values are not 1 to 24, or the bytes are too few",
        }
    }
}

impl fmt::Display for Refusal {
    ghost output = { λ x. Some (message_of x) };

    fn fmt<W: fmt::Write>(&self, f: &mut fmt::Formatter<W>) -> fmt::Result {
        let number = self.number();
        let reason = self.reason();
        write!(f, "refused ({number}): {reason}")
    }
}

impl Error for Refusal {}
