//! The refusals of the whole editor, each with the number by which users know it.

ghost use Rattle.std.specs.Prelude.{◌≡◌, ◌↔◌, IsTrue};
ghost use Rattle.book.specs.Refusals.{EachNumberOnce, from_sets, number_of};
ghost use Rattle.book.specs.declared.refusal.Refusal.{Refusal};

use sets::SetRefusal;

/// Why a call is refused: what is wrong, and what to do about it.
#[derive(Clone, Copy, PartialEq, Eq, Debug)]
pub enum Refusal {
    /// The text of a book is empty, has over 32,768 bytes or does not end in a line end: send the
    /// whole file.
    BadText = 1,
    /// A line has not the form of a field line or an edit line: write it anew.
    BadLine = 2,
    /// A field line after an edit line, a 25th field line, or an edit line before any field line:
    /// reorder the lines.
    MisplacedLine = 3,
    /// A field's weight is not 1 to 100: choose another.
    BadWeight = 4,
    /// A name is declared twice, is not declared, or stands twice in an edit: mend the name.
    WrongName = 5,
    /// A part of a set is no run below the top of its kind, or is not above the part before it:
    /// mend its bounds.
    NotARun = 6,
    /// The kind cannot hold a set as its parts are joined: split the set, or take another kind.
    PartsNotHeld = 7,
    /// A set of an edit is not within the field's domain: narrow the set, or widen the domain.
    OutsideDomain = 8,
    /// A table is too short for the book, or it has over 255 edits: lend longer tables, or split
    /// the book.
    BookTooLarge = 9,
    /// The numbers of fields or edits, the tables' lengths or a weight are not those of a book,
    /// or a policy's numbers are out of range: check the sizes passed.
    BadMeasure = 10,
    /// The edits leave no sound record: one of them is wrong.
    Contradiction = 11,
    /// The edit list is at capacity: lend a longer table, up to 256 rows.
    ListFull = 12,
    /// The kind cannot hold the result of a meet or a join: take simpler sets, or another kind.
    NotHeld = 13,
    /// A try is due and the budget is used up: grant a larger budget.
    BudgetSpent = 14,
    /// The number of fields is not 1 to 24.
    BadFieldCount = 15,
    /// An imputed sheet is on the bench: release or withdraw it first.
    SheetWaiting = 16,
    /// The deck has no place for another donor: go on with the donors it has.
    DeckFull = 17,
    /// The record offered as a donor has a wrong number of values or is not sound: do not admit
    /// it.
    UnsoundDonor = 18,
    /// A sheet is on the bench: release or withdraw it first.
    BenchTaken = 19,
    /// The number of values is not the number of fields, or the bench is not open: pass a whole
    /// record.
    WrongValueCount = 20,
    /// 60,000 sheets have been entered: open a new bench.
    TooManyEntries = 21,
    /// The bench has no sheet, or one of another number, stage or findings: pass the sheet that
    /// is on it.
    OtherSheet = 22,
    /// A failed edit enters no field, so no change can mend the record: derive the book.
    NoFieldToChange = 23,
    /// Filling finds no value for a changed field: derive the book.
    NoValueLeft = 24,
    /// Fewer places are lent than there are fields: lend one for each.
    TooFewPlaces = 25,
    /// A sheet line has not one part for each field, each a number or empty: enter it anew.
    BadSheetLine = 26,
    /// The values are not 1 to 24 in number, or the bytes lent are too few for the line: lend
    /// more.
    NoRoomForLine = 27,
}

impl Refusal {
    /// The refusal's number, 1 to 27.
    pub fn number(self) -> u8
        ensures value { result ≡ number_of self }
    {
        self as u8
    }
}

/// The numbers run from 1 to 27 and no two refusals share one; and refusals compare equal exactly
/// where they are the same.
pub fn each_number_once()
    ensures theorem { EachNumberOnce }
    ensures equal { (r s : Refusal) → IsTrue (⟦<Refusal as PartialEq>⟧.eq r s) ↔ (r ≡ s) }
{}

/// A set that is not made is refused under the same number.
impl From<SetRefusal> for Refusal {
    ghost from_gives = { λ e r. r ≡ from_sets e };

    fn from(refusal: SetRefusal) -> Refusal {
        match refusal {
            SetRefusal::NotARun => Refusal::NotARun,
            SetRefusal::NotHeld => Refusal::NotHeld,
        }
    }
}
