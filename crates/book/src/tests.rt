//! Books and records at the edges of what is allowed.

use super::*;
use crate::mask::has_field;
use sets::codes::Codes;
use sets::{EMPTY_ANSWER, SetRefusal};

// Whether the measure of a book of these sizes is refused.
fn is_refused<'x>(n: usize, m: usize, sets: &'x [Codes], weights: &'x [u8]) -> bool {
    let book = Book {
        n,
        m,
        sets,
        weights,
    };
    book.measure() == Err(Refusal::BadMeasure)
}

#[test]
fn a_book_has_1_to_24_fields_and_up_to_255_edits(rt: HostRuntime) {
    let sets = [Codes(1); 6_169];
    let weights = [1; 25];
    assert!(rt; !is_refused(24, 255, &sets, &weights));
    assert!(rt; !is_refused(1, 0, &sets, &weights));
    assert!(rt; is_refused(0, 0, &sets, &weights));
    assert!(rt; is_refused(25, 0, &sets, &weights));
    assert!(rt; is_refused(24, 256, &sets, &weights));
    assert!(rt; is_refused(24, 18_446_744_073_709_551_615, &sets, &weights));
}

#[test]
fn a_table_one_short_is_refused(rt: HostRuntime) {
    let sets = [Codes(1); 6_144];
    let weights = [100; 24];
    assert!(rt; !is_refused(24, 255, &sets, &weights));
    assert!(rt; is_refused(24, 255, &sets[0..6_143], &weights));
    assert!(rt; is_refused(24, 255, &sets, &weights[0..23]));
    assert!(rt; !is_refused(2, 1, &sets[0..4], &weights[0..2]));
    assert!(rt; is_refused(2, 1, &sets[0..3], &weights[0..2]));
}

#[test]
fn the_weight_of_every_field_is_read(rt: HostRuntime) {
    let sets = [Codes(1); 24];
    let mut weights = [50; 25];
    weights[24] = 0;
    assert!(rt; !is_refused(24, 0, &sets, &weights));
    weights[23] = 101;
    assert!(rt; is_refused(24, 0, &sets, &weights));
    assert!(rt; !is_refused(23, 0, &sets, &weights));
    weights[23] = 100;
    weights[0] = 0;
    assert!(rt; is_refused(24, 0, &sets, &weights));
}

#[test]
fn an_empty_answer_is_outside_every_domain(rt: HostRuntime) {
    let sets = [Codes(18_446_744_073_709_551_615); 24];
    let weights = [1; 24];
    let book = Book {
        n: 24,
        m: 0,
        sets: &sets,
        weights: &weights,
    };
    let mut values = [63; 24];
    assert_eq!(rt; book.outside_domains(&values), Ok(0));
    assert_eq!(rt; book.is_sound(&values), Ok(true));
    values[0] = 64;
    values[23] = EMPTY_ANSWER;
    assert_eq!(rt;
        book.outside_domains(&values),
        Ok(0b1000_0000_0000_0000_0000_0001)
    );
    assert_eq!(rt; book.is_sound(&values), Ok(false));
}

// Two fields with the codes 0 to 2; edit 1 enters the first field alone, edit 2 both, edit 3 none.
const SMALL: [Codes; 8] = [
    Codes(7),
    Codes(7),
    Codes(1),
    Codes(7),
    Codes(6),
    Codes(4),
    Codes(7),
    Codes(7),
];

#[test]
fn an_edit_is_failed_where_each_entered_field_has_a_value_of_its_set(rt: HostRuntime) {
    let book = Book {
        n: 2,
        m: 2,
        sets: &SMALL,
        weights: &[1, 1],
    };
    let none = [false; 255];
    let mut first = none;
    first[0] = true;
    let mut second = none;
    second[1] = true;
    assert_eq!(rt; book.failed_edits(&[0, 1]), Ok(first));
    assert_eq!(rt; book.failed_edits(&[0, EMPTY_ANSWER]), Ok(first));
    assert_eq!(rt; book.failed_edits(&[2, 2]), Ok(second));
    assert_eq!(rt; book.failed_edits(&[2, 1]), Ok(none));
    assert_eq!(rt; book.is_sound(&[2, 1]), Ok(true));
    assert_eq!(rt; book.is_sound(&[2, 2]), Ok(false));
    assert_eq!(rt; book.is_sound(&[2, 3]), Ok(false));
}

#[test]
fn an_edit_that_enters_no_field_is_always_failed(rt: HostRuntime) {
    let book = Book {
        n: 2,
        m: 3,
        sets: &SMALL,
        weights: &[1, 1],
    };
    let mut third = [false; 255];
    third[2] = true;
    assert_eq!(rt; book.failed_edits(&[1, 1]), Ok(third));
    assert_eq!(rt; book.is_sound(&[1, 1]), Ok(false));
}

#[test]
fn a_wrong_measure_is_refused_before_a_wrong_number_of_values(rt: HostRuntime) {
    let mut book = Book {
        n: 2,
        m: 3,
        sets: &SMALL,
        weights: &[1, 1],
    };
    assert_eq!(rt; book.outside_domains(&[1]), Err(Refusal::WrongValueCount));
    assert_eq!(rt;
        book.failed_edits(&[1, 1, 1]),
        Err(Refusal::WrongValueCount)
    );
    assert_eq!(rt; book.is_sound(&[]), Err(Refusal::WrongValueCount));
    book.m = 4;
    assert_eq!(rt; book.outside_domains(&[1]), Err(Refusal::BadMeasure));
    assert_eq!(rt; book.failed_edits(&[1, 1]), Err(Refusal::BadMeasure));
    assert_eq!(rt; book.is_sound(&[]), Err(Refusal::BadMeasure));
}

#[test]
fn a_set_that_is_not_made_is_refused_under_the_same_number(rt: HostRuntime) {
    assert_eq!(rt; Refusal::from(SetRefusal::NotARun).number(), 6);
    assert_eq!(rt; Refusal::from(SetRefusal::NotHeld).number(), 13);
    assert_eq!(rt; Refusal::BadText.number(), 1);
    assert_eq!(rt; Refusal::NoRoomForLine.number(), 27);
}

#[test]
fn a_mask_holds_a_field_by_its_bit(rt: HostRuntime) {
    let mask = 0b1000_0000_1000_0000_0000_0000_0000_0001;
    assert!(rt; has_field(mask, 0) && has_field(mask, 23) && has_field(mask, 31));
    assert!(rt; !has_field(mask, 1) && !has_field(mask, 22) && !has_field(mask, 30));
    assert!(rt; !has_field(mask, 32) && !has_field(mask, 63) && !has_field(mask, 64));
    assert!(rt; !has_field(mask, 18_446_744_073_709_551_615));
}
