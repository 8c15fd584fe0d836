use crate::*;
use sets::codes::Codes;
use sets::{next_run, run_of};
use std::process::Abort;
use std::test::Fail;

fn run(low: u32, high: u32) -> Run {
    Run { low, high }
}

// Eight runs: 0 to 15, 20 to 35, and so on up to 140 to 155.
fn eight() -> Amounts {
    Amounts {
        runs: [
            run(0, 15),
            run(20, 35),
            run(40, 55),
            run(60, 75),
            run(80, 95),
            run(100, 115),
            run(120, 135),
            run(140, 155),
        ],
    }
}

// The same moved by ten, so that each but the last reaches into two of those.
fn moved() -> Amounts {
    Amounts {
        runs: [
            run(10, 25),
            run(30, 45),
            run(50, 65),
            run(70, 85),
            run(90, 105),
            run(110, 125),
            run(130, 145),
            run(150, 165),
        ],
    }
}

#[test]
fn the_last_amount_is_1_999_999_999(rt: HostRuntime) -> Result<(), Fail> {
    let last = run_of::<Amounts>(1_999_999_999, 1_999_999_999)?;
    let all = run_of::<Amounts>(0, 1_999_999_999)?;
    for (v, in_last, in_all) in [
        (0, false, true),
        (1_999_999_998, false, true),
        (1_999_999_999, true, true),
        (2_000_000_000, false, false),
        (4_294_967_295, false, false),
    ] {
        assert_eq!(rt; last.contains(v), in_last);
        assert_eq!(rt; all.contains(v), in_all);
    }
    assert!(rt; last.is_within(&all) && !all.is_within(&last) && !last.is_empty());
    Ok(())
}

#[test]
fn a_run_that_is_none_is_refused_and_the_place_stays(rt: HostRuntime) -> Result<(), Fail> {
    let mut place = run_of::<Amounts>(5, 9)?;
    for (low, high) in [
        (0, 2_000_000_000),
        (2_000_000_000, 2_000_000_000),
        (1, 4_294_967_295),
        (7, 6),
    ] {
        assert_eq!(rt;
            Amounts::run(low, high, &mut place),
            Err(SetRefusal::NotARun)
        );
    }
    assert!(rt; place.equals(&run_of::<Amounts>(5, 9)?));
    assert_eq!(rt; Amounts::run(0, 0, &mut place), Ok(()));
    assert!(rt; place.contains(0) && !place.contains(1));
    Ok(())
}

#[test]
fn what_follows_the_first_bad_run_counts_for_nothing(rt: HostRuntime) -> Result<(), Fail> {
    let plain = run_of::<Amounts>(5, 7)?;
    let mut odd = plain;
    odd.runs[2] = run(20, 30);
    // it touches the run before it, is none, reaches the top, lies below the run before it
    for bad in [run(8, 9), run(12, 11), run(10, 2_000_000_000), run(0, 3)] {
        odd.runs[1] = bad;
        assert!(rt; odd.equals(&plain) && odd.is_within(&plain) && plain.is_within(&odd));
        assert!(rt; !odd.contains(bad.low) && !odd.contains(25));
        assert_eq!(rt; odd.least_member(8), None);
    }
    // with a gap of one it counts, and so does what follows it
    odd.runs[1] = run(9, 9);
    assert!(rt; !odd.equals(&plain) && odd.contains(9) && odd.contains(25) && !odd.contains(8));
    Ok(())
}

#[test]
fn a_row_whose_first_run_is_bad_is_empty(rt: HostRuntime) -> Result<(), Fail> {
    let mut odd = eight();
    odd.runs[0] = run(4_294_967_295, 4_294_967_295);
    assert!(rt;
        odd.is_empty() && odd.equals(&Amounts::empty()) && odd.is_within(&run_of::<Amounts>(0, 0)?)
    );
    assert_eq!(rt; odd.least_non_member(20), Some(20));
    assert_eq!(rt; next_run(&odd, 0), None);
    Ok(())
}

// The runs 0 to 15 and 20 to 35, and leftovers after them.
fn two_and_leftovers() -> Amounts {
    let mut odd = eight();
    odd.runs[2] = run(36, 36);
    odd
}

#[test]
fn results_have_no_leftovers_of_their_operands(rt: HostRuntime) {
    let odd = two_and_leftovers();
    let mut place = eight();
    assert_eq!(rt; odd.meet(&eight(), &mut place), Ok(()));
    assert_eq!(rt; place.runs[1], run(20, 35));
    assert_eq!(rt; place.runs[2], run(1, 0));
    // leftovers take no place: six more runs fit, and eight do not
    let mut more = moved();
    more.runs[0] = run(50, 50);
    more.runs[1] = run(52, 52);
    more.runs[2] = run(54, 54);
    assert_eq!(rt; odd.join(&more, &mut place), Err(SetRefusal::NotHeld));
    more.runs[6] = run(1, 0);
    assert_eq!(rt; odd.join(&more, &mut place), Ok(()));
    assert_eq!(rt; place.runs[7], run(110, 125));
}

#[test]
fn steps_stop_before_leftovers(rt: HostRuntime) {
    let odd = two_and_leftovers();
    assert_eq!(rt; odd.least_non_member(20), Some(36));
    assert_eq!(rt; odd.least_member(36), None);
    assert_eq!(rt; next_run(&odd, 16), Some(run(20, 35)));
    assert_eq!(rt; next_run(&odd, 36), None);
}

#[test]
fn eight_runs_joined_to_a_ninth(rt: HostRuntime) -> Result<(), Fail> {
    let mut place = run_of::<Amounts>(5, 9)?;
    // far off, and at a gap of one from one neighbour or from both
    for (low, high) in [(1000, 1000), (157, 157), (17, 18)] {
        assert_eq!(rt;
            eight().join(&run_of::<Amounts>(low, high)?, &mut place),
            Err(SetRefusal::NotHeld)
        );
    }
    assert!(rt; place.equals(&run_of::<Amounts>(5, 9)?));
    // one that touches becomes part of its neighbour, or makes one of two
    assert_eq!(rt;
        eight().join(&run_of::<Amounts>(156, 1_999_999_999)?, &mut place),
        Ok(())
    );
    assert_eq!(rt; place.runs[7], run(140, 1_999_999_999));
    assert_eq!(rt;
        eight().join(&run_of::<Amounts>(16, 19)?, &mut place),
        Ok(())
    );
    assert_eq!(rt; place.runs[0], run(0, 35));
    assert_eq!(rt; place.runs[7], run(1, 0));
    Ok(())
}

#[test]
fn eight_and_eight_meet_in_fifteen(rt: HostRuntime) -> Result<(), Fail> {
    let mut place = run_of::<Amounts>(5, 9)?;
    assert_eq!(rt;
        eight().meet(&moved(), &mut place),
        Err(SetRefusal::NotHeld)
    );
    assert_eq!(rt;
        moved().meet(&eight(), &mut place),
        Err(SetRefusal::NotHeld)
    );
    assert!(rt; place.equals(&run_of::<Amounts>(5, 9)?));
    // together they leave no gap
    assert_eq!(rt; eight().join(&moved(), &mut place), Ok(()));
    assert!(rt; place.equals(&run_of::<Amounts>(0, 165)?));
    Ok(())
}

#[test]
fn those_below_86_meet_in_eight(rt: HostRuntime) -> Result<(), Fail> {
    let mut low = Amounts::empty();
    assert_eq!(rt; eight().meet(&run_of::<Amounts>(0, 85)?, &mut low), Ok(()));
    let mut place = Amounts::empty();
    assert_eq!(rt; moved().meet(&low, &mut place), Ok(()));
    assert_eq!(rt; place.runs[0], run(10, 15));
    assert_eq!(rt; place.runs[7], run(80, 85));
    assert!(rt; place.is_within(&eight()) && place.is_within(&moved()) && !low.is_within(&place));
    Ok(())
}

#[test]
fn runs_that_touch_or_overlap_become_one(rt: HostRuntime) -> Result<(), Fail> {
    let whole = run_of::<Amounts>(0, 9)?;
    let mut place = Amounts::empty();
    for (low, high, first, last) in [(0, 4, 5, 9), (5, 9, 0, 4), (0, 7, 2, 9), (0, 9, 3, 4)] {
        assert_eq!(rt;
            run_of::<Amounts>(low, high)?.join(&run_of::<Amounts>(first, last)?, &mut place),
            Ok(())
        );
        assert_eq!(rt; place.runs, whole.runs);
    }
    // a gap of one stays
    assert_eq!(rt;
        run_of::<Amounts>(0, 4)?.join(&run_of::<Amounts>(6, 9)?, &mut place),
        Ok(())
    );
    assert!(rt; !place.contains(5) && place.contains(6) && !place.equals(&whole));
    Ok(())
}

#[test]
fn runs_meet_at_their_ends(rt: HostRuntime) -> Result<(), Fail> {
    let mut place = Amounts::empty();
    assert_eq!(rt;
        run_of::<Amounts>(0, 4)?.meet(&run_of::<Amounts>(4, 9)?, &mut place),
        Ok(())
    );
    assert_eq!(rt; place.runs, run_of::<Amounts>(4, 4)?.runs);
    assert_eq!(rt;
        run_of::<Amounts>(0, 4)?.meet(&run_of::<Amounts>(5, 9)?, &mut place),
        Ok(())
    );
    assert!(rt; place.is_empty());
    Ok(())
}

#[test]
fn steps_go_up_to_the_last_value(rt: HostRuntime) -> Result<(), Fail> {
    let mut ends = Amounts::empty();
    assert_eq!(rt; ends.least_member(0), None);
    assert_eq!(rt; ends.least_non_member(0), Some(0));
    assert_eq!(rt;
        run_of::<Amounts>(0, 0)?.join(&run_of::<Amounts>(1_999_999_998, 1_999_999_999)?, &mut ends),
        Ok(())
    );
    for (from, member, other) in [
        (0, Some(0), 1),
        (1, Some(1_999_999_998), 1),
        (1_999_999_998, Some(1_999_999_998), 2_000_000_000),
        (1_999_999_999, Some(1_999_999_999), 2_000_000_000),
        (2_000_000_000, None, 2_000_000_000),
        (4_294_967_295, None, 4_294_967_295),
    ] {
        assert_eq!(rt; ends.least_member(from), member);
        assert_eq!(rt; ends.least_non_member(from), Some(other));
    }
    Ok(())
}

// The runs of a set of any stepping kind, from each of three values on, are these.
fn check_runs<K: Stepping>(rt: &impl Abort, set: &K, runs: [(u32, Option<Run>); 3]) {
    for (from, expected) in runs {
        assert_eq!(rt; next_run(set, from), expected);
    }
}

#[test]
fn runs_of_both_kinds_are_found_by_one_function(rt: HostRuntime) {
    let mut codes = Codes::empty();
    assert_eq!(rt; Codes::run(3, 9, &mut codes), Ok(()));
    check_runs(
        &rt,
        &codes,
        [(0, Some(run(3, 9))), (5, Some(run(5, 9))), (10, None)],
    );
    let all = Codes(18_446_744_073_709_551_615);
    check_runs(
        &rt,
        &all,
        [(0, Some(run(0, 63))), (63, Some(run(63, 63))), (64, None)],
    );
    check_runs(
        &rt,
        &eight(),
        [(0, Some(run(0, 15))), (36, Some(run(40, 55))), (156, None)],
    );
    let none = Amounts::empty();
    check_runs(
        &rt,
        &none,
        [(0, None), (2_000_000_000, None), (4_294_967_295, None)],
    );
}
