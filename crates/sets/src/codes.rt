//! Codes: any set of the values below 64, in one word.

ghost use Rattle.std.specs.Prelude.{true};
ghost use Rattle.sets.specs.Word.{bit, OneWordEach};
ghost use Rattle.std.proofs.Common.{rules};

use crate::{Run, SetRefusal, Stepping, ValueSet, word};

/// A set of codes. The code v is a member where bit v is set, so every word is a set, and every set
/// below 64 has just one word. Eight bytes; each call is a few word operations.
#[derive(Clone, Copy)]
pub struct Codes(pub u64);

impl ValueSet for Codes {
    ghost has = { λ s v. bit s.0 v };

    ghost top = { 64 };

    ghost holds = { λ _. true };

    ghost top_fits = { Prim.search rules };

    ghost below_top = { Prim.search rules };

    ghost own_held = { Prim.search rules };

    ghost empty_held = { Prim.search rules };

    ghost runs_held = { Prim.search rules };

    fn empty() -> Codes {
        Codes(word::none())
    }

    fn run(low: u32, high: u32, place: &mut Codes) -> Result<(), SetRefusal> {
        let run = Run { low, high };
        if !run.is_below(64) {
            return Err(SetRefusal::NotARun);
        }
        *place = Codes(word::run(run));
        Ok(())
    }

    fn contains(&self, v: u32) -> bool {
        v < 64 && (self.0 >> v) % 2 == 1
    }

    fn is_empty(&self) -> bool {
        word::is_none(self.0)
    }

    fn equals(&self, other: &Codes) -> bool {
        word::same(self.0, other.0)
    }

    fn is_within(&self, other: &Codes) -> bool {
        word::within(self.0, other.0)
    }

    fn meet(&self, other: &Codes, place: &mut Codes) -> Result<(), SetRefusal> {
        *place = Codes(word::met(self.0, other.0));
        Ok(())
    }

    fn join(&self, other: &Codes, place: &mut Codes) -> Result<(), SetRefusal> {
        *place = Codes(word::joined(self.0, other.0));
        Ok(())
    }
}

impl Stepping for Codes {
    fn least_member(&self, from: u32) -> Option<u32> {
        if from >= 64 {
            return None;
        }
        word::least_one(self.0, from)
    }

    fn least_non_member(&self, from: u32) -> Option<u32> {
        if from >= 64 {
            return Some(from);
        }
        Some(word::least_zero(self.0, from))
    }
}

/// Every set of values below 64 has just one word, so codes hold every such set.
pub fn each_set_has_one_word()
    ensures theorem { OneWordEach }
{}

#[cfg(test)]
mod tests {
    use super::*;
    use crate::{next_run, run_of};
    use std::test::Fail;

    #[test]
    fn the_last_code_is_63(rt: HostRuntime) -> Result<(), Fail> {
        let last = run_of::<Codes>(63, 63)?;
        assert!(rt; last.contains(63) && !last.contains(62));
        assert!(rt; !last.contains(64) && !last.contains(4_294_967_295));
        let all = run_of::<Codes>(0, 63)?;
        assert!(rt; all.contains(0) && all.contains(63));
        assert!(rt; !all.contains(64) && !all.contains(4_294_967_295));
        assert_eq!(rt; all.0, 18_446_744_073_709_551_615);
        Ok(())
    }

    #[test]
    fn a_run_that_is_none_is_refused_and_the_place_stays(rt: HostRuntime) -> Result<(), Fail> {
        let mut place = run_of::<Codes>(5, 9)?;
        assert_eq!(rt; Codes::run(0, 64, &mut place), Err(SetRefusal::NotARun));
        assert_eq!(rt; Codes::run(64, 64, &mut place), Err(SetRefusal::NotARun));
        assert_eq!(rt;
            Codes::run(1, 4_294_967_295, &mut place),
            Err(SetRefusal::NotARun)
        );
        assert_eq!(rt; Codes::run(7, 6, &mut place), Err(SetRefusal::NotARun));
        assert_eq!(rt; place.0, 0b11_1110_0000);
        assert_eq!(rt; SetRefusal::NotARun.number(), 6);
        assert_eq!(rt; SetRefusal::NotHeld.number(), 13);
        Ok(())
    }

    #[test]
    fn sets_meet_and_join_and_compare_by_their_members(rt: HostRuntime) -> Result<(), Fail> {
        let low = run_of::<Codes>(0, 40)?;
        let high = run_of::<Codes>(30, 63)?;
        let mut both = Codes::empty();
        assert!(rt; both.is_empty() && !low.is_empty());
        low.meet(&high, &mut both)?;
        assert!(rt; both.equals(&run_of::<Codes>(30, 40)?));
        assert!(rt; both.is_within(&low) && both.is_within(&high) && !low.is_within(&both));
        let mut either = Codes::empty();
        low.join(&high, &mut either)?;
        assert!(rt; either.equals(&run_of::<Codes>(0, 63)?) && !either.equals(&low));
        run_of::<Codes>(0, 29)?.meet(&high, &mut either)?;
        assert!(rt; either.is_empty());
        Ok(())
    }

    #[test]
    fn steps_go_up_to_the_last_value(rt: HostRuntime) {
        // 0, 62 and 63
        let ends = Codes(0b11 << 62 | 1);
        for (from, member, other) in [
            (0, Some(0), 1),
            (1, Some(62), 1),
            (62, Some(62), 64),
            (63, Some(63), 64),
            (64, None, 64),
            (4_294_967_295, None, 4_294_967_295),
        ] {
            assert_eq!(rt; ends.least_member(from), member);
            assert_eq!(rt; ends.least_non_member(from), Some(other));
        }
        assert_eq!(rt; Codes::empty().least_member(0), None);
        assert_eq!(rt; Codes::empty().least_non_member(0), Some(0));
        assert_eq!(rt; Codes(u64::MAX).least_non_member(0), Some(64));
    }

    #[test]
    fn runs_are_found_upward(rt: HostRuntime) {
        let set = Codes(0b1110_0110);
        for (from, low, high) in [(0, 1, 2), (2, 2, 2), (3, 5, 7), (6, 6, 7)] {
            assert_eq!(rt; next_run(&set, from), Some(Run { low, high }));
        }
        assert_eq!(rt; next_run(&set, 8), None);
    }
}
