//! The theory of statistical data editing: what a domain, an edit and a sound record are.
//!
//! The definitions stand in `specs/`, over sets of values as membership tests. A function here does
//! nothing; its contract is a theorem about the definitions, so the gate asks for the proof.
#![tactic(auto)]

ghost use Rattle.editing.specs.Theorems.{ContainedAddsNothing, ContainsIsAnOrder, LargerFailsToo};

/// Each edit contains itself, and an edit contains what is contained in one that it contains.
pub fn containing_is_an_order()
    ensures theorem { ContainsIsAnOrder }
{}

/// A record within the domains that fails an edit fails every edit that contains it.
pub fn larger_fails_too()
    ensures theorem { LargerFailsToo }
{}

/// An edit that another of the list contains adds nothing: the same records are sound.
pub fn contained_adds_nothing()
    ensures theorem { ContainedAddsNothing }
{}
