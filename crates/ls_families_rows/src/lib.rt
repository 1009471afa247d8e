//! Shapes, programs and texts of families, made by a generator that was written apart: the definitions of ls_families
//! compute them. They stand above ls_families, so that a new one is no change of that crate.
#![tactic(auto)]

ghost use Rattle.ls_families_rows.specs.Programs.{ByMaking, ByNumber, Counts, Doubles, NoneAfter, Numbered, Others};
ghost use Rattle.ls_families_rows.specs.Programs.{Texts};
ghost use Rattle.ls_families_rows.specs.Shapes.{OneCallEach, ThreeThreads, TwoThreads};

/// The shapes within bounds.
pub fn shapes()
    ensures two_threads { TwoThreads }
    ensures three_threads { ThreeThreads }
    ensures one_call_each { OneCallEach }
{}

/// The programs of a family.
pub fn programs()
    ensures by_number { ByNumber }
    ensures by_making { ByMaking }
    ensures none_after { NoneAfter }
    ensures counts { Counts }
    ensures doubles { Doubles }
    ensures others { Others }
    ensures numbered { Numbered }
    ensures texts { Texts }
{}
