// What is promised of dealings and of every sequence of calls that follows one, for every kind of element.
// Each function here carries a theorem in its contract; the definitions are those that the calls' own contracts cite.
#![tactic(auto)]

ghost use Rattle.sharing.specs.Example.{RunsExist};
ghost use Rattle.sharing.specs.Promise.{Hides, HidesAsAsked, Restores, ShiftsByElements};
ghost use Rattle.sharing.specs.Restoring.{CoverHides, DealingIsLinear, DealingRestores};
ghost use Rattle.sharing.specs.Secrecy.{OppositeUndoes};
ghost use Rattle.sharing.specs.Worked.{WorkedCases};

use kinds::element::Element;

// Dealing is linear in key and random elements.
pub fn dealing_is_linear<E: Element>()
    ensures { DealingIsLinear E.Element.group }
{}

// Every group restores the key from a dealing, and after any run still the key dealt.
pub fn groups_restore<E: Element>()
    ensures dealt { DealingRestores E.Element.group }
    ensures run { Restores E.Element.group E.Element.meaning }
{}

// Harbours that hold no whole group cannot tell a difference of keys from its cover.
pub fn cover_hides<E: Element>()
    ensures { CoverHides E.Element.group }
{}

// Whoever reads no whole group in any round, or fewer than t harbours of a plan, learns nothing from any run.
pub fn runs_hide<E: Element>()
    ensures hides { Hides E.Element.group E.Element.meaning }
    ensures as_asked { HidesAsAsked E.Element.group E.Element.meaning }
    ensures undoes { OppositeUndoes E.Element.group }
{}

// The shift that hides a difference is one of elements.
pub fn shift_is_of_elements<E: Element>()
    ensures { ShiftsByElements E.Element.group E.Element.meaning }
{}

// The premises can be met: two runs of one sequence of calls, over two rounds with different harbours read, from keys that differ.
pub fn runs_exist()
    ensures { RunsExist }
{}

// The worked cases hold of the definitions, all together.
pub fn worked_cases()
    ensures { WorkedCases }
{}
