// Mathematics of a sitting, with no call of the product: what each call answers, by definitions, and theorems on every run of calls. The
// contracts of present, withdraw, seal and reopen cite these definitions; the call `open`, which is to cite its own, is to come. A theorem
// is the contract of a function that does nothing.
#![tactic(auto)]

ghost use Rattle.runs.specs.Law.{LawApplies, LawOverRuns};
ghost use Rattle.runs.specs.Lying.{LyingByAcceptedCalls, LyingUntilWithdrawn, OneCardEach};
ghost use Rattle.runs.specs.Openings.{DealtCardsOpen, FittingSettles};

// The law over runs: whatever t participants do together, all but at most w·q^(d − 1) of the q^d choices of tag polynomials that they
// cannot tell apart let every opening that passes its first three questions name exactly the altered cards, and give the key where k
// unaltered cards lie. Here w counts the accepted presents of altered cards in the script.
pub fn law_over_runs()
    ensures { LawOverRuns }
{}

// The law speaks of something: a deal, a group and a script as it asks for exist, with an opening while an altered card lies.
pub fn law_applies()
    ensures { LawApplies }
{}

// Which cards lie depends only on the accepted calls.
pub fn lying_by_accepted_calls()
    ensures { LyingByAcceptedCalls }
{}

// An accepted present makes exactly that card lie until the next accepted withdraw of its number.
pub fn lying_until_withdrawn()
    ensures { LyingUntilWithdrawn }
{}

// At most one card of a number lies.
pub fn one_card_each()
    ensures { OneCardEach }
{}

// Past its first three questions open refuses with 34 exactly where no polynomial fits at some place, and never with 35.
pub fn fitting_settles()
    ensures { FittingSettles }
{}

// Any k or more cards as dealt, lying alone, open to the key with no name.
pub fn dealt_cards_open()
    ensures { DealtCardsOpen }
{}
