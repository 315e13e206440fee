//! The promises over whole runs of calls. Each function here is made for its contract: the statement that
//! it carries is proved of the very definitions that the contracts of the book's calls cite.
#![tactic(auto)]

ghost use Rattle.privacy.specs.Lives.{LivesAreRuns};
ghost use Rattle.privacy.specs.Privacy.{GroupLearnsNothing, OnePairing};
ghost use Rattle.privacy.specs.Totals.{TotalsAreValues, SharesRebuildValues};

// A book, from its making on and whatever is called, goes through the very runs that the promises below speak of: until set
// is accepted every call is refused, and from then on set is, and changes nothing.
pub fn lives_are_runs()
    ensures { LivesAreRuns }
{}

// Totals are plain: the total that an accepted open answers is the line's value, worked out from the
// accepted calls alone.
pub fn totals_are_values()
    ensures { TotalsAreValues }
{}

// Any k or more seats' shares of a full line rebuild its value.
pub fn shares_rebuild_values()
    ensures { SharesRebuildValues }
{}

// A group of fewer than k seats learns nothing beyond the opened totals, over any list of calls.
pub fn group_learns_nothing()
    ensures { GroupLearnsNothing }
{}

// One pairing serves from the first call to the last, so a group that picks its next call by what it has
// seen gains nothing.
pub fn one_pairing()
    ensures { OnePairing }
{}
