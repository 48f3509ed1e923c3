//! What holds of every scale. These functions do nothing: their contracts are the theorems, and proofs/Theorems.antt leads to the proofs.
ghost use Rattle.scale.specs.Promise.{ThreeAtMost, GoRound, ByRules, OneMore, Downwards, Spans};
ghost use Rattle.scale.specs.Laws.{HeightsAdd, HeightsSubtract, HeightsDown, QuotientSmall, CeilingLeast, ShortfallLeast, TurnsBegin};
ghost use Rattle.scale.specs.Laws.{NoNoteNearer, BasisExists, BasisTold, BasisBegins, BasisGrows, IntervalNeeded, RepeatsJustIf};
ghost use Rattle.scale.specs.Laws.{StepsByBasis, SizesListed, StepsCounted, NoteAlone, WholeJustIf, FirstWhole};
ghost use Rattle.scale.specs.Laws.{NextPlace, PlacesByHeight, PlacesDiffer, PlacesFilled};
ghost use Rattle.scale.specs.Scales.{FiveFifths, SevenFifths, SevenInTwelve};

/// There are at most three sizes of steps, and if there are three the largest is the other two together.
#[tactic(auto, using(crate::proofs::Theorems::three_at_most))]
pub fn three_sizes_at_most()
    ensures { ThreeAtMost }
{}

/// All steps together are an octave.
#[tactic(auto, using(crate::proofs::Theorems::go_round))]
pub fn steps_go_round()
    ensures { GoRound }
{}

/// With a and b the numbers of the notes next above and next below note 0: after note k comes k + a, if that is there; else k + a - b for k below b,
/// and k - b for the others.
#[tactic(auto, using(crate::proofs::Theorems::by_rules))]
pub fn next_by_rules()
    ensures { ByRules }
{}

/// One note more, at a new height, cuts one step in two, and no other.
#[tactic(auto, using(crate::proofs::Theorems::one_more))]
pub fn one_note_more()
    ensures { OneMore }
{}

/// The interval down in place of up, if it is above 0, makes the same sizes, and as many of each.
#[tactic(auto, using(crate::proofs::Theorems::downwards))]
pub fn interval_downwards()
    ensures { Downwards }
{}

/// A whole scale of two notes or more has at most two sizes of steps, and two spans of the same number of steps, up to as many as there are notes, are
/// the same or differ by as much as the sizes do.
#[tactic(auto, using(crate::proofs::Theorems::spans))]
pub fn spans_of_whole_scales()
    ensures { Spans }
{}

/// The heights of a sum and of a difference of notes, and those with the interval down.
#[tactic(auto, using(crate::proofs::Theorems::heights_add, crate::proofs::Theorems::heights_subtract, crate::proofs::Theorems::heights_down))]
pub fn height_laws()
    ensures add { HeightsAdd }
    ensures subtract { HeightsSubtract }
    ensures down { HeightsDown }
{}

/// What quotients of products come to, and where the turns round the octave begin.
#[tactic(auto, using(crate::proofs::Theorems::quotient_small, crate::proofs::Theorems::ceiling_least, crate::proofs::Theorems::turns_begin))]
pub fn quotient_laws()
    ensures small { QuotientSmall }
    ensures ceiling { CeilingLeast }
    ensures shortfall { ShortfallLeast }
    ensures turns { TurnsBegin }
{}

/// The basis of a tuning, two notes next to note 0: that it exists, which notes it has, how it is found, and when notes repeat.
#[tactic(auto, using(crate::proofs::Theorems::basis_exists, crate::proofs::Theorems::basis_begins, crate::proofs::Theorems::interval_needed))]
pub fn basis_laws()
    ensures nearest { NoNoteNearer }
    ensures exists { BasisExists }
    ensures told { BasisTold }
    ensures begins { BasisBegins }
    ensures grows { BasisGrows }
    ensures needed { IntervalNeeded }
    ensures repeats { RepeatsJustIf }
{}

/// From the basis follow the step of every note and its next note, the sizes of steps, and how many there are of each; and the same of one note alone.
#[tactic(auto, using(crate::proofs::Theorems::sizes_listed, crate::proofs::Theorems::steps_counted))]
pub fn step_laws()
    ensures steps { StepsByBasis }
    ensures sizes { SizesListed }
    ensures counted { StepsCounted }
    ensures alone { NoteAlone }
{}

/// From the basis follows which numbers of notes make a whole scale.
#[tactic(auto, using(crate::proofs::Theorems::whole_just_if))]
pub fn whole_scale_laws()
    ensures whole { WholeJustIf }
    ensures first { FirstWhole }
{}

/// Places go by height, and each has one note; the next note stands one place higher, and after the last place at place 0.
#[tactic(auto, using(crate::proofs::Theorems::next_place, crate::proofs::Theorems::places_by_height, crate::proofs::Theorems::places_differ, crate::proofs::Theorems::places_filled))]
pub fn place_laws()
    ensures next { NextPlace }
    ensures height { PlacesByHeight }
    ensures differ { PlacesDiffer }
    ensures filled { PlacesFilled }
{}

/// Three scales written out: their notes by height, and their sizes of steps with how many there are of each.
#[tactic(auto, using(crate::proofs::Theorems::five_fifths, crate::proofs::Theorems::seven_fifths, crate::proofs::Theorems::seven_in_twelve))]
pub fn worked_scales()
    ensures five { FiveFifths }
    ensures seven { SevenFifths }
    ensures twelve { SevenInTwelve }
{}
