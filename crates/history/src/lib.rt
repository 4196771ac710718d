// Lists of calls: the model that they follow, and the theorem that they do. Definitions and proofs; the functions ask for the theorems.
//
// Wrong models that each theorem excludes, tried as edits in must-fail/. There is no program here to edit: a wrong program of a call is refused in the
// crates below already, at the contract on which the theorem rests (docs/CLAIMS.md, "What each public contract rules out").
// - history: begin_stages_nothing, commit_lands_nothing, commit_keeps_staged, abandon_keeps_staged, staged_read_while_idle,
//   untouched_block_refused, write_to_any_partition;
// - crash: dropped_stores_nothing;
// - landing: first_value_wins, write_marks_nothing;
// - a partition of either kind: write_in_place_loosens_nothing, dropped_loosens_nothing;
// - step back: signature_not_renewed;
// - term: crash_keeps_session, commit_appends_nothing, revert_removes_nothing, version_forgets_verified.
#![tactic(auto)]

ghost use Rattle.history.specs.External.{EitherTheorem};
ghost use Rattle.history.specs.External.{InPlaceTheorem};
ghost use Rattle.history.specs.Former.{Former};
ghost use Rattle.history.specs.Fronts.{FrontTheorem};
ghost use Rattle.history.specs.ReadBack.{ReadBack};
ghost use Rattle.history.specs.Term.{RevertTheorem};
ghost use Rattle.history.specs.Term.{TermTheorem};
ghost use Rattle.history.specs.Theorem.{Demand3};

// Demand 3 holds: the check of this crate asks for the theorem by its statement, not by a proof's name.
pub fn demand3()
    ensures { Demand3 }
{}

// So does what a write leaves.
pub fn read_back()
    ensures { ReadBack }
{}

// A write in place leaves the committed hash levels alone.
pub fn in_place()
    ensures { InPlaceTheorem }
{}

// For internal partitions demand 3 says what it said before such writes.
pub fn not_weaker()
    ensures { Former }
{}

// A partition of either kind follows the model but in the blocks that were written to in place.
pub fn either_kind()
    ensures { EitherTheorem }
{}

// A revert gives back the image before the commit.
pub fn step_back()
    ensures { RevertTheorem }
{}

// A whole term follows its list of versions.
pub fn term()
    ensures { TermTheorem }
{}

// No call reads or changes the bytes before the header, but for the signature of the signed ones.
pub fn front_unread()
    ensures { FrontTheorem }
{}
