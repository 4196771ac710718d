// What holds of every blank image: it opens with the fields of the request, every block of every level is verified, level 4 is all zero, and it
// takes sessions. Definitions and proofs; the function asks for the theorem.
#![tactic(auto)]

ghost use Rattle.blank_theorem.specs.Closed.{BlankTheorem};

// The check of this crate asks for the theorem by its statement, not by a proof's name.
pub fn blank_theorem()
    ensures { BlankTheorem }
{}
