// The paper's examples P1 to P12: specs/Table.antt states them, proofs/Shown.antt shows them. proofs/SmallImage.antt computes a small image that opens;
// it stands here, and not in history, which cites it, so that a check of history does not hash it again.
#![tactic(auto)]

ghost use Rattle.examples.specs.Table.{Examples};

// The examples hold: the check of this crate asks for the whole table by its statement, not by a proof's name.
pub fn examples()
    ensures { Examples }
{}
