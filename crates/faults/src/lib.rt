// The fault list: every block of levels 1 to 4 that is not verified in the committed view.
#![tactic(auto)]

ghost use Rattle.faults.specs.Laws.{FaultLaws};

// The last of the levels.
pub const LAST: u64 = 4;

mod judging;
pub mod listing;
mod marking;

// A block that is not verified: its partition (0 is A and 1 is B), its level and its number.
#[repr(C)]
#[derive(Clone, Copy, PartialEq, Eq, Debug)]
pub struct Fault {
    pub partition: u64,
    pub level: u64,
    pub block: u64,
}

// How far the list has come: how many blocks were looked at, and how many of them are faults.
#[derive(Clone, Copy)]
pub struct Listed {
    pub blocks: u64,
    pub faults: usize,
}

// The laws of the list hold: the check of this crate asks for them by their statement.
pub fn laws()
    ensures { FaultLaws }
{}
