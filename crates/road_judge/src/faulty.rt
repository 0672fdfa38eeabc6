// A faulty arc of a road file.
ghost use Rattle.std.specs.Prelude.{◌≢◌};
ghost use Rattle.outcome.specs.declared.Outcome.TheVariants.{Found};

use outcome::Outcome;

// Where an arc stands: its start node, and its place in the file.
#[derive(Clone, Copy, Debug, PartialEq, Eq)]
pub struct Place {
    pub start: u32,
    pub at: u32,
}

// The fault of an arc, and where the arc stands.
#[derive(Clone, Copy, Debug, PartialEq, Eq)]
pub struct Faulty {
    pub fault: Outcome,
    pub place: Place,
    ghost refused: { fault ≢ Found },
}
