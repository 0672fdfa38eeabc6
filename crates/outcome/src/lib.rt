// What every call answers: document 01's number of the outcome, and the number beside it.
// specs/Outcome.antt says what each number means.
#![tactic(auto)]

ghost use Rattle.std.specs.Prelude.{◌≢◌};
ghost use Rattle.outcome.specs.declared.Outcome.TheVariants.{Found};

/// The outcomes of document 01 by their numbers; 5 and 26 are given no longer.
#[derive(Clone, Copy, Debug, PartialEq, Eq)]
pub enum Outcome {
    Found = 0,
    Fewer = 1,
    Node = 2,
    Loop = 3,
    Length = 4,
    Order = 6,
    Ends = 7,
    Routes = 8,
    Threshold = 9,
    Buffers = 10,
    Room = 11,
    Text = 12,
    Size = 13,
    File = 14,
    Closures = 15,
    PlanFile = 16,
    PlanRequest = 17,
    PlanThere = 18,
    PlanRoom = 19,
    Second = 20,
    NoPair = 21,
    Range = 22,
    ListFull = 23,
    TooFew = 24,
    OldForm = 25,
    Numbered = 27,
}

/// What is told of a call, as C has it.
#[repr(C)]
#[derive(Clone, Copy, Debug, PartialEq, Eq)]
pub struct Told {
    pub outcome: u32,
    pub number: u32,
}

/// Why a call is refused: an outcome that is not 0, and the record, line or round that it names, or 0.
#[derive(Clone, Copy, Debug, PartialEq, Eq)]
pub struct Refusal {
    pub outcome: Outcome,
    pub number: u32,
    ghost refused: { outcome ≢ Found },
}

impl Outcome {
    ghost use Rattle.std.specs.Prelude.{◌≡◌};
    ghost use Rattle.outcome.specs.Outcome.{plain, beside, number_of};

    /// The outcome, with this number beside it.
    pub fn beside(self, number: u32) -> Told
        ensures { result ≡ beside (number_of self) number }
    {
        Told {
            outcome: self as u32,
            number,
        }
    }

    /// The outcome, with no number named.
    pub fn plain(self) -> Told
        ensures { result ≡ plain (number_of self) }
    {
        self.beside(0)
    }
}

impl Refusal {
    ghost use Rattle.std.specs.Prelude.{◌≡◌, ◌≢◌};
    ghost use Rattle.outcome.specs.declared.Outcome.TheVariants.{Found};
    ghost use Rattle.outcome.specs.Outcome.{plain, number_of, told_of};

    /// A refusal that names no record, line or round.
    pub fn plain(outcome: Outcome) -> Refusal
        requires { outcome ≢ Found }
        ensures { told_of result ≡ plain (number_of outcome) }
    {
        Refusal { outcome, number: 0 }
    }
}

impl From<Refusal> for Told {
    ghost use Rattle.std.specs.Prelude.{◌≡◌};
    ghost use Rattle.outcome.specs.Outcome.{told_of};

    ghost from_gives = { λ refusal told. told ≡ told_of refusal };

    fn from(refusal: Refusal) -> Told {
        refusal.outcome.beside(refusal.number)
    }
}
