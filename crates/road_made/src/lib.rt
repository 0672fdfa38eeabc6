// What a call that makes a table or a text gives, and the same as numbers.
#![tactic(auto)]

ghost use Rattle.std.specs.Prelude.{◌≡◌};
ghost use Rattle.road_made.specs.Made.{answer_of, numbers_of};

use outcome::{Outcome, Refusal, Told};

// What was made: its bytes, and the node count of a table; a text has none.
#[derive(Clone, Copy, Debug, PartialEq, Eq)]
pub struct Made {
    pub bytes: usize,
    pub nodes: u32,
}

// For callers that can be handed no enum: outcome, the number beside it, the bytes made, and the node
// count of a table.
#[repr(C)]
#[derive(Clone, Copy, Debug, PartialEq, Eq)]
pub struct MadeNumbers {
    pub outcome: u32,
    pub number: u32,
    pub bytes: usize,
    pub nodes: u32,
}

impl From<Result<Made, Refusal>> for MadeNumbers {
    ghost from_gives = { λ made numbers. numbers ≡ numbers_of (answer_of made) };

    fn from(answer: Result<Made, Refusal>) -> MadeNumbers {
        match answer {
            Ok(made) => MadeNumbers {
                outcome: Outcome::Found as u32,
                number: 0,
                bytes: made.bytes,
                nodes: made.nodes,
            },
            Err(refusal) => {
                let told = Told::from(refusal);
                MadeNumbers {
                    outcome: told.outcome,
                    number: told.number,
                    bytes: 0,
                    nodes: 0,
                }
            }
        }
    }
}
