// The first line of the desk program's input: the query, unless it is the old form's or malformed.
#![tactic(auto)]

ghost use Rattle.desk_line.specs.Line.{line_from};
ghost use Rattle.desk_query.specs.Query.{first_in, as_query};
ghost use Rattle.desk_query.specs.Told.{FirstRead};

use outcome::{Outcome, Refusal};

// The query's numbers.
#[derive(Clone, Copy, Debug, PartialEq, Eq)]
pub struct Query {
    pub s: u32,
    pub goal: u32,
    pub k: u32,
    pub a: u32,
    pub b: u32,
}

// The query, where the line is not of the old form.
fn five(text: &[u8]) -> Result<Query, Refusal>
    ensures { FirstRead (as_query (line_from 5 text.now 0)) result }
{
    let mut row = [0u32; 5];
    match desk_line::line(text, 0, &mut row) {
        Some(_) => Ok(Query {
            s: row[0],
            goal: row[1],
            k: row[2],
            a: row[3],
            b: row[4],
        }),
        None => Err(Refusal {
            outcome: Outcome::Text,
            number: 1,
        }),
    }
}

// What the first line of a text is.
pub fn read(text: &[u8]) -> Result<Query, Refusal>
    ensures { FirstRead (first_in text.now) result }
{
    let mut row = [0u32; 7];
    match desk_line::line(text, 0, &mut row) {
        Some(_) => Err(Refusal::plain(Outcome::OldForm)),
        None => five(text),
    }
}
