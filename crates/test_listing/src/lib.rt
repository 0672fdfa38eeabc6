// The definition followed over a list of all partial routes: a second opinion on small tables, of
// at most 24 arcs and 1,000 partial routes. More is told by outcome 12.
#![tactic(auto)]

mod chains;
mod faults;
mod results;
mod rounds;
mod sheet;
mod show;
mod text;

ghost use Rattle.std.specs.Prelude.{◌≤◌, length};

const MOST_OUTCOME: usize = 15;

// What the desk program lends: the room, and words that any answer fits in.
const ROOM: usize = 512;

const WORDS: usize = 65536;

// The outcome, and the number beside it.
#[derive(Drop)]
pub struct Told {
    pub outcome: usize,
    pub number: usize,
}

// x, but at most `most`.
fn at_most(x: usize, most: usize) -> usize
    ensures { result ≤ most }
{
    if x < most { x } else { most }
}

// Fills the sheet from numbers.
fn ask<'a>(asked: &[usize], sheet: &'a mut sheet::Sheet) -> &'a mut sheet::Sheet {
    rounds::run(chains::list(sheet::copy(sheet, asked)))
}

// Fills the sheet from a text.
fn read<'a>(text: &[u8], sheet: &'a mut sheet::Sheet) -> &'a mut sheet::Sheet {
    let words = sheet::put(sheet::put(sheet, sheet::ROOM, ROOM), sheet::WORDS, WORDS);
    let lent = sheet::put(words, sheet::SUMMARIES, sheet::MOST_ROUNDS);
    rounds::run(chains::list(text::read(text, lent)))
}

// The call on numbers. `asked`: nodes, arcs, s, t, k, a, b, the room, words of the area, summaries,
// table bytes past the last whole record, whether closures are lent (0 for not) and how many bytes
// of them; then from, to, length, road number and the closure byte of each arc. Where the rounds
// are reached `slots` begins with the k slots, and `sums` with length, arcs and label count of each
// of the k rounds.
pub fn answer(asked: &[usize], slots: &mut [usize], sums: &mut [usize]) -> Told
    ensures { result.outcome ≤ 15 }
{
    let mut sheet = [0usize; sheet::SHEET];
    ask(asked, &mut sheet);
    results::leave(&sheet, true, slots);
    results::leave(&sheet, false, sums);
    let told = results::told(&sheet);
    Told {
        outcome: at_most(told / faults::TOLD, MOST_OUTCOME),
        number: test_cells::less_one(told % faults::TOLD),
    }
}

// The desk program on a text: what it prints begins `out`. Returns its number of bytes.
pub fn desk(text: &[u8], out: &mut [u8]) -> usize
    ensures { result ≤ length out.old }
{
    let mut sheet = [0usize; sheet::SHEET];
    let most = out.len();
    read(text, &mut sheet);
    at_most(show::print(out, &sheet), most)
}
