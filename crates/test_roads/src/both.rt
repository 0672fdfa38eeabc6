// A text answered by the library and by the second reader.
ghost use Rattle.std.specs.Prelude.{◌≤◌};

use crate::{area, back, reader};
use outcome::{Refusal, Told};
use road_made::Made;

fn wide(x: u32) -> usize {
    x as usize
}

pub(crate) fn told(answer: Result<Made, Refusal>) -> area::Answer {
    match answer {
        Ok(made) => area::Answer {
            outcome: 0,
            number: 0,
            bytes: made.bytes,
            nodes: wide(made.nodes),
        },
        Err(refusal) => {
            let told = Told::from(refusal);
            area::Answer {
                outcome: wide(told.outcome),
                number: wide(told.number),
                bytes: 0,
                nodes: 0,
            }
        }
    }
}

// Where the part of the area ends that is lent.
pub(crate) fn end(room: usize) -> usize
    ensures { (64 ≤ result) × (result ≤ 464) }
{
    if room < area::AMPLE {
        area::FROM + room
    } else {
        area::FROM + area::AMPLE
    }
}

// The library's call. What it leaves is told by no contract here.
pub(crate) fn read(text: &[u8], table: &mut [u8]) -> area::Answer {
    told(road_read::read(text, table))
}

// Does the library answer what is due, and leave the area as is due?
pub(crate) fn gives(text: &[u8], room: usize, due: area::Answer, left: &area::Area) -> bool {
    let mut area = [area::JUNK; area::AREA];
    let e = end(room);
    let answer = read(text, &mut area[area::FROM..e]);
    (due == answer) & (area == *left)
}

fn number(x: usize) {
    io::write_all(1, b" ");
    io::print_decimal(1, x as u64);
}

pub(crate) fn print(due: area::Answer) {
    number(due.outcome);
    number(due.number);
    number(due.bytes);
    number(due.nodes);
}

// The word where a test fails.
pub(crate) fn unless(test: bool, word: &[u8]) {
    if !test {
        io::write_all(1, word);
    }
}

fn end_line(given: bool, written: bool) {
    unless(given, b" DIFFERS");
    unless(written, b" WRITTEN DIFFERS");
    io::write_all(1, b"\n");
}

// A line with what is due, and whether the library gives or writes something else.
pub(crate) fn show(text: &[u8], room: usize) {
    let mut left = [area::JUNK; area::AREA];
    let due = reader::answer(text, room, &mut left);
    print(due);
    end_line(
        gives(text, room, due, &left),
        back::holds(text, room, due, &left),
    );
}

// Do both answer alike, leave the area alike, and is it written back as is due?
pub(crate) fn agree(text: &[u8]) -> bool {
    let mut left = [area::JUNK; area::AREA];
    let due = reader::answer(text, area::AMPLE, &mut left);
    gives(text, area::AMPLE, due, &left) & back::holds(text, area::AMPLE, due, &left)
}
