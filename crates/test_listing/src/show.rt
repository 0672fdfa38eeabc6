// The lines that the desk program prints: the first, one for each answer, and one for a round
// without. The text is a list of glyphs, of which 0 stands for none: each number of each line has
// some for the word before it and some for its digits.
use crate::{faults, results, sheet};

const WORD: usize = 8;

const DIGITS: usize = 12;

const GLYPHS: usize = WORD + DIGITS;

const LAST_GLYPH: usize = GLYPHS - 1;

const LINE: usize = sheet::MOST_ARCS + 3;

// The words, by their places in `glyph`.
const GAP: usize = 0;

const END: usize = 1;

const REFUSED: usize = 2;

const ROUTES: usize = 3;

const NEXT: usize = 4;

const NONE: usize = 5;

const TEXT: usize = (sheet::MOST_ROUNDS + 2) * LINE * GLYPHS;

// One more than number j of the line, or 0 after the last.
fn number(sheet: &sheet::Sheet, told: usize, line: usize, j: usize) -> usize {
    let outcome = told / faults::TOLD;
    let found = sheet::get(sheet, sheet::FOUND);
    let reached = results::reached(told);
    let mut first = test_cells::pick(reached, test_cells::add(found, 1), told % faults::TOLD);
    first = test_cells::pick(
        j == 0,
        test_cells::add(outcome, 1),
        test_cells::pick(j == 1, first, 0),
    );
    let past = (line > found) & (j > 0);
    let none = past | (line > test_cells::add(found, (outcome > 0) as usize)) | !reached;
    let at = test_cells::pick(
        line > found,
        results::LABELS,
        test_cells::add(j, (j > 1) as usize),
    );
    let later = test_cells::pick(none, 0, results::fact(sheet, line, at));
    test_cells::pick(line == 0, first, later)
}

// The word before number j of the line.
fn word(sheet: &sheet::Sheet, told: usize, line: usize, j: usize) -> usize {
    let reached = results::reached(told);
    let mut word = test_cells::pick(line > sheet::get(sheet, sheet::FOUND), NONE, NEXT);
    word = test_cells::pick(line > 0, word, test_cells::pick(reached, END, REFUSED));
    test_cells::pick(
        j == 0,
        word,
        test_cells::pick(reached & (line == 0), ROUTES, GAP),
    )
}

// The digit of the value after which `after` more follow; none of those before the first that
// counts.
fn digit(value: usize, after: usize) -> u8 {
    let mut rest = value;
    for i in 0..after {
        rest = rest / 10;
    }
    if (rest == 0) & (after > 0) {
        return 0;
    }
    (rest % 10) as u8 + b'0'
}

fn glyph(sheet: &sheet::Sheet, told: usize, i: usize) -> u8 {
    let line = i / GLYPHS / LINE;
    let j = i / GLYPHS % LINE;
    let number = number(sheet, told, line, j);
    if number == 0 {
        0
    } else if i % GLYPHS < WORD {
        test_cells::byte(
            b" \0\0\0\0\0\0\0end \0\0\0\0refused  routes \n\0\0\0\0\0\0\0\nnone \0\0",
            test_cells::place(word(sheet, told, line, j), WORD, i % GLYPHS),
        )
    } else {
        digit(test_cells::less_one(number), LAST_GLYPH - i % GLYPHS)
    }
}

// Prints what the sheet says. Returns the number of bytes. A glyph takes the place of a none before
// it; the last is a newline.
pub(crate) fn print(out: &mut [u8], sheet: &sheet::Sheet) -> usize {
    let told = results::told(sheet);
    let glyphs = TEXT;
    let mut at = 0;
    for i in 0..glyphs {
        let glyph = glyph(sheet, told, i);
        test_cells::put(out, at, glyph);
        at = test_cells::add(at, (glyph > 0) as usize);
    }
    test_cells::put(out, at, b'\n');
    test_cells::add(at, 1)
}
