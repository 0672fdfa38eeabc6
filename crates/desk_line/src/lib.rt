// A line of numbers in the desk program's input, read at a place of a text.
#![tactic(auto)]

ghost use Rattle.std.specs.Prelude.{◌≡◌, ◌≤◌, ◌<◌, length};
ghost use Rattle.numerals.specs.Read.{read_of};
ghost use Rattle.desk_line.specs.Line.{separator, line_from};
ghost use Rattle.desk_line.specs.Parsed.{number_before, line_of};

use numerals::Numeral;

// The most nodes and arcs that the desk program takes.
pub const MOST_NODES: u32 = 1024;

pub const MOST_ARCS: u32 = 4096;

const SPACE: u8 = b' ';

const NEWLINE: u8 = b'\n';

// What follows a number that `left` more numbers follow in its line.
fn mark_after(left: usize) -> u8
    ensures { result ≡ separator left }
{
    if left == 0 { NEWLINE } else { SPACE }
}

// The number at `at`, where the byte after it is `mark`; its second value is that byte's place.
fn number_before(text: &[u8], at: usize, mark: u8) -> Option<Numeral>
    requires { (at ≤ length text.now) × (0 < mark) }
    ensures { read_of at result ≡ number_before mark text.now at }
{
    let number = numerals::read(text, at)?;
    if number.next < text.len() && text[number.next] == mark {
        return Some(number);
    }
    None
}

// A line of as many numbers as `into` has, from place `at` on: the place after it, unless it is
// malformed.
pub fn line(text: &[u8], at: usize, into: &mut [u32]) -> Option<usize>
    requires { at ≤ length text.now }
    ensures { (length into.new ≡ length into.old)
        × (line_of result into.new
        ≡ line_from (length into.old) text.now at) }
{
    let n = into.len();
    let mut place = at;
    for (i, value) in into.iter_mut().enumerate() {
        let number = number_before(text, place, mark_after(n - (i + 1)))?;
        *value = number.value;
        place = number.next + 1;
    }
    Some(place)
}
