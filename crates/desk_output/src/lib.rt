// The desk program's output: lines of text written one after the other into a lent buffer.
#![tactic(auto)]

ghost use Rattle.std.specs.Prelude.{◌+◌, ◌*◌, ◌≤◌, length};
ghost use Rattle.text_put.specs.Put.{Appended};
ghost use Rattle.desk_output.specs.Line.{numbers_text, route_text, most_line};

// A space and a number, for each of the numbers.
fn numbers(out: &mut [u8], at: usize, vs: &[u32]) -> usize
    requires { at + length vs.now * 21 ≤ length out.old }
    ensures { Appended out.old at (numbers_text vs.now)
        out.new result }
{
    let mut next = at;
    for &v in vs {
        next = text_put::spaced(out, next, v as u64);
    }
    next
}

// A route's line: round, length, label count and arc numbers.
pub fn route(out: &mut [u8], at: usize, round: u64, len: u64, labels: u64, arcs: &[u32]) -> usize
    requires { at + most_line (length arcs.now) ≤ length out.old }
    ensures { Appended out.old at
        (route_text round len labels arcs.now) out.new result }
{
    let first = numerals::write(out, at, round);
    let second = text_put::spaced(out, first, len);
    let third = text_put::spaced(out, second, labels);
    let last = numbers(out, third, arcs);
    out[last] = b'\n';
    last + 1
}
