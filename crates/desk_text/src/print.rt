// The lines that the desk program prints.
ghost use Rattle.std.specs.Prelude.{◌≡◌, ◌+◌, ◌*◌, ◌≤◌, length};
ghost use Rattle.text_put.specs.Put.{Appended};
ghost use Rattle.desk_text.specs.Desk.{has_number, beside_text, refused_text};
ghost use Rattle.desk_text.specs.Desk.{head_text, none_text};
ghost use Rattle.net.specs.Limits.{most_routes};
ghost use Rattle.desk_text.specs.Written.{most_text};
ghost use Rattle.desk_text.specs.Print.{Small, Printed, most_width};
ghost use Rattle.desk_text.specs.Lines.{lines_from, Leading};

use outcome::Told;

// Whether a number stands beside the outcome.
#[tactic(auto, using(crate::proofs::Tests::tests), unfolding(crate::specs::Desk::has_number))]
fn has_number(outcome: u32) -> bool
    ensures { result ≡ has_number outcome }
{
    (outcome >= 2 && outcome <= 6) || outcome == 12 || outcome == 14
}

// A space and the number, where one stands beside the outcome.
fn beside(out: &mut [u8], at: usize, outcome: u32, number: u32) -> usize
    requires { at + 21 ≤ length out.old }
    ensures { Appended out.old at (beside_text outcome number)
        out.new result }
{
    if has_number(outcome) {
        out[at] = b' ';
        return numerals::write(out, at + 1, number as u64);
    }
    at
}

// `refused`, the outcome, and for 2 to 6, 12 and 14 the number beside it.
pub fn refused(out: &mut [u8], told: Told) -> usize
    requires { most_text ≤ length out.old }
    ensures { Appended out.old 0 (refused_text told) out.new result }
{
    let first = text_put::bytes(out, 0, b"refused ");
    let second = numerals::write(out, first, told.outcome as u64);
    let last = beside(out, second, told.outcome, told.number);
    out[last] = b'\n';
    last + 1
}

// How many rounds were answered: the leading ones whose summaries have arcs.
fn leading(sums: summary::Sums, k: usize) -> usize
    requires { k ≤ most_routes }
    ensures { Leading sums k result }
{
    for j in 0..k {
        if sums.arcs[j] == 0 {
            return j;
        }
    }
    k
}

// The first line.
fn head(out: &mut [u8], outcome: u32, count: usize) -> usize
    requires { most_text ≤ length out.old }
    ensures { Appended out.old 0 (head_text outcome count)
        out.new result }
{
    let first = text_put::bytes(out, 0, b"end ");
    let second = numerals::write(out, first, outcome as u64);
    let third = text_put::bytes(out, second, b" routes ");
    let last = numerals::write(out, third, count as u64);
    out[last] = b'\n';
    last + 1
}

// A line for each of the answers, whose slots of w words stand in the area.
fn lines(
    out: &mut [u8],
    at: usize,
    count: usize,
    w: usize,
    sums: summary::Sums,
    area: &[u32],
) -> usize
    requires { (most_text ≤ length out.old) × (at ≤ 100) × (count ≤ most_routes)
        × (w ≤ most_width) × (count * w ≤ length area.now) × (Small sums count w) }
    ensures { Appended out.old at
        (lines_from sums w area.now count 0) out.new result }
{
    let mut next = at;
    for j in 0..count {
        let s = summary::at(sums, j);
        let a = j * w;
        let e = a + s.arcs as usize;
        next = desk_output::route(out, next, (j + 1) as u64, s.length, s.labels, &area[a..e]);
    }
    next
}

// The last line, where the last round has no answer.
fn none(out: &mut [u8], at: usize, labels: u64) -> usize
    requires { at + 26 ≤ length out.old }
    ensures { Appended out.old at (none_text labels) out.new result }
{
    let first = text_put::bytes(out, at, b"none ");
    let last = numerals::write(out, first, labels);
    out[last] = b'\n';
    last + 1
}

// `end`, the outcome, `routes` and how many, and a line for each round of a query for k routes,
// whose slots of w words stand in the area.
pub(crate) fn ended(
    out: &mut [u8],
    outcome: u32,
    k: usize,
    w: usize,
    sums: summary::Sums,
    area: &[u32],
) -> usize
    requires { (most_text ≤ length out.old) × (k ≤ most_routes) × (w ≤ most_width)
        × (k * w ≤ length area.now) × (Small sums k w) }
    ensures { (length out.new ≡ length out.old)
        × (Printed outcome w k sums area.now out.old out.new result) }
{
    let count = leading(sums, k);
    let first = head(out, outcome, count);
    let second = lines(out, first, count, w, sums, area);
    if count < k {
        let s = summary::at(sums, count);
        return none(out, second, s.labels);
    }
    second
}
