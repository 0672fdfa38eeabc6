// Decimal numbers in text: read at a place, and written at a place.
#![tactic(auto)]

ghost use Rattle.std.specs.Prelude.{◌≡◌, true, ◌+◌, ◌≤◌, length, drop, get_or};
ghost use Rattle.words.specs.Part.{patch};
ghost use Rattle.numerals.specs.Decimal.{is_digit, digits, well_formed, number, decimal};
ghost use Rattle.numerals.specs.Read.{read_of};

const MOST: u64 = 4294967295;

// A number that stands in a text, and the place after it.
#[derive(Clone, Copy, Debug, PartialEq, Eq)]
pub struct Numeral {
    pub value: u32,
    pub next: usize,
}

// Whether a digit stands at place i: past the end none does.
fn digit_at(text: &[u8], i: usize) -> bool
    ensures { result ≡ is_digit (get_or text.now i 0) }
{
    i < text.len() && text[i].is_ascii_digit()
}

// Whether the digits at place `at` may be a number: there are some, and no zero leads others.
fn well_formed(text: &[u8], at: usize) -> bool
    ensures { result ≡ well_formed (digits (drop at text.now)) }
{
    digit_at(text, at) && (text[at] != b'0' || !digit_at(text, at + 1))
}

// The number of all digits from place `at` on, given up as soon as it is too large.
fn collect(text: &[u8], at: usize) -> Option<Numeral>
    requires { (at ≤ length text.now)
        × (well_formed (digits (drop at text.now)) ≡ true) }
    ensures { read_of at result ≡ number (drop at text.now) }
{
    let mut value = 0u64;
    for i in at..text.len() {
        if !text[i].is_ascii_digit() {
            return Some(Numeral {
                value: value as u32,
                next: i,
            });
        }
        value = value * 10 + (text[i] - b'0') as u64;
        if MOST < value {
            return None;
        }
    }
    Some(Numeral {
        value: value as u32,
        next: text.len(),
    })
}

// The number at place `at`: all digits that stand there.
pub fn read(text: &[u8], at: usize) -> Option<Numeral>
    requires { at ≤ length text.now }
    ensures { read_of at result ≡ number (drop at text.now) }
{
    if well_formed(text, at) {
        collect(text, at)
    } else {
        None
    }
}

// How many digits v has.
pub fn digit_count(v: u64) -> usize
    ensures { result ≡ length (decimal v) }
{
    let mut k = 1;
    let mut w = v;
    while 10 <= w {
        w /= 10;
        k += 1;
    }
    k
}

// The digits of v, from the last to the first, where s has a place for each.
fn fill_digits(s: &mut [u8], v: u64)
    requires { length s.old ≡ length (decimal v) }
    ensures { s.new ≡ decimal v }
{
    let mut w = v;
    for k in (1..s.len()).rev() {
        s[k] = b'0' + (w % 10) as u8;
        w /= 10;
    }
    s[0] = b'0' + w as u8;
}

// The digits of v at place `at`, where there is room for them; the place after them.
pub fn put(out: &mut [u8], at: usize, v: u64) -> usize
    requires { at + length (decimal v) ≤ length out.old }
    ensures { (result ≡ at + length (decimal v)) × (out.new
        ≡ patch at (at + length (decimal v)) out.old (decimal v)) }
{
    let e = at + digit_count(v);
    fill_digits(&mut out[at..e], v);
    e
}

// The same where there is room for any number.
pub fn write(out: &mut [u8], at: usize, v: u64) -> usize
    requires { at + 20 ≤ length out.old }
    ensures { (result ≡ at + length (decimal v)) × (out.new
        ≡ patch at (at + length (decimal v)) out.old (decimal v)) }
{
    put(out, at, v)
}
