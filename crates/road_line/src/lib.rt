// One line of a road file, scanned byte by byte. The state is passed by value and holds no bytes
// of the line, so that a text may come in parts and a comment may be of any length.
#![tactic(auto)]

ghost use Rattle.std.specs.Prelude.{◌≡◌, true, ◌&&◌, ◌<◌, eqb, get_or};
ghost use Rattle.numerals.specs.Decimal.{is_digit};
ghost use Rattle.road_line.specs.Line.{arc_with};
ghost use Rattle.road_line.specs.Scan.{expected_at, state_of, started, spoilt, kind_of, left_of};
ghost use Rattle.road_line.specs.Scan.{begun_by, compared, grown_by, with_digit, with_space};
ghost use Rattle.road_line.specs.Scan.{number_byte, scan_byte, read_of, line_is};

const MOST: u64 = 4294967295;

const TOO_LARGE: u64 = 4294967296;

const SPACE: u8 = 32;

// No byte of a start.
const NO_BYTE: u16 = 256;

// What a line may be by its first byte, and before that unknown.
#[derive(Clone, Copy, Debug, PartialEq, Eq)]
pub enum Kind {
    Unknown,
    Sizes,
    Arc,
    Comment,
    Other,
}

// The state after some bytes of a line: what it may yet be, how many bytes of its start stand, how
// many numbers follow the one in hand, whether that has a digit, its value, and the two before it.
#[derive(Clone, Copy, Debug, PartialEq, Eq)]
pub struct Scan {
    pub kind: Kind,
    pub at: u8,
    pub left: u8,
    pub begun: bool,
    pub value: u32,
    pub first: u32,
    pub second: u32,
}

// What a line is: nodes and arcs; tail, head and length.
#[derive(Clone, Copy, Debug, PartialEq, Eq)]
pub enum Read {
    Comment,
    Sizes(u32, u32),
    Arc(u32, u32, u32),
    Other,
}

// A state with no number.
fn state(kind: Kind, at: u8, left: u8) -> Scan
    ensures { result ≡ state_of kind at left }
{
    Scan {
        kind,
        at,
        left,
        begun: false,
        value: 0,
        first: 0,
        second: 0,
    }
}

// The state before a line's first byte.
pub fn start() -> Scan
    ensures { result ≡ started }
{
    state(Kind::Unknown, 0, 0)
}

// The line is other, whatever follows.
fn spoil() -> Scan
    ensures { result ≡ spoilt }
{
    state(Kind::Other, 1, 0)
}

// The byte at a place of s, or past its end no byte.
fn byte_of(s: &[u8], at: usize) -> u16
    ensures { result ≡ get_or s.now at 256 }
{
    if at < s.len() {
        return s[at] as u16;
    }
    NO_BYTE
}

// The byte at a place of the start of such lines. Tests in turn, since a match over all five kinds
// jumps by a table at every byte: one of a comment then takes a fifth more instructions.
#[tactic(auto, unfolding(crate::specs::Scan::expected_at, crate::specs::Scan::start_of))]
fn expected(kind: Kind, at: u8) -> u16
    ensures { result ≡ expected_at kind at }
{
    let place = at as usize;
    if kind == Kind::Sizes {
        return byte_of(b"p sp ", place);
    }
    if kind == Kind::Arc {
        return byte_of(b"a ", place);
    }
    if kind == Kind::Comment {
        return byte_of(b"c ", place);
    }
    NO_BYTE
}

// What a line with this first byte may be.
#[tactic(auto, unfolding(crate::specs::Scan::kind_of))]
fn kind_of(byte: u8) -> Kind
    ensures { result ≡ kind_of byte }
{
    let first = byte as u16;
    if expected(Kind::Comment, 0) == first {
        return Kind::Comment;
    }
    if expected(Kind::Sizes, 0) == first {
        return Kind::Sizes;
    }
    if expected(Kind::Arc, 0) == first {
        return Kind::Arc;
    }
    Kind::Other
}

// How many numbers follow the first one.
#[tactic(auto, unfolding(crate::specs::Scan::left_of))]
fn left_of(kind: Kind) -> u8
    ensures { result ≡ left_of kind }
{
    match kind {
        Kind::Sizes => 1,
        Kind::Arc => 2,
        Kind::Unknown | Kind::Comment | Kind::Other => 0,
    }
}

// The first byte.
#[tactic(auto, unfolding(crate::specs::Scan::begun_by))]
fn begin(byte: u8) -> Scan
    ensures { result ≡ begun_by byte }
{
    let kind = kind_of(byte);
    state(kind, 1, left_of(kind))
}

// A byte of the start.
#[tactic(auto, using(crate::proofs::StartLaws::in_start), unfolding(crate::specs::Scan::compared))]
fn compare(x: Scan, byte: u8) -> Scan
    requires { expected_at x.kind x.at < 256 }
    ensures { result ≡ compared x byte }
{
    if expected(x.kind, x.at) != byte as u16 {
        return spoil();
    }
    state(x.kind, x.at + 1, x.left)
}

fn is_digit(byte: u8) -> bool
    ensures { result ≡ is_digit byte }
{
    byte.is_ascii_digit()
}

// The number with one digit more; where a zero leads, one that is too large.
#[tactic(auto, unfolding(crate::specs::Scan::grown_by))]
fn grown(begun: bool, value: u32, byte: u8) -> u64
    requires { is_digit byte ≡ true }
    ensures { result ≡ grown_by begun value byte }
{
    let digit = (byte - b'0') as u64;
    if !begun {
        return digit;
    }
    if value == 0 {
        return TOO_LARGE;
    }
    value as u64 * 10 + digit
}

// A digit of the number in hand.
#[tactic(auto, unfolding(crate::specs::Scan::with_digit))]
fn with_digit(x: Scan, byte: u8) -> Scan
    requires { is_digit byte ≡ true }
    ensures { result ≡ with_digit x byte }
{
    let n = grown(x.begun, x.value, byte);
    if MOST < n {
        return spoil();
    }
    Scan {
        begun: true,
        value: n as u32,
        ..x
    }
}

// The space after a number that another one follows.
#[tactic(auto, unfolding(crate::specs::Scan::with_space))]
fn with_space(x: Scan) -> Scan
    ensures { result ≡ with_space x }
{
    if !x.begun || x.left == 0 {
        return spoil();
    }
    Scan {
        left: x.left - 1,
        begun: false,
        value: 0,
        first: x.second,
        second: x.value,
        ..x
    }
}

// A byte after the start of a line of numbers.
#[tactic(auto, unfolding(crate::specs::Scan::number_byte))]
fn number_byte(x: Scan, byte: u8) -> Scan
    ensures { result ≡ number_byte x byte }
{
    if byte == SPACE {
        return with_space(x);
    }
    if is_digit(byte) {
        return with_digit(x, byte);
    }
    spoil()
}

// The state after one byte more, which is no newline.
#[tactic(auto, unfolding(crate::specs::Scan::scan_byte, crate::specs::Scan::unknown, crate::specs::Scan::numbered))]
pub fn scan_byte(x: Scan, byte: u8) -> Scan
    ensures { result ≡ scan_byte x byte }
{
    match x.kind {
        Kind::Unknown => begin(byte),
        kind if expected(kind, x.at) < NO_BYTE => compare(x, byte),
        Kind::Sizes | Kind::Arc => number_byte(x, byte),
        Kind::Comment | Kind::Other => x,
    }
}

// An arc, whose nodes are counted from 1.
#[tactic(auto, unfolding(crate::specs::Line::arc_with))]
fn arc_read(tail: u32, head: u32, length: u32) -> Read
    ensures { line_is result ≡ arc_with tail head length }
{
    if tail == 0 || head == 0 {
        return Read::Other;
    }
    Read::Arc(tail, head, length)
}

// Whether the number in hand has a digit and is the last one.
fn at_last(x: Scan) -> bool
    ensures { result ≡ (x.begun && eqb x.left 0) }
{
    x.begun && x.left == 0
}

// What the line is that ends here.
#[tactic(auto, unfolding(crate::specs::Scan::read_of, crate::specs::Scan::whole_as, crate::specs::Scan::commented))]
pub fn ended(x: Scan) -> Read
    ensures { line_is result ≡ read_of x }
{
    match x.kind {
        Kind::Comment => Read::Comment,
        Kind::Sizes if at_last(x) => Read::Sizes(x.second, x.value),
        Kind::Arc if at_last(x) => arc_read(x.first, x.second, x.value),
        _ => Read::Other,
    }
}
