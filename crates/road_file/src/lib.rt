// A road file read byte by byte. The reader is passed by value and keeps no text, so that a file may
// come in parts.
#![tactic(auto)]

ghost use Rattle.std.specs.Prelude.{◌≡◌, ◌≤◌};
ghost use Rattle.road_line.specs.Scan.{read_of};
ghost use Rattle.road_file.specs.File.{next_line, unfed};
ghost use Rattle.road_file.specs.Reader.{reader_of, passed_by, refused_by, sized_by};
ghost use Rattle.road_file.specs.Reader.{extended_by, said_by, fed_by};
ghost use Rattle.road_file.specs.Reader.{short_by, wrong_by};

use road_line::{Kind, Read, Scan};

const NEWLINE: u8 = 10;

const MOST: u32 = 4294967295;

// The line that has not ended; how many lines and arcs there were; the numbers of the `p` line; the
// last arc, with nodes from 0; the first line that is not permitted, or 0.
#[derive(Clone, Copy)]
pub struct Reader {
    pub scan: Scan,
    pub lines: u32,
    pub begun: bool,
    pub nodes: u32,
    pub wanted: u32,
    pub count: u32,
    pub from: u32,
    pub to: u32,
    pub len: u32,
    pub wrong: u32,
}

// Before the first byte.
pub fn begin() -> Reader
    ensures { result ≡ reader_of unfed }
{
    Reader {
        scan: road_line::start(),
        lines: 0,
        begun: false,
        nodes: 0,
        wanted: 0,
        count: 0,
        from: 0,
        to: 0,
        len: 0,
        wrong: 0,
    }
}

fn next_line(lines: u32) -> u32
    ensures { result ≡ next_line lines }
{
    if lines < MOST { lines + 1 } else { lines }
}

// A line that says nothing.
fn pass(r: Reader) -> Reader
    ensures { result ≡ passed_by r }
{
    Reader {
        scan: road_line::start(),
        lines: next_line(r.lines),
        ..r
    }
}

// A line that is not permitted.
fn refuse(r: Reader) -> Reader
    ensures { result ≡ refused_by r }
{
    let line = next_line(r.lines);
    Reader {
        scan: road_line::start(),
        lines: line,
        wrong: if r.wrong == 0 { line } else { r.wrong },
        ..r
    }
}

// The `p` line.
fn size(r: Reader, nodes: u32, arcs: u32) -> Reader
    ensures { result ≡ sized_by r nodes arcs }
{
    if r.begun {
        return refuse(r);
    }
    Reader {
        scan: road_line::start(),
        lines: next_line(r.lines),
        begun: true,
        nodes,
        wanted: arcs,
        ..r
    }
}

// An arc line, whose nodes are counted from 1.
fn extend(r: Reader, tail: u32, head: u32, length: u32) -> Reader
    requires { (1 ≤ tail) × (1 ≤ head) }
    ensures { result ≡ extended_by r tail head length }
{
    if !r.begun {
        return refuse(r);
    }
    if r.wanted <= r.count {
        return refuse(r);
    }
    Reader {
        scan: road_line::start(),
        lines: next_line(r.lines),
        count: r.count + 1,
        from: tail - 1,
        to: head - 1,
        len: length,
        ..r
    }
}

// The line ends here.
fn end_line(r: Reader) -> Reader
    ensures { result ≡ said_by r (read_of r.scan) }
{
    let scan = r.scan;
    let line = road_line::ended(scan);
    match line {
        Read::Comment => pass(r),
        Read::Sizes(nodes, arcs) => size(r, nodes, arcs),
        Read::Arc(tail, head, length) => extend(r, tail, head, length),
        Read::Other => refuse(r),
    }
}

// One byte more.
pub fn feed(r: Reader, byte: u8) -> Reader
    ensures { result ≡ fed_by r byte }
{
    if byte == NEWLINE {
        return end_line(r);
    }
    Reader {
        scan: road_line::scan_byte(r.scan, byte),
        ..r
    }
}

// Whether the file may not end here.
#[tactic(auto, unfolding(crate::specs::Reader::short_by))]
fn short(r: Reader) -> bool
    ensures { result ≡ short_by r }
{
    r.scan.kind != Kind::Unknown || !r.begun || r.count < r.wanted
}

// The first line that is not permitted or missing where the file ends here, or 0.
pub fn wrong_line(r: Reader) -> u32
    ensures { result ≡ wrong_by r }
{
    if r.wrong != 0 {
        return r.wrong;
    }
    if short(r) {
        return next_line(r.lines);
    }
    0
}
