// The desk program's old form turned into the new one, from text to text.
#![tactic(auto)]

ghost use Rattle.std.specs.Prelude.{◌≡◌, ◌*◌, ◌≤◌, length, take};
ghost use Rattle.table.specs.Table.{record_bytes};
ghost use Rattle.outcome.specs.Outcome.{told_by};
ghost use Rattle.query.specs.Query.{refused_of};
ghost use Rattle.text_put.specs.Put.{Appended};
ghost use Rattle.desk_line.specs.Limits.{most_arcs_read};
ghost use Rattle.desk_text.specs.Desk.{read_query};
ghost use Rattle.desk_old.specs.Turned.{written, turned_text, most_turned, TurnedTo};
ghost use Rattle.desk_old.specs.Read.{asking, turned_of};

use desk_old_input::Asked;
use outcome::{Outcome, Refusal, Told};
use query::Wish;

// The room that any text fits in.
pub const MOST_TURNED: usize = 294912;

// What is read. A well-formed text has at most 135,245 bytes (a first line of 77, and 4,096 lines
// of 33), so what lies past it changes nothing (`turned-cut`).
pub const MOST_READ: usize = 262144;

// A table of 4,096 arcs.
const TABLE: usize = 65536;

// Whether the query that was asked is refused.
fn judge(table: &[u8], x: Asked) -> Result<(), Refusal>
    ensures { told_by result ≡ refused_of (read_query (asking x) table.now) }
{
    let labels = [0u8; desk_text::DESK_LABELS * labels::field::LABEL];
    let area = [0u32; desk_text::DESK_WORDS];
    let ask = query::ask_of(x.nodes, x.s, x.goal, x.a, x.b);
    let wish = Wish {
        k: x.k,
        closing: false,
        lent: summary::MOST_ROUTES,
    };
    query::refused(table, &table[0..0], ask, wish, &labels, &area)
}

// The query line, and the road file of the table.
fn write(table: &[u8], x: Asked, out: &mut [u8]) -> usize
    requires { (most_turned ≤ length out.old)
        × (length table.now ≤ most_arcs_read * record_bytes) }
    ensures { Appended out.old 0 (written x table.now)
        out.new result }
{
    let rest = [x.a, x.b];
    let at = desk_output::route(out, 0, x.s as u64, x.goal as u64, x.k as u64, &rest);
    road_write::put(table, x.nodes, out, at)
}

// The text that was asked, in the new form, or the line of its refusal.
fn turn_asked(table: &[u8], x: Asked, out: &mut [u8]) -> usize
    requires { (most_turned ≤ length out.old)
        × (length table.now ≤ most_arcs_read * record_bytes) }
    ensures { Appended out.old 0 (turned_of x table.now)
        out.new result }
{
    if let Err(refusal) = judge(table, x) {
        return desk_text::print::refused(out, Told::from(refusal));
    }
    write(table, x, out)
}

// The text of the new form that is due, into a buffer that any fits in.
fn turned(text: &[u8], out: &mut [u8]) -> usize
    requires { most_turned ≤ length out.old }
    ensures { Appended out.old 0 (turned_text text.now)
        out.new result }
{
    let mut table = [0u8; TABLE];
    match desk_old_input::read(text, &mut table) {
        Ok(x) => {
            let m = x.arcs as usize * table::arc::RECORD;
            turn_asked(&table[0..m], x, out)
        }
        Err(line) => desk_text::print::refused(out, Outcome::Text.beside(line)),
    }
}

// The text of the new form that is due for one of the old, at the front of `out`; how many bytes it
// is.
pub fn turn(text: &[u8], out: &mut [u8]) -> usize
    ensures { TurnedTo text.now out.old out.new result }
{
    if out.len() < MOST_TURNED {
        return 0;
    }
    turned(text, out)
}

// The same over the converter's own buffers, whose sizes the types fix: `n` bytes were read.
pub fn from_buffer(text: &[u8; MOST_READ], n: usize, out: &mut [u8; MOST_TURNED]) -> usize
    ensures { Appended out.old 0 (turned_text (take n text.now))
        out.new result }
{
    let whole = &text[..];
    if n < MOST_READ {
        return turned(&whole[..n], out);
    }
    turned(whole, out)
}
