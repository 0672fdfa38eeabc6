// The desk program's input in parts, over its own buffers, whose sizes the types fix.
ghost use Rattle.std.specs.Prelude.{take};
ghost use Rattle.desk_text.specs.Finished.{Kept, PartFed, Finished};

use desk_feed::Taken;

// How much is read at a time.
pub const PART: usize = 65536;

// The first n bytes of a part, behind what was fed before.
pub fn feed(
    x: Taken,
    part: &[u8; PART],
    n: usize,
    first: &mut [u8; desk_feed::FIRST],
    table: &mut [u8; desk_feed::TABLE],
) -> Taken
    ensures { PartFed x first.old table.old
        (take n part.now) result first.new table.new }
{
    let whole = &part[..];
    if n < PART {
        return desk_feed::feed(x, &whole[..n], first, table);
    }
    desk_feed::feed(x, whole, first, table)
}

// What is due where the input ends.
pub fn finish(
    x: Taken,
    first: &[u8; desk_feed::FIRST],
    table: &mut [u8; desk_feed::TABLE],
    out: &mut [u8; crate::MOST_TEXT],
) -> usize
    requires { Kept x first.now table.old }
    ensures { Finished x first.now table.old
        out.old out.new result }
{
    crate::finish(x, first, table, out)
}
