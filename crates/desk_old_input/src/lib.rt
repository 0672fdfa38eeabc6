// The old form of the desk program's input: from text to numbers and a road table.
#![tactic(auto)]

ghost use Rattle.std.specs.Prelude.{◌≡◌, ◌+◌, ◌*◌, ◌≤◌, length};
ghost use Rattle.table.specs.Table.{record_bytes};
ghost use Rattle.desk_line.specs.Limits.{most_arcs_read};
ghost use Rattle.desk_old_input.specs.Parsed.{arc_read, TableRead, TextRead};

// The arc line at `at`, as record i of the table: the place after it, unless it is malformed.
fn arc(text: &[u8], at: usize, i: usize, table: &mut [u8]) -> Option<usize>
    requires { (at ≤ length text.now)
        × (i * record_bytes + record_bytes ≤ length table.old) }
    ensures { (length table.new ≡ length table.old)
        × (arc_read result text.now at i table.old table.new) }
{
    let mut row = [0u32; 3];
    let next = desk_line::line(text, at, &mut row)?;
    table::arc::write(table, i, row[0], row[1], row[2]);
    Some(next)
}

// The m arc lines from place `at` on, which are the text's lines from number 2, written as records
// of the table: all and nothing after them, or the number of the first malformed line.
fn arcs(text: &[u8], at: usize, m: usize, table: &mut [u8]) -> Result<(), u32>
    requires { (at ≤ length text.now) × (m ≤ most_arcs_read)
        × (m * record_bytes ≤ length table.old) }
    ensures { TableRead text.now at m result
        table.old table.new }
{
    let mut place = at;
    for i in 0..m {
        let Some(next) = arc(text, place, i, table) else {
            return Err((i + 2) as u32);
        };
        place = next;
    }
    if place != text.len() {
        return Err((m + 2) as u32);
    }
    Ok(())
}

// The numbers of the first line.
#[derive(Clone, Copy, Debug, PartialEq, Eq)]
pub struct Asked {
    pub nodes: u32,
    pub arcs: u32,
    pub s: u32,
    pub goal: u32,
    pub k: u32,
    pub a: u32,
    pub b: u32,
}

// The whole text: its numbers, and its arcs as records at the front of the table; or the number of
// its first malformed line.
pub fn read(text: &[u8], table: &mut [u8]) -> Result<Asked, u32>
    requires { most_arcs_read * record_bytes ≤ length table.old }
    ensures { TextRead text.now result
        table.old table.new }
{
    let mut row = [0u32; 7];
    let Some(next) = desk_line::line(text, 0, &mut row) else {
        return Err(1);
    };
    if row[0] > desk_line::MOST_NODES {
        return Err(1);
    }
    if row[1] > desk_line::MOST_ARCS {
        return Err(1);
    }
    arcs(text, next, row[1] as usize, table)?;
    Ok(Asked {
        nodes: row[0],
        arcs: row[1],
        s: row[2],
        goal: row[3],
        k: row[4],
        a: row[5],
        b: row[6],
    })
}
