// Where the arcs of a node start in a good table, by halves. It is looked for about where it would
// stand if every node had as many, and only where it is not there in the whole table; or first where
// it was found before.
#![tactic(auto)]

ghost use Rattle.std.specs.Prelude.{◌≡◌, ◌⊎◌, ◌≤◌, ◌<◌, length, IsTrue};
ghost use Rattle.table.specs.Table.{records, from_at};
ghost use Rattle.table.specs.Fault.{table_fault, good};
ghost use Rattle.table.specs.Run.{run_start};

// How far from the guess a start is looked for first.
const REACH: usize = 64;

// How many starts are kept. Nodes that lie a power of two apart, as rows of a city may, then have
// places of their own.
pub const KEPT: usize = 131;

// How many records behind the start of the node before are looked at.
const STEPS: usize = 8;

// Where the records of v would start if every node had as many of the n.
fn guess(v: u32, nodes: u32, n: usize) -> usize
    requires { (0 < nodes) × (n < 4294967296) }
{
    v as usize * n / nodes as usize
}

// The record that lies `REACH` before g, where it starts below v, or the first.
fn low(table: &[u8], nodes: u32, v: u32, g: usize) -> usize
    requires { table_fault nodes table.now ≡ good }
    ensures { result ≤ run_start table.now v }
{
    let end = table.len() / table::arc::RECORD;
    if REACH <= g && g - REACH < end && table::arc::from_of(table, g - REACH) < v {
        g - REACH
    } else {
        0
    }
}

// The record that lies `REACH` after g, where it starts at v or above, or the end.
fn high(table: &[u8], v: u32, g: usize) -> usize
    ensures { (run_start table.now v ≤ result) × (result ≤ records table.now) }
{
    let end = table.len() / table::arc::RECORD;
    if REACH < end && g < end - REACH && v <= table::arc::from_of(table, g + REACH) {
        g + REACH
    } else {
        end
    }
}

// How many of n records to leave behind: all where the last, i, starts below v, or none.
fn behind(table: &[u8], i: usize, v: u32, n: usize) -> usize
    requires { i < records table.now }
    ensures { ((from_at table.now i < v) × (result ≡ n))
        ⊎ ((v ≤ from_at table.now i) × (result ≡ 0)) }
{
    if table::arc::from_of(table, i) < v {
        n
    } else {
        0
    }
}

// The first arc that leaves v, or where it would stand.
fn leaving(table: &[u8], nodes: u32, v: u32) -> usize
    requires { table_fault nodes table.now ≡ good }
    ensures { result ≡ run_start table.now v }
{
    let g = guess(v, nodes, table.len() / table::arc::RECORD);
    let mut at = low(table, nodes, v, g);
    let mut size = high(table, v, g) - at;
    while 0 < size {
        let half = size - size / 2;
        at += behind(table, at + (half - 1), v, half);
        size /= 2;
    }
    at
}

// Whether the arcs of v start at g, behind those of another node.
fn starts_at(table: &[u8], nodes: u32, v: u32, g: usize) -> bool
    requires { table_fault nodes table.now ≡ good }
    ensures { IsTrue result → g ≡ run_start table.now v }
{
    0 < g
        && g < table.len() / table::arc::RECORD
        && v <= table::arc::from_of(table, g)
        && table::arc::from_of(table, g - 1) < v
}

// The first record from g on that does not start below v, or where the looks at records end.
fn onward(table: &[u8], v: u32, g: u32) -> usize {
    let first = g as usize;
    let end = (table.len() / table::arc::RECORD).min(first + STEPS);
    for i in first..end {
        if v <= table::arc::from_of(table, i) {
            return i;
        }
    }
    end
}

// The first arc that leaves v, or where it would stand, tried first at g, and then from where those
// of the node before it may start.
fn near(table: &[u8], nodes: u32, v: u32, g: u32, before: u32) -> usize
    requires { table_fault nodes table.now ≡ good }
    ensures { result ≡ run_start table.now v }
{
    if starts_at(table, nodes, v, g as usize) {
        return g as usize;
    }
    let next = onward(table, v, before);
    if starts_at(table, nodes, v, next) {
        return next;
    }
    leaving(table, nodes, v)
}

// The same, by what is kept of both nodes, whatever that is; then it is kept.
pub fn kept(table: &[u8], nodes: u32, v: u32, starts: &mut [u32]) -> usize
    requires { (table_fault nodes table.now ≡ good) × (131 ≤ length starts.old) }
    ensures { (result ≡ run_start table.now v)
        × (length starts.new ≡ length starts.old) }
{
    let i = v as usize % KEPT;
    let j = (i + (KEPT - 1)) % KEPT;
    let first = near(table, nodes, v, starts[i], starts[j]);
    starts[i] = first as u32;
    first
}
