// The public calls. crates/ojeonbut_c exports them to C, C++ and Rust, and include/ojeonbut.h declares the exports.
#![tactic(auto)]

ghost use Rattle.std.specs.Prelude.{◌≡◌, min, length};
ghost use Rattle.table.specs.Fault.{table_fault};
ghost use Rattle.closures.specs.Closed.{next_open};
ghost use Rattle.query.specs.Query.{input, input_closed, Replied};
ghost use Rattle.query_ratios.specs.Rated.{RepliedRatios};
ghost use Rattle.table_part.specs.Part.{part_of, run_part_by};
ghost use Rattle.query_via.specs.Via.{input as inputVia, Replied as RepliedVia};
ghost use Rattle.query_pair.specs.Pair.{input as inputPair, Replied as RepliedPair};
ghost use Rattle.query_variety.specs.Call.{input as inputVariety, Replied as RepliedVariety};
ghost use Rattle.plan_store.specs.Store.{Stored};
ghost use Rattle.plan_fetch.specs.Fetch.{Fetched};
ghost use Rattle.plan_change.specs.Change.{Withdrawn, Collected};
ghost use Rattle.road_made.specs.Made.{Numbered};
ghost use Rattle.road_read.specs.Read.{Read};
ghost use Rattle.road_write.specs.Written.{Written};
ghost use Rattle.ojeonbut.specs.Exported.{version};

use outcome::{Outcome, Told};
use road_made::MadeNumbers;
use table_part::Part;

// OJEONBUT_VERSION of include/ojeonbut.h.
const VERSION: u32 = 10;

// The version of these calls.
pub fn ojeonbut_version() -> u32
    ensures { result ≡ version }
{
    VERSION
}

// The fault of a table of so many nodes, or 0.
pub fn ojeonbut_check(table: &[u8], nodes: u32) -> Told
    ensures { result ≡ table_fault nodes table.now }
{
    match table::fault::check(table, nodes) {
        Ok(()) => Outcome::Found.plain(),
        Err(refusal) => Told::from(refusal),
    }
}

// Where the arcs that leave node v stand in the table; an empty part where the table has a fault or
// v is no node.
pub fn ojeonbut_arcs_from(table: &[u8], nodes: u32, v: u32) -> Part
    ensures { result ≡ part_of nodes table.now v }
{
    table_part::arcs_from(table, nodes, v)
}

// Where the run of a node stands in the one table or the other, by direction; an empty part where
// either table is refused, there is no such node or the direction is none.
pub fn ojeonbut_run(table: &[u8], second: &[u8], nodes: u32, direction: u32, node: u32) -> Part
    ensures { result
        ≡ run_part_by nodes table.now second.now direction node }
{
    table_part::run(table, second, nodes, direction, node)
}

// The query: table, node count, start, goal, number of routes, threshold a/b; and three lent
// buffers: labels, route area, summaries.
pub fn ojeonbut_query(
    table: &[u8],
    nodes: u32,
    s: u32,
    goal: u32,
    k: u32,
    a: u32,
    b: u32,
    labels: &mut [u8],
    area: &mut [u32],
    sums: &mut [summary::Summary],
) -> Told
    ensures { Replied (input table.now nodes s goal k a b labels.old
        area.old (length sums.old)) result
        labels.new area.new sums.old sums.new }
{
    let lent = sums.len();
    let g = query::core(table, nodes, s, goal, k, a, b, labels, area, lent);
    let x = g.sums;
    let n = g.n;
    summary::write(sums, x, n);
    g.told
}

// The query over the arcs that are not closed: `closed` has a byte for each arc, 0 open and 1
// closed.
pub fn ojeonbut_query_closed(
    table: &[u8],
    nodes: u32,
    s: u32,
    goal: u32,
    k: u32,
    a: u32,
    b: u32,
    closed: &[u8],
    labels: &mut [u8],
    area: &mut [u32],
    sums: &mut [summary::Summary],
) -> Told
    ensures { Replied (input_closed table.now nodes s goal k a b
        closed.now labels.old area.old
        (length sums.old)) result
        labels.new area.new sums.old sums.new }
{
    let lent = sums.len();
    let g = query::core_closed(table, nodes, s, goal, k, a, b, closed, labels, area, lent);
    let x = g.sums;
    let n = g.n;
    summary::write(sums, x, n);
    g.told
}

// The query over the open arcs, with two ratios for each route.
pub fn ojeonbut_query_ratios(
    table: &[u8],
    nodes: u32,
    s: u32,
    goal: u32,
    k: u32,
    a: u32,
    b: u32,
    closed: &[u8],
    labels: &mut [u8],
    area: &mut [u32],
    sums: &mut [summary::Summary],
    shown: &mut [ratios::Ratios],
) -> Told
    ensures { RepliedRatios (input_closed table.now nodes s goal k a b
        closed.now labels.old
        area.old (min (length sums.old) (length shown.old))) result
        labels.new area.new sums.old sums.new
        shown.old shown.new }
{
    let lent = sums.len();
    let rated = shown.len();
    let g = query_ratios::core_ratios(
        table, nodes, s, goal, k, a, b, closed, labels, area, lent, rated,
    );
    let x = g.sums;
    let y = g.rows;
    let n = g.n;
    summary::write(sums, x, n);
    ratios::write(shown, y, n);
    g.told
}

// The query for via routes over the open arcs: `second` is the table's arcs in order of end node,
// `work` the working room.
pub fn ojeonbut_query_via(
    table: &[u8],
    second: &[u8],
    nodes: u32,
    s: u32,
    goal: u32,
    k: u32,
    a: u32,
    b: u32,
    closed: &[u8],
    area: &mut [u32],
    sums: &mut [summary::Summary],
    work: &mut [u8],
) -> Told
    ensures { RepliedVia (inputVia table.now second.now nodes s goal
        k a b closed.now area.old (length sums.old)
        work.old) result
        area.new work.new sums.old sums.new }
{
    let lent = sums.len();
    let g = query_via::core(
        table, second, nodes, s, goal, k, a, b, closed, area, lent, work,
    );
    let x = g.sums;
    let n = g.n;
    summary::write(sums, x, n);
    g.told
}

// Two routes over the open arcs that share no arc, of least total length; `work` is the working
// room.
pub fn ojeonbut_pair(
    table: &[u8],
    nodes: u32,
    s: u32,
    goal: u32,
    closed: &[u8],
    area: &mut [u32],
    sums: &mut [summary::Summary],
    work: &mut [u8],
) -> Told
    ensures { RepliedPair (inputPair table.now nodes s goal closed.now
        area.old (length sums.old) work.old) result
        area.new work.new sums.old sums.new }
{
    let lent = sums.len();
    let g = query_pair::core(table, nodes, s, goal, closed, area, lent, work);
    let x = g.sums;
    let n = g.n;
    summary::write(sums, x, n);
    g.told
}

// The k most different of the simple routes over the open arcs whose length times d is at most d + c
// times the shortest; all of these are listed, and their number stands beside outcome 0.
pub fn ojeonbut_variety(
    table: &[u8],
    nodes: u32,
    s: u32,
    goal: u32,
    k: u32,
    c: u32,
    d: u32,
    closed: &[u8],
    list: &mut [u32],
    area: &mut [u32],
    work: &mut [u8],
) -> Told
    ensures { RepliedVariety (inputVariety table.now nodes s goal k c d
        closed.now list.old area.old work.old) result
        list.new area.new work.new }
{
    query_variety::core(table, nodes, s, goal, k, c, d, closed, list, area, work)
}

// The next open arc from `place` on, or `end`.
pub fn ojeonbut_next_arc(closed: &[u8], place: usize, end: usize) -> usize
    ensures { result ≡ next_open closed.now place end }
{
    closures::next_arc(closed, place, end)
}

// A road file read into a table: its bytes, and the node count.
pub fn ojeonbut_read_roads(text: &[u8], table: &mut [u8]) -> MadeNumbers
    ensures { Numbered (λ answer. Read text.now table.old answer
        table.new) result }
{
    MadeNumbers::from(road_read::read(text, table))
}

// A table of so many nodes written as a road file: the text's bytes.
pub fn ojeonbut_write_roads(table: &[u8], nodes: u32, text: &mut [u8]) -> MadeNumbers
    ensures { Numbered (λ answer. Written nodes table.now text.old
        answer text.new) result }
{
    MadeNumbers::from(road_write::write(table, nodes, text))
}

// The routes in `routes` slots of `width` words stored under a plan number in a file of accepted
// plans.
pub fn ojeonbut_plan_store(
    file: &mut [u8],
    plan: u32,
    slots: &[u32],
    routes: u32,
    width: u32,
) -> Told
    ensures { Stored file.old plan slots.now routes width result
        file.new }
{
    plan_store::store(file, plan, slots, routes, width)
}

// The routes of a plan in slots of `width` words; beside 0 stands their number.
pub fn ojeonbut_plan_fetch(file: &[u8], plan: u32, slots: &mut [u32], width: u32) -> Told
    ensures { Fetched file.now plan slots.old width result
        slots.new }
{
    plan_fetch::fetch(file, plan, slots, width)
}

// The records of a plan made free.
pub fn ojeonbut_plan_withdraw(file: &mut [u8], plan: u32) -> Told
    ensures { Withdrawn file.old plan result file.new }
{
    plan_change::withdraw(file, plan)
}

// The records in use moved to the front, and zeros after them.
pub fn ojeonbut_plan_collect(file: &mut [u8]) -> Told
    ensures { Collected file.old result file.new }
{
    plan_change::collect(file)
}
