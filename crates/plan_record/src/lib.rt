// The records of a file of accepted plans, in lent bytes.
#![tactic(auto)]

ghost use Rattle.std.specs.Prelude.{◌≡◌, ◌+◌, ◌-◌, ◌*◌, ◌≤◌, ◌<◌, length, get_or, replicate};
ghost use mathlib.Core.List.{[], ◌∷◌, ◌++◌, flat_map};
ghost use Rattle.lists.specs.Tests.{up_from, every};
ghost use Rattle.words.specs.Number.{bytes_of};
ghost use Rattle.words.specs.Part.{patch, slot};
ghost use Rattle.labels.specs.Field.{no_number};
ghost use Rattle.plan_record.specs.Record.{record_bytes, records, part_arcs};
ghost use Rattle.plan_record.specs.Record.{plan_at, rank_at, used_at, part_at, arc_at};
ghost use Rattle.plan_record.specs.Record.{blank, formed_arc, formed_use, formed};
ghost use Rattle.plan_record.specs.Record.{record_of, with_record, free};

pub const RECORD: usize = 32;

// A part has at most so many arcs.
pub const PART: usize = 6;

const PLAN: usize = 0;

const RANK: usize = 4;

const USED: usize = 5;

const NUMBER: usize = 6;

const ARCS: usize = 8;

// The plan that record i belongs to, or 0.
pub fn plan(file: &[u8], i: usize) -> u32
    requires { i < records file.now }
    ensures { result ≡ plan_at file.now i }
{
    words::number::read32(file, i * RECORD + PLAN)
}

pub fn rank(file: &[u8], i: usize) -> u8
    requires { i < records file.now }
    ensures { result ≡ rank_at file.now i }
{
    file[i * RECORD + RANK]
}

// How many arcs stand in record i.
pub fn used(file: &[u8], i: usize) -> u8
    requires { i < records file.now }
    ensures { result ≡ used_at file.now i }
{
    file[i * RECORD + USED]
}

pub fn part(file: &[u8], i: usize) -> u16
    requires { i < records file.now }
    ensures { result ≡ part_at file.now i }
{
    words::number::read16(file, i * RECORD + NUMBER)
}

pub fn arc(file: &[u8], i: usize, j: usize) -> u32
    requires { (i < records file.now) × (j < part_arcs) }
    ensures { result ≡ arc_at file.now i j }
{
    words::number::read32(file, i * RECORD + (ARCS + 4 * j))
}

// Whether record i is all zero.
fn blank(file: &[u8], i: usize) -> bool
    requires { i < records file.now }
    ensures { result ≡ blank file.now i }
{
    let at = i * RECORD;
    file[at..at + RECORD].iter().all(|b| *b == 0)
}

// Whether the j-th arc number is one of an arc where it is used, and none where it is not.
fn formed_arc(file: &[u8], i: usize, j: usize) -> bool
    requires { (i < records file.now) × (j < part_arcs) }
    ensures { result ≡ formed_arc file.now i j }
{
    let a = arc(file, i, j);
    if j < used(file, i) as usize {
        (a as usize) < table::fault::MOST_ARCS
    } else {
        a == labels::field::NONE
    }
}

fn formed_arcs(file: &[u8], i: usize) -> bool
    requires { i < records file.now }
    ensures { result ≡ every (formed_arc file.now i) (up_from 0 part_arcs) }
{
    (0..PART).all(|j| formed_arc(file, i, j))
}

fn formed_use(file: &[u8], i: usize) -> bool
    requires { i < records file.now }
    ensures { result ≡ formed_use file.now i }
{
    let n = used(file, i) as usize;
    (rank(file, i) as usize) < summary::MOST_ROUTES && 1 <= n && n <= PART && formed_arcs(file, i)
}

// Whether record i is all zero where it is free, and has each field in its form where it is not.
pub fn formed(file: &[u8], i: usize) -> bool
    requires { i < records file.now }
    ensures { result ≡ formed file.now i }
{
    if plan(file, i) == 0 {
        blank(file, i)
    } else {
        formed_use(file, i)
    }
}

// The fields of record i before its arc numbers.
fn put_head(file: &mut [u8], i: usize, plan: u32, rank: u8, used: u8, part: u16)
    requires { i < records file.old }
    ensures { file.new
        ≡ patch (i * record_bytes) (i * record_bytes + 8) file.old
        (bytes_of 4 plan ++ ((rank ∷ used ∷ []) ++ bytes_of 2 part)) }
{
    words::number::write32(file, i * RECORD + PLAN, plan);
    file[i * RECORD + RANK] = rank;
    file[i * RECORD + USED] = used;
    words::number::write16(file, i * RECORD + NUMBER, part);
}

// What stands at place j of a part's arc numbers.
fn number(arcs: &[u32], j: usize) -> u32
    ensures { result ≡ get_or arcs.now j no_number }
{
    if j < arcs.len() {
        arcs[j]
    } else {
        labels::field::NONE
    }
}

// The arc numbers of record i: those used, and then none.
fn put_arcs(file: &mut [u8], i: usize, arcs: &[u32])
    requires { (i < records file.old) × (length arcs.now ≤ part_arcs) }
    ensures { file.new
        ≡ patch (i * record_bytes + 8) (i * record_bytes + record_bytes) file.old
        (flat_map (bytes_of 4) (arcs.now
        ++ replicate (part_arcs - length arcs.now) no_number)) }
{
    for j in 0..PART {
        words::number::write32(file, i * RECORD + (ARCS + 4 * j), number(arcs, j));
    }
}

// Record i made of a part of a route.
pub fn put(file: &mut [u8], i: usize, plan: u32, rank: u8, part: u16, arcs: &[u32])
    requires { (i < records file.old) × (length arcs.now ≤ part_arcs) }
    ensures { file.new ≡ with_record file.old i
        (record_of (record { plan = plan; rank = rank; part = part; arcs = arcs.now })) }
{
    put_head(file, i, plan, rank, arcs.len() as u8, part);
    put_arcs(file, i, arcs);
}

// Record i made free.
pub fn clear(file: &mut [u8], i: usize)
    requires { i < records file.old }
    ensures { file.new ≡ with_record file.old i free }
{
    words::fill::fill_part(file, i * RECORD, i * RECORD + RECORD, 0);
}

// Record i made as record j is.
pub fn copy(file: &mut [u8], i: usize, j: usize)
    requires { (i < records file.old) × (j < records file.old) }
    ensures { file.new
        ≡ with_record file.old i (slot record_bytes j file.old) }
{
    let from = j * RECORD;
    file.copy_within(from..from + RECORD, i * RECORD);
}
