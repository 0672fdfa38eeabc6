// The filter: bits by the keys of the arcs on the earlier answers, made once for a round.
ghost use Rattle.std.specs.Prelude.{◌≡◌, cond, ◌*◌, ◌≤◌, ◌<◌, ltb, length};
ghost use Rattle.net.specs.Limits.{most_arcs};
ghost use Rattle.table.specs.Table.{records};
ghost use Rattle.search_ask.specs.Ask.{Accepted, width};
ghost use Rattle.search_ask.specs.Earlier.{earlier_in};
ghost use Rattle.search_driven.specs.Marks.{mark_words, mark_bits, key_at, place_at};
ghost use Rattle.search_driven.specs.Marks.{marked, with_mark, with_marks, Filter};

use search_ask::Ask;

pub const WORDS: usize = 32;

const BITS: u32 = 2048;

// The key of an arc.
#[tactic(auto, using(std::proofs::lemmas::Bool::Decides::nat_tests), unfolding(crate::specs::Marks::key_at))]
fn key(table: &[u8], arc: usize) -> u32
    requires { (arc < records table.now) × (records table.now ≤ most_arcs) }
    ensures { result ≡ key_at table.now arc }
{
    let number = table::arc::road_of(table, arc);
    if number == 0 {
        return arc as u32;
    }
    number
}

// Whether bit h is set.
#[tactic(auto, unfolding(crate::specs::Marks::marked))]
fn is_set(marks: &[u64], h: usize) -> bool
    requires { (h < mark_bits) × (length marks.now ≡ mark_words) }
    ensures { result ≡ marked marks.now h }
{
    (marks[h / 64] >> (h % 64)) % 2 == 1
}

fn set(marks: &mut [u64], h: usize)
    requires { (h < mark_bits) × (length marks.old ≡ mark_words) }
    ensures { marks.new ≡ with_mark marks.old h }
{
    marks[h / 64] |= 1 << (h % 64);
}

// Whether an earlier answer may drive the road of an arc: false only where none does.
pub fn may_drive(table: &[u8], marks: &[u64], arc: usize) -> bool
    requires { (arc < records table.now) × (records table.now ≤ most_arcs)
        × (length marks.now ≡ mark_words) }
    ensures { result ≡ marked marks.now (place_at table.now arc) }
{
    is_set(marks, (key(table, arc) % BITS) as usize)
}

// The bit of the word of a slot, where it is an arc.
fn mark(table: &[u8], marks: &mut [u64], word: u32)
    requires { (records table.now ≤ most_arcs) × (length marks.old ≡ mark_words) }
    ensures { marks.new
        ≡ cond (ltb word (records table.now)) (with_mark marks.old
        (place_at table.now word)) marks.old }
{
    let arc = word as usize;
    if arc < table.len() / table::arc::RECORD {
        set(marks, (key(table, arc) % BITS) as usize);
    }
}

// The bits of all arcs on a slot.
pub fn mark_slot(table: &[u8], marks: &mut [u64], slot: &[u32])
    requires { (records table.now ≤ most_arcs) × (length marks.old ≡ mark_words) }
    ensures { marks.new ≡ with_marks table.now slot.now
        marks.old }
{
    for &word in slot {
        mark(table, marks, word);
    }
}

// The bits of the first r answers.
pub fn mark_earlier(table: &[u8], ask: Ask, area: &[u32], r: usize, marks: &mut [u64])
    requires { (Accepted ask table.now) × (r * width ask ≤ length area.now)
        × (length marks.old ≡ mark_words) }
    ensures { Filter table.now (earlier_in (width ask) r area.now)
        marks.new }
{
    for j in 0..r {
        mark_slot(table, marks, search_ask::slot(area, ask, j));
    }
}
