// A road file read into a lent table. The text is judged whole before the first byte is written.
#![tactic(auto)]

ghost use Rattle.std.specs.Prelude.{◌≡◌};
ghost use Rattle.outcome.specs.Outcome.{told_by};
ghost use Rattle.table.specs.Fault.{table_fault};
ghost use Rattle.road_file.specs.File.{unfed, feed};
ghost use Rattle.road_file.specs.Reader.{reader_of};
ghost use Rattle.road_judge.specs.Judged.{pick_of, pick_in};
ghost use Rattle.road_made.specs.Made.{answer_of};
ghost use Rattle.road_read.specs.Read.{table_due, Read};

use outcome::{Outcome, Refusal};
use road_judge::Judged;
use road_made::Made;

// 13 and 2 to 4 of the table that is due, from the text that was judged.
fn fault_in(text: &[u8], judged: Judged) -> Result<(), Refusal>
    requires { (judged.reader ≡ reader_of (feed unfed text.now))
        × (pick_of judged.faulty ≡ pick_in (feed unfed text.now)) }
    ensures { told_by result ≡ table_fault (feed unfed text.now).said.nodes
        (table_due (feed unfed text.now).said.arcs) }
{
    let reader = judged.reader;
    if reader.nodes < 1 || table::fault::MOST_NODES < reader.nodes {
        return Err(Refusal::plain(Outcome::Size));
    }
    if table::fault::MOST_ARCS < reader.count as usize {
        return Err(Refusal::plain(Outcome::Size));
    }
    match judged.faulty {
        Some(faulty) => Err(Refusal {
            outcome: faulty.fault,
            number: road_judge::rank_text(text, faulty.place),
        }),
        None => Ok(()),
    }
}

// The table of a road file, at the front of `table`: its bytes, and its node count. A malformed file
// is refused with 14, then the table made as everywhere, then too short an area with 10; a refusal
// changes nothing.
pub fn read(text: &[u8], table: &mut [u8]) -> Result<Made, Refusal>
    ensures { Read text.now table.old (answer_of result) table.new }
{
    let judged = road_judge::judge_text(text);
    let reader = judged.reader;
    let line = road_file::wrong_line(reader);
    if line != 0 {
        return Err(Refusal {
            outcome: Outcome::File,
            number: line,
        });
    }
    fault_in(text, judged)?;
    let arcs = reader.count as usize;
    if table.len() / table::arc::RECORD < arcs {
        return Err(Refusal::plain(Outcome::Buffers));
    }
    road_fill::make::make(text, table, arcs);
    Ok(Made {
        bytes: arcs * table::arc::RECORD,
        nodes: reader.nodes,
    })
}
