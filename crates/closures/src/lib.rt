// Roads closed for the day: a byte for each arc, 0 open and 1 closed. Where no bytes are lent no arc
// is closed.
#![tactic(auto)]

ghost use Rattle.std.specs.Prelude.{◌≡◌, not};
ghost use Rattle.table.specs.Table.{is_open_at};
ghost use Rattle.closures.specs.Closed.{wrong, next_open};

// Whether the bytes are of another number than the arcs, or one has another value.
pub fn wrong(table: &[u8], closed: &[u8]) -> bool
    ensures { result ≡ wrong table.now closed.now }
{
    closed.len() != table.len() / table::arc::RECORD || closed.iter().any(|&c| 1 < c)
}

// The next open arc from place `arc` on of a run that ends at `end`, or `end`.
pub fn next_arc(closed: &[u8], arc: usize, end: usize) -> usize
    ensures { result ≡ next_open closed.now arc end }
{
    for a in arc..end {
        if !is_closed(closed, a) {
            return a;
        }
    }
    end
}

// Whether an arc is closed.
pub fn is_closed(closed: &[u8], arc: usize) -> bool
    ensures { result ≡ not (is_open_at closed.now arc) }
{
    arc < closed.len() && closed[arc] != 0
}
