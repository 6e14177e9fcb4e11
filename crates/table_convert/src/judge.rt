// The judge of a table of an older version, which is version 1. A cell's places are widened and asked the current rules; of version 1's own only its longest period is left to ask.
ghost use Rattle.std.specs.Prelude.{◌≡◌, ◌+◌, ◌*◌, ◌<◌, length};
ghost use Rattle.octets.specs.Runs.{gets};
ghost use Rattle.rules.specs.Layout.{version1, cell_size, head_size, place_size, places_per_cell};
ghost use Rattle.rules.specs.Table.{legal_cell};
ghost use Rattle.rules.specs.Refusals.{older_verdict};
ghost use Rattle.table_convert.specs.Wide.{short_period, short_periods};

use crate::wide::widen_places;
use octets::get;
use rules::Refusal;
use rules::layout::{
    CELL_1, CELLS_AT, HEAD, HEADER, LONGEST_PERIOD_1, PERIOD_AT, PLACE, PLACE_1, PLACES, VERSION_1,
};
use table_judge::{head_legal, header_legal, marked, places_legal, runs_legal};

// Any bytes: accepted, or refusal 1 if they are no table of an older version, or 2 by that version's rules.
// Stays: beside the judge of today's tables, since one function handed version, size and test would promise a third definition beside
// `table_verdict` and `older_verdict`, which document 01 and 02 have.
pub fn verdict(old: &[u8]) -> Result<(), Refusal>
    ensures { result ≡ older_verdict old.now }
{
    if !marked(old, VERSION_1) {
        return Err(Refusal::TableMark);
    }
    if !header_legal(old, CELL_1) {
        return Err(Refusal::TableWrong);
    }
    let count = get::<u16>(old, CELLS_AT) as usize;
    if !runs_legal(&old[HEADER..], CELL_1, count, old_cell_legal) {
        return Err(Refusal::TableWrong);
    }
    Ok(())
}

fn old_cell_legal(cell: &[u8]) -> bool
    requires { length cell.now ≡ cell_size version1 }
    ensures { result ≡ legal_cell version1 cell.now }
{
    let mut wide = [0; PLACES * PLACE];
    widen_places(&mut wide, cell);
    head_legal(&cell[..HEAD]) & periods_short(cell) & places_legal(&wide)
}

// A free place has period 0, so all four can be asked.
fn periods_short(cell: &[u8]) -> bool
    requires { length cell.now ≡ cell_size version1 }
    ensures { result ≡ short_periods cell.now }
{
    (0..PLACES).all(|k| period_short(cell, k))
}

// Whether the period of place k is short. A function with a promise, since of a closure's own test only its text is known.
fn period_short(cell: &[u8], k: usize) -> bool
    requires { (length cell.now ≡ cell_size version1) × (k < places_per_cell) }
    ensures { result ≡ short_period (gets cell.now (head_size version1 + place_size version1 * k) (place_size version1)) }
{
    get::<u16>(cell, HEAD + PLACE_1 * k + PERIOD_AT) as u32 <= LONGEST_PERIOD_1
}
