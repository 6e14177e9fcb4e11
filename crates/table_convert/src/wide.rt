// A version 1 cell in the current layout.
ghost use Rattle.std.specs.Prelude.{◌≡◌, ◌+◌, ◌*◌, ◌≤◌, length};
ghost use Rattle.std.proofs.lemmas.List.Edits.{sets};
ghost use Rattle.octets.specs.Runs.{gets};
ghost use Rattle.rules.specs.Layout.{version1, current, place_size, places_per_cell, cell_size};
ghost use Rattle.table_convert.specs.Wide.{wide_place, wide_places, wide_cell};

use octets::{get, put};
use rules::layout::{
    HEAD, PERIOD_AT, PLACE, PLACE_1, PLACES, SIB_1_AT, SIB_AT, WAIT_1_AT, WAIT_AT,
};
use table_build::put_head;

// The head as it stands, then the places.
pub fn widen(wide: &mut [u8], cell: &[u8])
    requires { (length wide.old ≡ cell_size current) × (length cell.now ≡ cell_size version1) }
    ensures { wide.new ≡ wide_cell cell.now }
{
    put_head(wide, &cell[..HEAD]);
    widen_places(&mut wide[HEAD..], cell);
}

// Each of the four.
pub fn widen_places(wide: &mut [u8], cell: &[u8])
    requires { (length wide.old ≡ place_size current * places_per_cell) × (length cell.now ≡ cell_size version1) }
    ensures { wide.new ≡ wide_places cell.now }
{
    for k in 0..PLACES {
        widen_place(wide, PLACE * k, cell, HEAD + PLACE_1 * k);
    }
}

// Identifier, serial number and content; period, requested and sent, read with the wait behind them, which goes, and two zero bytes come in
// front; the wait; SIB kind, live and zero.
fn widen_place(wide: &mut [u8], to: usize, cell: &[u8], from: usize)
    requires { (to + place_size current ≤ length wide.old) × (from + place_size version1 ≤ length cell.now) }
    ensures { wide.new ≡ sets wide.old to (wide_place (gets cell.now from (place_size version1))) }
{
    put(wide, to, get::<u64>(cell, from));
    put(
        wide,
        to + PERIOD_AT,
        get::<u64>(cell, from + PERIOD_AT) / 65536,
    );
    put(
        wide,
        to + WAIT_AT,
        get::<u16>(cell, from + WAIT_1_AT) as u32,
    );
    put(wide, to + SIB_AT, get::<u32>(cell, from + SIB_1_AT));
}
