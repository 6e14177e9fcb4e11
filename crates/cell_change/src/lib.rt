// Changes to a cell's places, in place: no byte is written that stays as it is, but for the places that move. And the bytes of a place.
#![tactic(auto)]

ghost use Rattle.std.specs.Prelude.{◌≡◌, [], ◌∷◌, ◌++◌, length};
ghost use Rattle.rules.specs.Layout.{current, cell_size};
ghost use Rattle.rules.specs.Table.{place_of, place_bytes};
ghost use Rattle.rules.specs.InCell.{with_counts};
ghost use Rattle.cell_read.specs.Places.{live_places, with_places, with_place, place_at, LiveAt, FreeAt, OnePlace, without};

use octets::{Number, get, put};
use rules::layout::{
    CELL, CONTENT_AT, HEAD, LIVE_AT, PERIOD_AT, PLACE, PLACE_SERIAL_AT, PLACES, REQUESTED_AT,
    SENT_AT, SIB_AT, WAIT_AT,
};
use rules::{Broadcasts, Place, Seconds};

// The mark of a live place.
const LIVE: u8 = 1;

// What a second changes.
#[derive(Clone, Copy)]
pub struct Counts {
    pub sent: Broadcasts,
    pub wait: Seconds,
}

pub fn set_counts(cell: &mut [u8], k: usize, counts: Counts)
    requires { LiveAt cell.old k }
    ensures { cell.new ≡ with_place cell.old k (with_counts (place_at cell.old k) counts.sent counts.wait) }
{
    put(cell, HEAD + PLACE * k + SENT_AT, counts.sent.0);
    put(cell, HEAD + PLACE * k + WAIT_AT, counts.wait.0);
}

pub fn set_wait(cell: &mut [u8], k: usize, wait: Seconds)
    requires { LiveAt cell.old k }
    ensures { cell.new ≡ with_place cell.old k (with_counts (place_at cell.old k) (place_at cell.old k).sent wait) }
{
    put(cell, HEAD + PLACE * k + WAIT_AT, wait.0);
}

// What is behind it moves down. Free places are zero, so they move like live ones.
// Stays: a loop over the places, and not one `copy_within` of all that is behind: that moves a number of bytes that only the call knows,
// and a cancel in one cell took 90 ns with it where it had taken 63.
pub fn drop_place(cell: &mut [u8], k: usize)
    requires { LiveAt cell.old k }
    ensures { cell.new ≡ with_places cell.old (without k (live_places cell.old)) }
{
    for to in k..PLACES - 1 {
        let at = HEAD + PLACE * to;
        cell.copy_within(at + PLACE..at + 2 * PLACE, at);
    }
    cell[CELL - PLACE..CELL].fill(0);
}

pub fn free_all(cell: &mut [u8])
    requires { length cell.old ≡ cell_size current }
    ensures { cell.new ≡ with_places cell.old [] }
{
    cell[HEAD..CELL].fill(0);
}

// `new` has the bytes of the place.
// Stays: three stores, since `copy_from_slice` asks whether the two overlap, as for a head in `table_build`.
pub fn add_place(cell: &mut [u8], k: usize, new: &[u8])
    requires free_at { FreeAt cell.old k }
    requires one_place { OnePlace new.now }
    ensures { cell.new ≡ with_places cell.old (live_places cell.old ++ (place_of current new.now ∷ [])) }
{
    let at = HEAD + PLACE * k;
    put(cell, at, get::<u64>(new, 0));
    put(cell, at + u64::BYTES, get::<u64>(new, u64::BYTES));
    put(cell, at + 2 * u64::BYTES, get::<u64>(new, 2 * u64::BYTES));
}

// The bytes of a live place, as `add_place` takes them.
// Stays: a function and no `From`, since `Place` and arrays are types of other crates, and `place_bytes` is named by docs/DECISIONS.md.
pub fn place_bytes(place: Place) -> [u8; PLACE]
    ensures { result ≡ place_bytes current place }
{
    let mut bytes = [0; PLACE];
    put(&mut bytes, 0, place.identifier);
    put(&mut bytes, PLACE_SERIAL_AT, place.serial);
    put(&mut bytes, CONTENT_AT, place.content);
    put(&mut bytes, PERIOD_AT, place.period.0);
    put(&mut bytes, REQUESTED_AT, place.requested.0);
    put(&mut bytes, SENT_AT, place.sent.0);
    put(&mut bytes, WAIT_AT, place.wait.0);
    put(&mut bytes, SIB_AT, place.sib);
    put(&mut bytes, LIVE_AT, LIVE);
    bytes
}
