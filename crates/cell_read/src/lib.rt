// A cell of a table in its lent bytes, read: of one place, by its number; of all, which has a text; and of the head. What is said of it
// is the list of its live places and a place's number, so that a layout's offsets stay in here and in `cell_change`, which changes it.
#![tactic(auto)]

ghost use Rattle.std.specs.Prelude.{◌≡◌, ◌<◌, ltb, length, take, IfOk, IfErr};
ghost use Rattle.rules.specs.Layout.{current, head_size, places_per_cell, cell_size};
ghost use Rattle.rules.specs.Identity.{identity_number, tracking_item};
ghost use Rattle.rules.specs.Table.{head_of, text_of};
ghost use Rattle.cell_read.specs.Places.{live_places, Formed, place_at, LiveAt, index_of, HeadAreas};

use octets::{get, get24};
use rules::layout::{
    AREA, AREAS_AT, AREAS_USED_AT, CODE_AT, CONTENT_AT, HEAD, LIVE_AT, PERIOD_AT, PLACE, PLACES,
    REQUESTED_AT, SENT_AT, WAIT_AT,
};
use rules::{Broadcasts, CellIdentity, Seconds};

// ---- one place
// Stays: functions of a cell and a place's number, and no struct of the two, since docs/PROMISES.md names each with what it asks (`LiveAt`).

// How often and how many times a text is broadcast.
#[derive(Clone, Copy)]
pub struct Terms {
    pub period: Seconds,
    pub requested: Broadcasts,
}

pub fn is_live(cell: &[u8], k: usize) -> bool
    requires formed { Formed cell.now }
    requires place_in_cell { k < places_per_cell }
    ensures { result ≡ ltb k (length (live_places cell.now)) }
{
    get::<u8>(cell, HEAD + PLACE * k + LIVE_AT) != 0
}

// Identifier and serial number, side by side.
fn text(cell: &[u8], k: usize) -> u32
    requires { LiveAt cell.now k }
    ensures { result ≡ text_of (place_at cell.now k) }
{
    get::<u32>(cell, HEAD + PLACE * k)
}

pub fn content(cell: &[u8], k: usize) -> u32
    requires { LiveAt cell.now k }
    ensures { result ≡ (place_at cell.now k).content }
{
    get::<u32>(cell, HEAD + PLACE * k + CONTENT_AT)
}

pub fn terms_of(cell: &[u8], k: usize) -> Terms
    requires { LiveAt cell.now k }
    ensures { (result.period ≡ (place_at cell.now k).period) × (result.requested ≡ (place_at cell.now k).requested) }
{
    Terms {
        period: Seconds(get::<u32>(cell, HEAD + PLACE * k + PERIOD_AT)),
        requested: Broadcasts(get::<u16>(cell, HEAD + PLACE * k + REQUESTED_AT)),
    }
}

pub fn sent(cell: &[u8], k: usize) -> Broadcasts
    requires { LiveAt cell.now k }
    ensures { result ≡ (place_at cell.now k).sent }
{
    Broadcasts(get::<u16>(cell, HEAD + PLACE * k + SENT_AT))
}

pub fn wait(cell: &[u8], k: usize) -> Seconds
    requires { LiveAt cell.now k }
    ensures { result ≡ (place_at cell.now k).wait }
{
    Seconds(get::<u32>(cell, HEAD + PLACE * k + WAIT_AT))
}

// ---- the place of a text

// Where the search for a text ended: at the text, or else at the first free place, or behind the last.
pub fn seek(cell: &[u8], wanted: u32) -> Result<usize, usize>
    requires { Formed cell.now }
    ensures found { IfOk result (λ at. (at ≡ index_of wanted (live_places cell.now)) × (at < length (live_places cell.now))) }
    ensures missing { IfErr result (λ at. (at ≡ index_of wanted (live_places cell.now)) × (at ≡ length (live_places cell.now))) }
{
    for k in 0..PLACES {
        if !is_live(cell, k) {
            return Err(k);
        }
        if text(cell, k) == wanted {
            return Ok(k);
        }
    }
    Err(PLACES)
}

// ---- the head

// The emergency areas of a head, of which the first `used` count.
// Stays: an array and how many of it count, since there are four at most and no heap.
#[derive(Clone, Copy)]
pub struct Areas {
    pub used: u8,
    pub all: [u32; 4],
}

pub fn identity(cell: &[u8]) -> CellIdentity
    requires { length cell.now ≡ cell_size current }
    ensures { identity_number result ≡ (head_of current (take (head_size current) cell.now)).identity }
{
    CellIdentity(get::<u64>(cell, 0))
}

// The item that names the cell's tracking area.
pub fn tracking(cell: &[u8]) -> u64
    requires { length cell.now ≡ cell_size current }
    ensures { result ≡ tracking_item (head_of current (take (head_size current) cell.now)).identity (head_of current (take (head_size current) cell.now)).code }
{
    let identity = identity(cell);
    identity.tracking_item(get24(cell, CODE_AT))
}

pub fn areas_of(cell: &[u8]) -> Areas
    requires { length cell.now ≡ cell_size current }
    ensures { HeadAreas (take (head_size current) cell.now) result }
{
    Areas {
        used: get::<u8>(cell, AREAS_USED_AT),
        all: [
            get24(cell, AREAS_AT),
            get24(cell, AREAS_AT + AREA),
            get24(cell, AREAS_AT + 2 * AREA),
            get24(cell, AREAS_AT + 3 * AREA),
        ],
    }
}
