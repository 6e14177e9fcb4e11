// The judge of a table: each rule of document 01, "The table", is tested where the bytes stand, in one pass.
#![tactic(auto)]

ghost use Rattle.std.specs.Prelude.{true, ◌≡◌, ◌+◌, ◌*◌, ◌<◌, ◌≤◌, length, drop};
ghost use Rattle.octets.specs.Numbers.{be};
ghost use Rattle.octets.specs.Runs.{gets, pieces};
ghost use Rattle.rules.specs.Lists.{larger, every};
ghost use Rattle.rules.specs.Layout.{current, head_size, place_size, places_per_cell, cell_size, cell_end};
ghost use Rattle.rules.specs.Table.{identity_at, all_areas, legal_head, place_of, is_free, legal_place, legal_places, legal_cell, table_marked};
ghost use Rattle.rules.specs.Identity.{identity_number};
ghost use Rattle.rules.specs.Refusals.{table_verdict};
ghost use Rattle.table_judge.specs.Judge.{legal_areas, legal_live, legal_header, legal_runs, IsTest};

use octets::{Number, get};
use rules::layout::{
    AREA, AREAS_AT, AREAS_USED_AT, CELL, CELL_END, CELLS_AT, CONTENT_AT, FILLING_AT, FIRST_SIB,
    HEAD, HEADER, LAST_SIB, LIVE_AT, LONGEST_PERIOD, MOST_CELLS, PERIOD_AT, PLACE, PLACE_SERIAL_AT,
    PLACES, PLACES_AT, REQUESTED_AT, SENT_AT, SIB_AT, TABLE_MARK, TABLE_VERSION, VERSION_AT,
    WAIT_AT, ZEROS_AT,
};
use rules::{Broadcasts, CellIdentity, Place, Refusal, Seconds};

// Where areas stand in a head, and the four bytes that end with the last of them.
const SECOND_AREA_AT: usize = AREAS_AT + AREA;

const THIRD_AREA_AT: usize = AREAS_AT + 2 * AREA;

const LAST_FOUR_AT: usize = HEAD - u32::BYTES;

// Any bytes: accepted, or document 01's refusal 1 or 2.
pub fn verdict(table: &[u8]) -> Result<(), Refusal>
    ensures { result ≡ table_verdict current table.now }
{
    if !marked(table, TABLE_VERSION) {
        return Err(Refusal::TableMark);
    }
    if !header_legal(table, CELL) {
        return Err(Refusal::TableWrong);
    }
    let count = get::<u16>(table, CELLS_AT) as usize;
    if !runs_legal(&table[HEADER..], CELL, count, cell_legal) {
        return Err(Refusal::TableWrong);
    }
    Ok(())
}

// Shorter than its mark and version, a table has neither. The version's upper byte is zero: it is read with the mark.
pub fn marked(table: &[u8], version: u8) -> bool
    ensures { result ≡ table_marked version table.now }
{
    if table.len() < CELLS_AT {
        return false;
    }
    (get::<u32>(table, 0) == TABLE_MARK * 256) & (get::<u8>(table, VERSION_AT + 1) == version)
}

// The count of cells, the places per cell, the zeros and the exact length, of cells of so many bytes.
pub fn header_legal(table: &[u8], cell: usize) -> bool
    requires { cell ≤ cell_size current }
    ensures { result ≡ legal_header cell table.now }
{
    if table.len() < HEADER {
        return false;
    }
    let count = get::<u16>(table, CELLS_AT) as usize;
    ((1 <= count) & (count <= MOST_CELLS))
        & (get::<u8>(table, PLACES_AT) as usize == PLACES)
        & (get::<u64>(table, ZEROS_AT) == 0)
        & (table.len() == HEADER + cell * count)
}

// So many runs of one size back to back, cells or heads of some version: each legal by the caller's test, and in order.
// `least` is the least NR CGI that may follow. The builder and the converter ask this too.
// Stays: an index and a count, since `chunks_exact` has four instructions more for each cell (32,305 for 30,256 with 512 empty cells), and the
// count out of the length four for a call.
pub fn runs_legal<F: Fn(&[u8]) -> bool>(runs: &[u8], size: usize, count: usize, legal: F) -> bool
    requires heads_whole { head_size current ≤ size }
    requires runs_whole { length runs.now ≡ size * count }
    requires may_be_asked { (run : _) → length run.now ≡ size → F.pre legal run }
    requires has_a_next { (run : _) → F.post legal run true → identity_at current run.now < cell_end }
    ensures { (test : _) → IsTest F.Fn legal test → result ≡ legal_runs current test (pieces size count runs.now) }
{
    let mut least = CellIdentity(0);
    for k in 0..count {
        let at = size * k;
        let run = &runs[at..at + size];
        let identity = identity_at(run, 0);
        if identity.below(least) {
            return false;
        }
        if !legal(run) {
            return false;
        }
        least = identity.next();
    }
    true
}

// The NR CGI of the cell or head from an index on.
pub fn identity_at(runs: &[u8], at: usize) -> CellIdentity
    requires { at + head_size current ≤ length runs.now }
    ensures { identity_number result ≡ identity_at current (drop at runs.now) }
{
    CellIdentity(get::<u64>(runs, at))
}

fn cell_legal(cell: &[u8]) -> bool
    requires { length cell.now ≡ cell_size current }
    ensures { result ≡ legal_cell current cell.now }
{
    head_legal(&cell[..HEAD]) & places_legal(&cell[HEAD..])
}

// The builder and the converter ask this too.
pub fn head_legal(head: &[u8]) -> bool
    requires { length head.now ≡ head_size current }
    ensures { result ≡ legal_head current head.now }
{
    (identity_at(head, 0).0 < CELL_END) & areas_legal(head, get::<u8>(head, AREAS_USED_AT))
}

// A test for each number of areas: the used ones first and ascending, the rest zero. Each asks no more than it needs.
// Stays: tests in a row, since `match used` becomes a table of jumps: seven instructions more for each cell without areas (70,192 for 66,608
// with 512 cells of two places).
fn areas_legal(head: &[u8], used: u8) -> bool
    requires { length head.now ≡ head_size current }
    ensures { result ≡ legal_areas used (all_areas current head.now) }
{
    if used == 0 {
        return (get::<u64>(head, AREAS_AT) == 0) & (get::<u32>(head, LAST_FOUR_AT) == 0);
    }
    if used == 1 {
        return (get::<u8>(head, SECOND_AREA_AT) == 0) & (get::<u64>(head, SECOND_AREA_AT + 1) == 0);
    }
    let a = upper24(head, AREAS_AT);
    let b = upper24(head, SECOND_AREA_AT);
    if used == 2 {
        return (a < b)
            & (get::<u16>(head, THIRD_AREA_AT) == 0)
            & (get::<u32>(head, LAST_FOUR_AT) == 0);
    }
    let c = upper24(head, THIRD_AREA_AT);
    let d = lower24(head, LAST_FOUR_AT);
    if used == 3 {
        return (a < b) & (b < c) & (d == 0);
    }
    if used == 4 {
        return (a < b) & (b < c) & (c < d);
    }
    false
}

// The number that the first three of four bytes say: one load, where one of 24 bits is two.
fn upper24(s: &[u8], at: usize) -> u32
    requires { at + 4 ≤ length s.now }
    ensures { result ≡ be (gets s.now at 3) }
{
    get::<u32>(s, at) / 256
}

// The number that the last three of four bytes say.
fn lower24(s: &[u8], at: usize) -> u32
    requires { at + 4 ≤ length s.now }
    ensures { result ≡ be (gets s.now (at + 1) 3) }
{
    get::<u32>(s, at) % 16777216
}

// The converter asks this too. `a`, `b` and `c` are the last three texts: an identifier and a serial number each, as one number, the last first.
pub fn places_legal(places: &[u8]) -> bool
    requires { length places.now ≡ place_size current * places_per_cell }
    ensures { result ≡ legal_places current (pieces (place_size current) places_per_cell places.now) }
{
    let mut a: Option<u32> = None;
    let mut b: Option<u32> = None;
    let mut c: Option<u32> = None;
    for k in 0..PLACES {
        let at = PLACE * k;
        if get::<u8>(places, at + LIVE_AT) == 0 {
            return all_free(places, at, PLACES - k);
        }
        let text = Some(get::<u32>(places, at));
        if !(live_legal(&places[at..at + PLACE]) & (text != a) & (text != b) & (text != c)) {
            return false;
        }
        c = b;
        b = a;
        a = text;
    }
    true
}

// The last places of a cell.
// Stays: written out, since a loop over them is not unrolled: thirteen instructions more for each empty cell (36,912 for 30,256 with 512).
fn all_free(places: &[u8], at: usize, left: usize) -> bool
    requires { (1 ≤ left) × (left ≤ places_per_cell) × (at + place_size current * left ≤ length places.now) }
    ensures { result ≡ every is_free (pieces (place_size current) left (drop at places.now)) }
{
    if left == 1 {
        return place_free(places, at);
    }
    if left == 2 {
        return place_free(places, at) & place_free(places, at + PLACE);
    }
    if left == 3 {
        return place_free(places, at)
            & place_free(places, at + PLACE)
            & place_free(places, at + 2 * PLACE);
    }
    place_free(places, at)
        & place_free(places, at + PLACE)
        & place_free(places, at + 2 * PLACE)
        & place_free(places, at + 3 * PLACE)
}

// All 24 bytes are zero. One width: the compiler makes one test of these, also of several places.
fn place_free(places: &[u8], at: usize) -> bool
    requires { at + place_size current ≤ length places.now }
    ensures { result ≡ is_free (gets places.now at (place_size current)) }
{
    (get::<u64>(places, at) == 0)
        & (get::<u64>(places, at + u64::BYTES) == 0)
        & (get::<u64>(places, at + 2 * u64::BYTES) == 0)
}

fn live_legal(place: &[u8]) -> bool
    requires { length place.now ≡ place_size current }
    ensures { result ≡ legal_live place.now }
{
    (get::<u8>(place, LIVE_AT) == 1)
        & (get::<u16>(place, FILLING_AT) == 0)
        & terms_legal(place_of(place))
}

// The place that 24 bytes say.
// Stays: a function and no From, which has no `requires` and would be of two types that are not this crate's.
fn place_of(place: &[u8]) -> Place
    requires { length place.now ≡ place_size current }
    ensures { result ≡ place_of current place.now }
{
    Place {
        identifier: get::<u16>(place, 0),
        serial: get::<u16>(place, PLACE_SERIAL_AT),
        content: get::<u32>(place, CONTENT_AT),
        period: Seconds(get::<u32>(place, PERIOD_AT)),
        requested: Broadcasts(get::<u16>(place, REQUESTED_AT)),
        sent: Broadcasts(get::<u16>(place, SENT_AT)),
        wait: Seconds(get::<u32>(place, WAIT_AT)),
        sib: get::<u8>(place, SIB_AT),
    }
}

// What document 01 asks of a live place.
fn terms_legal(place: Place) -> bool
    ensures { result ≡ legal_place current place }
{
    (place.period.0 <= LONGEST_PERIOD)
        & ((place.period.0 != 0) | (place.requested.0 == 1))
        & (place.wait.0 < wait_end(place.period).0)
        & ((place.requested.0 == 0) | (place.sent.0 < place.requested.0))
        & ((FIRST_SIB <= place.sib) & (place.sib <= LAST_SIB))
}

// What a wait stays below.
fn wait_end(period: Seconds) -> Seconds
    ensures { result.0 ≡ larger period.0 1 }
{
    Seconds(period.0.max(1))
}
