// What a cell is sought by: read once for each cell and turned as the items lie, so that an item costs a comparison for each key.
ghost use Rattle.std.specs.Prelude.{◌≡◌, ℕ, ◌+◌, ◌≤◌, length, take};
ghost use Rattle.octets.specs.Runs.{gets};
ghost use Rattle.octets.specs.Numbers.{be};
ghost use Rattle.rules.specs.Lists.{one_of};
ghost use Rattle.rules.specs.Layout.{current, cell_size, head_size, item_size};
ghost use Rattle.engine.specs.Reach.{named_by, turned_keys, KeysOf};

use cell_read::{areas_of, identity, tracking};
use octets::{says64, turned64};
use rules::kind::{CELLS, EMERGENCY_AREAS, TRACKING_AREAS};

// The keys of a cell, each turned, of which the first `keys` are in use: its NR CGI, the item that names its tracking area, or its
// emergency areas.
// Stays: an array and how many of it count, since there are four at most and no heap.
#[derive(Clone, Copy)]
pub struct Naming {
    pub keys: u8,
    pub turned: [u64; 4],
}

// Stays: each key turned by itself. Of `all.map(turned64)` it is known that a call gave each (`IsMapOf`), and that these are the keys turned was
// not proved.
fn keyed(keys: u8, all: [u64; 4]) -> Naming
    ensures turned { result ≡ turned_keys keys all }
    ensures meant { (x : ℕ) → named_by result x ≡ one_of x (take keys all) }
{
    let [first, second, third, fourth] = all;
    Naming {
        keys,
        turned: [
            turned64(first),
            turned64(second),
            turned64(third),
            turned64(fourth),
        ],
    }
}

// Without an area, and for an unknown one, a cell has no key.
pub fn naming_of(cell: &[u8], area: u8) -> Naming
    requires { length cell.now ≡ cell_size current }
    ensures { KeysOf area (take (head_size current) cell.now) result }
{
    match area {
        CELLS => keyed(1, [identity(cell).cell_item(), 0, 0, 0]),
        TRACKING_AREAS => keyed(1, [tracking(cell), 0, 0, 0]),
        EMERGENCY_AREAS => {
            let areas = areas_of(cell);
            let [first, second, third, fourth] = areas.all;
            keyed(
                areas.used,
                [first as u64, second as u64, third as u64, fourth as u64],
            )
        }
        _ => keyed(0, [0; 4]),
    }
}

// Whether the item at an index is one of the keys in use.
// Stays: a test for each key and no loop over them, since this is asked for each item of each cell. In a trial of both loops alone, over
// 512 items that match nothing and 512 cells, the tests took 110 µs with one key and 258 with four, a `for` over the keys 259 and 766, and
// `s.turned.iter().take(s.keys as usize).any(..)` 342 and 766.
pub fn named(s: Naming, req: &[u8], at: usize) -> bool
    requires { at + item_size current ≤ length req.now }
    ensures { result ≡ named_by s (be (gets req.now at (item_size current))) }
{
    let [first, second, third, fourth] = s.turned;
    if s.keys == 0 {
        return false;
    }
    if says64(req, at, first) {
        return true;
    }
    if s.keys == 1 {
        return false;
    }
    if says64(req, at, second) {
        return true;
    }
    if s.keys == 2 {
        return false;
    }
    if says64(req, at, third) {
        return true;
    }
    if s.keys == 3 {
        return false;
    }
    says64(req, at, fourth)
}
