// The list of cells of a message that was judged: how many there are, and each of them, out of the message's own bytes.
#![tactic(auto)]

pub mod each;

ghost use Rattle.std.specs.Prelude.{◌≡◌, [], length};
ghost use Rattle.formats.specs.Format.{found};
ghost use Rattle.formats.specs.Summary.{summed};
ghost use Rattle.wire.specs.Cells.{Item, item};
ghost use Rattle.wire_cells.specs.Listed.{JudgedList, CellsCounted, WholeItem, OwnEntry, CellAt};

use aper::{Length, given_at, length_at};
use octets::get;
use rules::{Broadcasts, CellIdentity};
use wire::form::{IDENTITY_AT, IDENTITY_END};
use wire::{Message, identity_at};

// A cell of the list, its count of broadcasts and where its entry ends.
#[derive(Clone, Copy)]
pub struct Cell {
    pub identity: CellIdentity,
    pub count: Broadcasts,
    pub end: usize,
}

// An entry's length stands behind its id and its criticality.
const LENGTH_AT: usize = 3;

// How many cells a list has; none where there is no list.
pub fn cell_count(m: Message, cells: &[u8]) -> usize
    requires { JudgedList m cells.now }
    ensures { CellsCounted m cells.now result }
{
    if cells.is_empty() {
        return 0;
    }
    get::<u16>(cells, 0) as usize + 1
}

// The count of broadcasts behind NR CGI and its extensions; 0 where items have none.
fn count_in(m: Message, entry: &[u8]) -> u16
    requires { WholeItem m entry.now }
    ensures { summed (λ (i : Item). i.count) ((item m).parse entry.now) ≡ found result [] }
{
    if m.count_size() == 0 {
        return 0;
    }
    let extensions = given_at(entry, IDENTITY_END, get::<u8>(entry, 0) / 16 % 2).unwrap();
    get::<u16>(entry, extensions.end)
}

// The cell whose entry stands at an index. The list was judged: of an entry its length alone is read again.
pub fn cell_at(m: Message, cells: &[u8], at: usize) -> Cell
    requires { OwnEntry m cells.now at }
    ensures { CellAt m cells.now at result }
{
    let Length { of, start } = length_at(cells, at + LENGTH_AT).unwrap();
    Cell {
        identity: CellIdentity(identity_at(cells, start + IDENTITY_AT)),
        count: Broadcasts(count_in(m, &cells[start..start + of])),
        end: start + of,
    }
}
