// The cells of a judged list, written one behind the other. What is written of a cell is a type parameter, so that the loop is compiled for each form of its own.
ghost use Rattle.std.specs.Prelude.{◌+◌, ◌*◌, ◌≤◌, ◌≡◌, ℕ, List, length};
ghost use mathlib.Core.List.{flat_map};
ghost use Rattle.std.proofs.lemmas.List.Edits.{sets};
ghost use Rattle.rules.specs.Reply.{Row};
ghost use Rattle.wire_cells.specs.Listed.{JudgedList, rows_listed, row_said};

use crate::{Cell, cell_at, cell_count};
use wire::Message;

// A form of a cell, in so many bytes.
pub trait Form {
    ghost form: { Row → List ℕ };

    ghost SIZE: { ℕ };

    const SIZE: usize;

    fn put(out: &mut [u8], at: usize, cell: Cell)
        requires { at + SIZE ≤ length out.old }
        ensures { out.new ≡ sets out.old at (form (row_said cell)) };

    ghost sized: { (w : Row) → length (form w) ≡ SIZE };
}

// The first entry of a list stands behind the number of them.
const FIRST_ENTRY_AT: usize = 2;

// Every cell of the list, from an index of the bytes that are written to.
pub fn put_each<F: Form>(m: Message, out: &mut [u8], from: usize, cells: &[u8])
    requires judged_list { JudgedList m cells.now }
    requires has_room { from + F.SIZE * length (rows_listed m cells.now) ≤ length out.old }
    ensures { out.new ≡ sets out.old from (flat_map F.form (rows_listed m cells.now)) }
{
    let mut at = FIRST_ENTRY_AT;
    let mut to = from;
    for _ in 0..cell_count(m, cells) {
        let cell = cell_at(m, cells, at);
        F::put(out, to, cell);
        to += F::SIZE;
        at = cell.end;
    }
}
