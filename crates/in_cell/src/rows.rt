// The row of a cell that is reported once.
ghost use Rattle.std.specs.Prelude.{◌≡◌, ◌≤◌, length};
ghost use Rattle.std.proofs.lemmas.List.Edits.{sets};
ghost use Rattle.rules.specs.Layout.{current, cell_size, row_size};
ghost use Rattle.rules.specs.InCell.{reported};
ghost use Rattle.in_cell.specs.Step.{rows_bytes};

use answer::{Row, put_row};
use cell_read::identity;
use rules::Broadcasts;

// With a count, at the start of the room for rows.
pub fn report(cell: &[u8], count: Broadcasts, out: &mut [u8])
    requires { (length cell.now ≡ cell_size current) × (row_size current ≤ length out.old) }
    ensures { out.new ≡ sets out.old 0 (rows_bytes cell.now (reported count.0)) }
{
    let identity = identity(cell);
    put_row(
        out,
        0,
        Row {
            identity,
            count,
            content: 0,
        },
    );
}
