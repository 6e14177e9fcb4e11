// One request in one reached cell, by its kind.
ghost use Rattle.std.specs.Prelude.{◌≡◌};
ghost use Rattle.rules.specs.Record.{one_second};
ghost use Rattle.rules.specs.InCell.{in_cell};
ghost use Rattle.rules.specs.Answer.{rows_per_cell};
ghost use Rattle.cell_read.specs.Places.{live_places};
ghost use Rattle.in_cell.specs.Step.{Ready, Stepped, ToStep};

use crate::cancel::{cancel_in_cell, failure_in_cell, restart_in_cell};
use crate::start::start_in_cell;
use rules::Request;
use rules::kind::{CANCEL_OR_KILL, RESTART, WRITE_REPLACE};

// A request of no other kind is accepted, and a second goes its own way, so what is left is a failure.
// Stays: request and place handed over one by one, as in `start_in_cell`: docs/PROMISES.md names it with what it asks (`ToStep`).
pub fn step_cell(cell: &mut [u8], request: Request, new: &[u8], out: &mut [u8]) -> usize
    requires ready { Ready cell.old out.old (rows_per_cell request.kind) }
    requires to_step { (ToStep request new.now) × (request.kind ≡ one_second → ⊥) }
    ensures { Stepped (in_cell request (live_places cell.old)) cell.old out.old cell.new out.new (rows_per_cell request.kind) result }
{
    match request.kind {
        WRITE_REPLACE => start_in_cell(cell, request, new, out),
        CANCEL_OR_KILL => cancel_in_cell(cell, request, out),
        RESTART => restart_in_cell(cell, out),
        _ => failure_in_cell(cell, out),
    }
}
