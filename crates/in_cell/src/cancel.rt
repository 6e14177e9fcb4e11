// Cancel, Restart and Failure in one cell.
ghost use Rattle.rules.specs.InCell.{cancel, restart, failure};
ghost use Rattle.cell_read.specs.Places.{live_places};
ghost use Rattle.in_cell.specs.Step.{Ready, Stepped};
ghost use Rattle.in_cell.specs.Stop.{stop_text};

use crate::rows::report;
use cell_change::{drop_place, free_all};
use cell_read::{is_live, seek, sent};
use rules::{Broadcasts, Request};

pub fn restart_in_cell(cell: &mut [u8], out: &mut [u8]) -> usize
    requires { Ready cell.old out.old 1 }
    ensures { Stepped (restart (live_places cell.old)) cell.old out.old cell.new out.new 1 result }
{
    report(cell, Broadcasts(0), out);
    free_all(cell);
    1
}

// The same, but a cell without a live place is not reported.
pub fn failure_in_cell(cell: &mut [u8], out: &mut [u8]) -> usize
    requires { Ready cell.old out.old 1 }
    ensures { Stepped (failure (live_places cell.old)) cell.old out.old cell.new out.new 1 result }
{
    if is_live(cell, 0) {
        restart_in_cell(cell, out)
    } else {
        0
    }
}

// The place with that text stops; identifier and serial number are one number. Places move only if it was found.
fn cancel_text(cell: &mut [u8], text: u32, out: &mut [u8]) -> usize
    requires { Ready cell.old out.old 1 }
    ensures { Stepped (stop_text text (live_places cell.old)) cell.old out.old cell.new out.new 1 result }
{
    match seek(cell, text) {
        Ok(at) => {
            let count = sent(cell, at);
            report(cell, count, out);
            drop_place(cell, at);
            1
        }
        Err(_) => 0,
    }
}

// Flag 2 stops all places, as a failure does; otherwise the one text stops.
pub fn cancel_in_cell(cell: &mut [u8], request: Request, out: &mut [u8]) -> usize
    requires { Ready cell.old out.old 1 }
    ensures { Stepped (cancel request (live_places cell.old)) cell.old out.old cell.new out.new 1 result }
{
    if request.cancels_all() {
        return failure_in_cell(cell, out);
    }
    cancel_text(cell, request.text(), out)
}
