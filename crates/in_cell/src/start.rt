// Write-Replace in one cell.
ghost use Rattle.rules.specs.InCell.{start};
ghost use Rattle.cell_read.specs.Places.{live_places};
ghost use Rattle.in_cell.specs.Step.{Ready, Stepped, StartIn};

use crate::rows::report;
use cell_change::{add_place, free_all};
use cell_read::seek;
use rules::layout::PLACES;
use rules::{Broadcasts, Request};

// One search finds the text, or else the first free place. `new` has the bytes of the new place, made once for a request.
// Stays: request and place handed over one by one, since docs/PROMISES.md names the function with what it asks of them (`StartIn`).
pub fn start_in_cell(cell: &mut [u8], request: Request, new: &[u8], out: &mut [u8]) -> usize
    requires ready { Ready cell.old out.old 1 }
    requires start_in { StartIn request new.now }
    ensures { Stepped (start request (live_places cell.old)) cell.old out.old cell.new out.new 1 result }
{
    match seek(cell, request.text()) {
        Ok(_) => {
            report(cell, Broadcasts(0), out);
            1
        }
        Err(_) if !request.concurrent() => {
            report(cell, Broadcasts(0), out);
            free_all(cell);
            add_place(cell, 0, new);
            1
        }
        Err(free) if free < PLACES => {
            report(cell, Broadcasts(0), out);
            add_place(cell, free, new);
            1
        }
        Err(_) => 0,
    }
}
