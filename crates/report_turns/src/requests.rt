// A turn once there is a table: the request at the front of the bytes at hand, or nothing yet.
ghost use Rattle.std.specs.Prelude.{length, Some};
ghost use Rattle.report_turns.specs.Buffers.{ToTake, Stepped, program_in};
ghost use Rattle.report_turns.specs.Turns.{serves};

use crate::serve::serve;
use crate::{Held, Next, Took};
use answer::room_for;
use report_lines::frame::frame;
use report_lines::text::Text;
use rules::kind::ONE_SECOND;
use rules::layout::{CELL, HEADER};

// What lies behind the parts that a table of so many cells asks for stays as it is.
// Stays: table and answer one by one, as in `one_turn`.
pub fn serve_next(
    held: Held,
    cells: usize,
    table: &mut [u8],
    answer: &mut [u8],
    text: &mut Text,
) -> Took
    requires { ToTake (Some cells) (length table.old) (length answer.old) (length text.old.out.now) text.old.at }
    ensures { Stepped (serves held.entry.ended (program_in (Some cells) table.old answer.old) held.entry.bytes.now) table.old answer.old text.old result table.new answer.new text.new }
{
    let Some(size) = frame(held.bytes, held.ended) else {
        return Took {
            cells: Some(cells),
            bytes: 0,
            next: if held.ended { Next::Stop } else { Next::Wait },
        };
    };
    let room = room_for(ONE_SECOND, cells);
    let next = serve(
        &mut table[..HEADER + CELL * cells],
        &held.bytes[..size],
        &mut answer[..room],
        text,
    );
    Took {
        cells: Some(cells),
        bytes: size,
        next,
    }
}
