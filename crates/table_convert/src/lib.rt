// A table of an older version, which is version 1, into the current layout (document 02, 3/13): judged by its own version's rules, then every cell widened into a second buffer.
#![tactic(auto)]

mod judge;
mod wide;

ghost use Rattle.std.specs.Prelude.{◌≡◌, Ok};
ghost use Rattle.rules.specs.Refusals.{older_verdict};
ghost use Rattle.rules.specs.Applied.{filled_by, conversion};

use crate::judge::verdict;
use crate::wide::widen;
use octets::get;
use rules::Refusal;
use rules::layout::{CELL, CELL_1, CELLS_AT, HEADER};
use table_build::{put_cells, put_header};

// Any bytes, any buffer: refusals 1 and 2 of a table of an older version, then 8; else the same cells in the current layout. Bytes beyond stay.
pub fn convert(old: &[u8], table: &mut [u8]) -> Result<usize, Refusal>
    ensures { filled_by result table.new ≡ conversion old.now table.old }
{
    verdict(old)?;
    converted(old, table)
}

// The buffer's length is asked before anything is written.
// Stays: beside the end of `build`, since one function for both would promise a third definition beside `built` and `conversion`.
fn converted(old: &[u8], table: &mut [u8]) -> Result<usize, Refusal>
    requires { older_verdict old.now ≡ Ok tt }
    ensures { filled_by result table.new ≡ conversion old.now table.old }
{
    let count = get::<u16>(old, CELLS_AT) as usize;
    let length = HEADER + CELL * count;
    if table.len() < length {
        return Err(Refusal::ShortBuffer);
    }
    put_header(table, count);
    put_cells(table, &old[HEADER..], CELL_1, count, widen);
    Ok(length)
}
