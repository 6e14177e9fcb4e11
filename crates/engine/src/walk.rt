// The walk: cells around items, for every kind.
ghost use Rattle.rules.specs.Record.{request_of};
ghost use Rattle.engine.specs.Walk.{WalkIn, SecondIn, WalkOut};

use crate::reach::{named, naming_of};
use in_cell::second::second_in_cell;
use in_cell::step::step_cell;
use rules::Request;
use rules::kind::{NO_AREA, ONE_SECOND};
use rules::layout::{ANSWER, CELL, HEADER, ITEM, RECORD, ROW};

// Only the bytes of a reached cell are lent on. Without an area there are no items, and every cell is reached. What was looked at is
// where the search stands: it leaves with the items up to and including the first match, or all of them.
// Stays: what is handed over one by one, since docs/PROMISES.md names the function with what it asks of them (`WalkIn`).
pub fn walk(
    table: &mut [u8],
    cells: usize,
    req: &[u8],
    items: usize,
    request: Request,
    new: &[u8],
    answer: &mut [u8],
) -> usize
    requires { WalkIn table.old cells req.now items request new.now answer.old }
    ensures { WalkOut table.old req.now request answer.old table.new answer.new result }
{
    if request.kind == ONE_SECOND {
        return seconds(table, cells, req, answer);
    }
    let area = request.area;
    let mut rows: usize = 0;
    'cells: for c in 0..cells {
        let at = HEADER + CELL * c;
        let naming = naming_of(&table[at..at + CELL], area);
        let mut reached = area == NO_AREA;
        // Stays: a loop that counts by hand, since where the search stands is how many items were looked at (docs/DECISIONS.md), and what
        // the edit `all_counted_after_a_match` makes of that count is refused.
        let mut looked: usize = 0;
        'items: while looked < items {
            let from = RECORD + ITEM * looked;
            looked += 1;
            if named(naming, req, from) {
                reached = true;
                break 'items;
            }
        }
        if reached {
            let out = ANSWER + ROW * rows;
            let n = step_cell(&mut table[at..at + CELL], request, new, &mut answer[out..]);
            rows += n;
        }
    }
    rows
}

// A second has no area: every cell is reached, and no items are looked through. `req` is there for what is promised of it.
// Stays: a loop of its own, whose counters stay in registers, and not one loop that is handed what to do in a cell, since document 01 names the
// form of the walk, a loop over cells around one over items (docs/DECISIONS.md).
fn seconds(table: &mut [u8], cells: usize, req: &[u8], answer: &mut [u8]) -> usize
    requires { SecondIn table.old cells req.now answer.old }
    ensures { WalkOut table.old req.now (request_of req.now) answer.old table.new answer.new result }
{
    let mut rows: usize = 0;
    'cells: for k in 0..cells {
        let at = HEADER + CELL * k;
        let out = ANSWER + ROW * rows;
        rows += second_in_cell(&mut table[at..at + CELL], &mut answer[out..]);
    }
    rows
}
