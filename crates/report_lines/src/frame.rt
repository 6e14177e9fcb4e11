// Framing: N, and the bytes that the next record takes.
ghost use Rattle.std.specs.Prelude.{◌≡◌, ◌+◌, ◌-◌, ◌≤◌, length, IfSome};
ghost use Rattle.std.proofs.lemmas.List.Edits.{sets};
ghost use Rattle.octets.specs.Runs.{gets};
ghost use Rattle.rules.specs.Layout.{most_cells};
ghost use Rattle.report_lines.specs.Framing.{count_size, cells_named, own_size, frame_of};

use octets::get;
use record_read::count;
use rules::layout::{ITEM, MOST_CELLS, MOST_ITEMS, RECORD};

// N where it is 1 to 512.
pub fn cells(held: &[u8]) -> Option<usize>
    requires { count_size ≤ length held.now }
    ensures value { result ≡ cells_named held.now }
    ensures fit_a_table { IfSome result (λ n. n ≤ most_cells) }
{
    match get::<u16>(held, 0) as usize {
        n @ 1..=MOST_CELLS => Some(n),
        _ => None,
    }
}

fn own_size(held: &[u8]) -> usize
    ensures { result ≡ own_size held.now }
{
    if held.len() < RECORD {
        return RECORD;
    }
    let n = count(held);
    if MOST_ITEMS < n {
        return RECORD;
    }
    RECORD + ITEM * n
}

// The record at the start of the bytes at hand, where there is one to take: whole, or what the end of the input left of it.
pub fn frame(held: &[u8], ended: bool) -> Option<usize>
    ensures value { result ≡ frame_of held.now ended }
    ensures at_hand { IfSome result (λ size. size ≤ length held.now) }
{
    let size = own_size(held);
    if size <= held.len() {
        return Some(size);
    }
    (ended & !held.is_empty()).then_some(held.len())
}

// Moves the bytes from one index up to another to the front of the buffer; those behind them stay.
pub fn settle(buffer: &mut [u8], from: usize, to: usize)
    requires from_le_to { from ≤ to }
    requires to_in_bounds { to ≤ length buffer.old }
    ensures { buffer.new ≡ sets buffer.old 0 (gets buffer.old from (to - from)) }
{
    buffer.copy_within(from..to, 0);
}
