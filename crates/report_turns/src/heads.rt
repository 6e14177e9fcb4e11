// A turn before there is a table: N and the heads at the front of the bytes at hand, or nothing yet.
ghost use Rattle.std.specs.Prelude.{cond, List, ◌≡◌, ℕ, ◌+◌, ◌≤◌, length, take, None, IfSome};
ghost use Rattle.rules.specs.Layout.{most_cells};
ghost use Rattle.rules.specs.Refusals.{number_of};
ghost use Rattle.rules.specs.Applied.{built};
ghost use Rattle.report_lines.specs.Text.{no_text};
ghost use Rattle.report_lines.specs.Framing.{heads_end};
ghost use Rattle.report_lines.specs.Told.{HasRoom};
ghost use Rattle.report_turns.specs.Report.{answer_room, table_size, heads_there};
ghost use Rattle.report_turns.specs.Serve.{most_text};
ghost use Rattle.report_turns.specs.Buffers.{Stepped, program_in};
ghost use Rattle.report_turns.specs.Turns.{Program, waiting, stopping, no_cells, opened, opens};

use crate::{Held, Next, Took};
use report_lines::frame::cells;
use report_lines::text::Text;
use rules::Refusal;
use rules::layout::{CELL, HEAD, HEADER};
use table_build::build;

// The bytes of N.
const COUNT: usize = 2;

// The cells whose heads are all at hand: none where N or heads are missing, or where N names no cells.
fn cells_there(held: &[u8]) -> Option<usize>
    ensures value { result ≡ heads_there held.now }
    ensures fit_a_table { IfSome result (λ n. n ≤ most_cells) }
    ensures at_hand { IfSome result (λ n. heads_end n ≤ length held.now) }
{
    if held.len() < COUNT {
        return None;
    }
    let n = cells(held)?;
    (COUNT + HEAD * n <= held.len()).then_some(n)
}

fn no_cells(held: &[u8]) -> bool
    ensures { result ≡ no_cells held.now }
{
    if held.len() < COUNT {
        return false;
    }
    cells(held).is_none()
}

// There will be no table.
fn refuse(refusal: Refusal, text: &mut Text) -> Took
    requires { HasRoom text.old most_text }
    ensures { (p : Program) → p.cells ≡ None → Stepped (stopping (no_text (number_of refusal)) p) p.table p.answer text.old result p.table p.answer text.new }
{
    text.put_no(refusal.number());
    Took {
        cells: None,
        bytes: 0,
        next: Next::Stop,
    }
}

// Heads are missing, or there are none to come.
fn without_heads(never: bool, text: &mut Text) -> Took
    requires { HasRoom text.old most_text }
    ensures { (p : Program) → p.cells ≡ None → Stepped (cond never (stopping (no_text 9) p) (waiting p)) p.table p.answer text.old result p.table p.answer text.new }
{
    if never {
        return refuse(Refusal::BadHeads, text);
    }
    Took {
        cells: None,
        bytes: 0,
        next: Next::Wait,
    }
}

// The table is built at the start of its buffer, with all heads at hand.
fn build_table(heads: &[u8], cells: usize, table: &mut [u8], text: &mut Text) -> Took
    requires cells_fit { cells ≤ most_cells }
    requires room_for_table { table_size most_cells ≤ length table.old }
    requires room_for_text { HasRoom text.old most_text }
    ensures { (a : List ℕ) → answer_room most_cells ≤ length a → Stepped (opened cells (program_in None table.old a) (built heads.now (take (table_size cells) table.old))) table.old a text.old result table.new a text.new }
{
    if let Err(refusal) = build(heads, &mut table[..HEADER + CELL * cells]) {
        return refuse(refusal, text);
    }
    Took {
        cells: Some(cells),
        bytes: COUNT + HEAD * cells,
        next: Next::Go,
    }
}

pub fn open_table(held: Held, table: &mut [u8], text: &mut Text) -> Took
    requires room_for_table { table_size most_cells ≤ length table.old }
    requires room_for_text { HasRoom text.old most_text }
    ensures { (a : List ℕ) → answer_room most_cells ≤ length a → Stepped (opens held.entry.ended (program_in None table.old a) held.entry.bytes.now) table.old a text.old result table.new a text.new }
{
    match cells_there(held.bytes) {
        None => without_heads(held.ended | no_cells(held.bytes), text),
        Some(n) => {
            let end = COUNT + HEAD * n;
            build_table(&held.bytes[COUNT..end], n, table, text)
        }
    }
}
