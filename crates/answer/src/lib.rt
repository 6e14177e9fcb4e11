// An answer in lent bytes: the room that it asks for, its head and its rows, written; its kind and its rows, read.
#![tactic(auto)]

ghost use Rattle.std.specs.Prelude.{◌≡◌, ◌+◌, ◌*◌, ◌≤◌, length};
ghost use Rattle.std.proofs.lemmas.List.Edits.{sets};
ghost use Rattle.rules.specs.Layout.{current, answer_size, row_size, most_cells, places_per_cell};
ghost use Rattle.rules.specs.Identity.{identity_number};
ghost use Rattle.rules.specs.Record.{kind_of, unknown_kind};
ghost use Rattle.rules.specs.Answer.{answer_of, answer_head, row_bytes, row_count, room_for};
ghost use Rattle.answer.specs.Rows.{row_at, row_said};

use octets::{get, put};
use rules::kind::ONE_SECOND;
use rules::layout::{
    ANSWER, ANSWER_KIND_AT, ANSWER_MARK, ANSWER_SERIAL_AT, ANSWER_VERSION, CONTENT_IN_ROW_AT,
    COUNT_IN_ROW_AT, PLACES, ROW, ROWS_AT,
};
use rules::{Broadcasts, CellIdentity};

// What a row says.
#[derive(Clone, Copy)]
pub struct Row {
    pub identity: CellIdentity,
    pub count: Broadcasts,
    pub content: u32,
}

// ---- the room

// Room for one row of each cell, or one for each place for a second.
pub fn room_for(kind: u8, cells: usize) -> usize
    requires { (cells ≤ 65535) × (kind_of kind ≡ unknown_kind → ⊥) }
    ensures { result ≡ room_for current kind cells }
{
    if kind == ONE_SECOND {
        return ANSWER + ROW * PLACES * cells;
    }
    ANSWER + ROW * cells
}

// The bytes of an answer with so many rows.
pub fn length_with(rows: usize) -> usize
    requires { rows ≤ places_per_cell * most_cells }
    ensures { result ≡ answer_size current + row_size current * rows }
{
    ANSWER + ROW * rows
}

// ---- written

// Mark, version, kind and identifier are one number, serial number and the count of rows another.
pub fn put_head(answer: &mut [u8], kind: u8, identifier: u16, serial: u16, rows: u16)
    requires { answer_size current ≤ length answer.old }
    ensures { answer.new ≡ sets answer.old 0 (answer_head current kind identifier serial rows) }
{
    let marked = (ANSWER_MARK as u64) * 65536 + (ANSWER_VERSION as u64);
    put(
        answer,
        0,
        (marked * 256 + (kind as u64)) * 65536 + (identifier as u64),
    );
    put(
        answer,
        ANSWER_SERIAL_AT,
        (serial as u32) * 65536 + (rows as u32),
    );
}

// A row at an index of the bytes behind the head.
pub fn put_row(out: &mut [u8], at: usize, row: Row)
    requires { at + row_size current ≤ length out.old }
    ensures { out.new ≡ sets out.old at (row_bytes current (row_said row)) }
{
    put(out, at, row.identity.0);
    put(out, at + COUNT_IN_ROW_AT, row.count.0);
    put(out, at + CONTENT_IN_ROW_AT, row.content);
}

// ---- read

pub fn kind(answer: &[u8]) -> u8
    requires { answer_size current ≤ length answer.now }
    ensures { result ≡ (answer_of current answer.now).kind }
{
    get::<u8>(answer, ANSWER_KIND_AT)
}

// How many rows the head says that there are.
pub fn rows(answer: &[u8]) -> usize
    requires { answer_size current ≤ length answer.now }
    ensures { result ≡ row_count current answer.now }
{
    get::<u16>(answer, ROWS_AT) as usize
}

// Row k, counted from 0.
pub fn row_at(answer: &[u8], k: usize) -> Row
    requires { answer_size current + row_size current * k + row_size current ≤ length answer.now }
    ensures { row_said result ≡ row_at answer.now k }
{
    let at = ANSWER + ROW * k;
    Row {
        identity: CellIdentity(get::<u64>(answer, at)),
        count: Broadcasts(get::<u16>(answer, at + COUNT_IN_ROW_AT)),
        content: get::<u32>(answer, at + CONTENT_IN_ROW_AT),
    }
}
