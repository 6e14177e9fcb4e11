// One request applied to one table: the tests 1 to 8, the walk, the answer's head.
ghost use Rattle.std.specs.Prelude.{◌≡◌, ◌≤◌, length, Ok};
ghost use Rattle.rules.specs.Layout.{current, header_size};
ghost use Rattle.rules.specs.Table.{cell_count};
ghost use Rattle.rules.specs.Refusals.{apply_verdict};
ghost use Rattle.rules.specs.Applied.{outcome_by, applied};
ghost use Rattle.engine.specs.Walk.{Granted, is_idle};

use crate::walk::walk;
use answer::{length_with, put_head, room_for};
use octets::get;
use record_read::{count, request};
use rules::kind::WRITE_REPLACE;
use rules::layout::CELLS_AT;
use rules::{Refusal, Request};
use start::{new_bytes, starts_nothing};

fn cells_of(table: &[u8]) -> usize
    requires { header_size ≤ length table.now }
    ensures { result ≡ cell_count table.now }
{
    get::<u16>(table, CELLS_AT) as usize
}

// The first of the refusals 1 to 8 that applies.
fn verdict(table: &[u8], req: &[u8], room: usize) -> Result<(), Refusal>
    ensures { result ≡ apply_verdict current table.now req.now room }
{
    table_judge::verdict(table)?;
    record_read::verdict(req)?;
    let fields = request(req);
    if room < room_for(fields.kind, cells_of(table)) {
        return Err(Refusal::ShortBuffer);
    }
    Ok(())
}

// A start that the zero rules stop.
fn idle(request: Request) -> bool
    ensures { result ≡ is_idle request }
{
    request.kind == WRITE_REPLACE && starts_nothing(request)
}

// An accepted request: the number of rows. A start that the zero rules stop changes no cell.
fn grant(table: &mut [u8], req: &[u8], answer: &mut [u8]) -> usize
    requires { apply_verdict current table.old req.now (length answer.old) ≡ Ok tt }
    ensures { Granted table.old req.now answer.old table.new answer.new result }
{
    let fields = request(req);
    if idle(fields) {
        put_head(answer, fields.kind, fields.identifier, fields.serial, 0);
        return 0;
    }
    let new = new_bytes(fields);
    let rows = walk(
        table,
        cells_of(table),
        req,
        count(req),
        fields,
        &new,
        answer,
    );
    put_head(
        answer,
        fields.kind,
        fields.identifier,
        fields.serial,
        rows as u16,
    );
    rows
}

pub fn apply(table: &mut [u8], req: &[u8], answer: &mut [u8]) -> Result<usize, Refusal>
    ensures { outcome_by result table.new answer.new ≡ applied current table.old req.now answer.old }
{
    verdict(table, req, answer.len())?;
    let rows = grant(table, req, answer);
    Ok(length_with(rows))
}
