// A PWS CANCEL REQUEST taken straight from the wire (document 02, 5/13): the message is judged, and then the record is written, each cell out of the
// message's own bytes.
#![tactic(auto)]

ghost use Rattle.std.specs.Prelude.{◌≡◌, false};
ghost use Rattle.rules.specs.Applied.{filled_by};
ghost use Rattle.wire.specs.MessageOutcome.{taken_by};
ghost use Rattle.wire.specs.CancelRead.{cancel_read, flags_of};
ghost use Rattle.wire.specs.declared.Message.TheVariants.{CancelRequest};
ghost use Rattle.wire_judge.specs.Account.{Lies, account_by};
ghost use Rattle.wire_cancel.specs.Taken.{area_by, request_by, recorded};

use octets::put;
use record_write::put_fields;
use rules::kind::{CANCEL_ALL, CANCEL_OR_KILL, CELLS, NO_AREA, NOTIFIED};
use rules::layout::{ITEM, RECORD};
use rules::{Broadcasts, Refusal, Request, Seconds};
use wire::{Message, Taken};
use wire_cells::each::{Form, put_each};
use wire_cells::{Cell, cell_count};
use wire_judge::{Judged, Seen, judge};

// ---- the record

// A cell as an item of the record.
struct Item;

impl Form for Item {
    ghost use Rattle.rules.specs.Layout.{current, item_size};
    ghost use Rattle.wire_cancel.specs.Taken.{item_of};
    ghost use Rattle.octets.proofs.NumbersLaws.{length-to_be};

    ghost form = { item_of };

    ghost SIZE = { item_size current };

    const SIZE: usize = ITEM;

    fn put(out: &mut [u8], at: usize, cell: Cell) {
        put(out, at, cell.identity.0);
    }

    ghost sized = { λ w. length-to_be (item_size current) w.identity };
}

// Stays: this and the next two as functions and no From, since the types are numbers or other crates'.
fn flags_of(all: bool, noted: bool) -> u8
    ensures { result ≡ flags_of all noted }
{
    (all as u8) * CANCEL_ALL + (noted as u8) * NOTIFIED
}

fn area_of(cells: usize) -> u8
    ensures { result ≡ area_by cells }
{
    match cells {
        0 => NO_AREA,
        _ => CELLS,
    }
}

// The request that a message with so many cells makes.
#[tactic(auto, unfolding(crate::specs::Taken::request_by))]
fn request_of(seen: Seen, cells: usize) -> Request
    ensures { result ≡ request_by seen cells }
{
    Request {
        kind: CANCEL_OR_KILL,
        flags: flags_of(seen.all, seen.noted),
        area: area_of(cells),
        identifier: seen.identifier,
        serial: seen.serial,
        content: 0,
        period: Seconds(0),
        requested: Broadcasts(seen.requested),
        sib: 0,
    }
}

// 7, then 8, or the record at the start of the buffer; bytes behind it stay.
fn put_record(elements: &[u8], seen: Seen, buffer: &mut [u8]) -> Result<usize, Refusal>
    requires lies { Lies CancelRequest elements.now seen }
    requires every_cell_known { seen.lacks ≡ false }
    ensures { filled_by result buffer.new ≡ recorded (account_by CancelRequest elements.now seen).says buffer.old }
{
    if !(seen.all | seen.noted) {
        return Err(Refusal::CancelsNothing);
    }
    let cells = &elements[seen.start..seen.end];
    let n = cell_count(Message::CancelRequest, cells);
    if buffer.len() < RECORD + ITEM * n {
        return Err(Refusal::ShortBuffer);
    }
    put_fields(buffer, request_of(seen, n), n as u16);
    put_each::<Item>(Message::CancelRequest, buffer, RECORD, cells);
    Ok(RECORD + ITEM * n)
}

// ---- all of it

pub fn read_cancel(message: &[u8], buffer: &mut [u8]) -> Result<Taken, Refusal>
    ensures { taken_by result buffer.new ≡ cancel_read message.now buffer.old }
{
    let Judged { start, kept } = judge(message)?;
    let length = put_record(&message[start..], kept, buffer)?;
    Ok(Taken {
        transaction: kept.transaction,
        length,
    })
}
