// The writer: a request and its items as a record at the start of a buffer, or the refusal and nothing written.
#![tactic(auto)]

ghost use Rattle.std.specs.Prelude.{◌≡◌, ◌+◌, ◌*◌, ◌≤◌, length, drop};
ghost use mathlib.Core.List.{flat_map, [], ◌∷◌};
ghost use Rattle.std.proofs.lemmas.List.Edits.{sets};
ghost use Rattle.octets.specs.Fields.{bytes_of, offset};
ghost use Rattle.octets.specs.Joined.{joined};
ghost use Rattle.octets.specs.Numbers.{to_be};
ghost use Rattle.rules.specs.Applied.{filled_by, written};
ghost use Rattle.rules.specs.Layout.{current, item_size, record_fields, record_mark, record_size, record_version};
ghost use Rattle.rules.specs.Lists.{zeros};
ghost use Rattle.rules.specs.Record.{cancel_zeros, identifier_to_sib, request_numbers};
ghost use Rattle.rules.specs.Refusals.{write_verdict};

use octets::put;
use record_judge::judged;
use rules::layout::{
    AREA_AT, COUNT_AT, FLAGS_AT, IDENTIFIER_AT, ITEM, KIND_AT, LONGEST_PERIOD, MOST_ITEMS, RECORD,
    RECORD_CONTENT_AT, RECORD_MARK, RECORD_PERIOD_AT, RECORD_REQUESTED_AT, RECORD_SIB_AT,
    RECORD_VERSION, SERIAL_AT, VERSION_AT, ZERO_AT,
};
use rules::{Refusal, Request, Seconds};

// ---- whether it is written: document 01, "The request record"

// "identifier to SIB" are zero.
fn no_text(request: Request) -> bool
    ensures { result ≡ zeros (identifier_to_sib request) }
{
    (request.identifier == 0)
        & (request.serial == 0)
        & (request.content == 0)
        & (request.period.0 == 0)
        & (request.requested.0 == 0)
        & (request.sib == 0)
}

// What a cancel leaves out is zero.
fn cancel_zeros(request: Request) -> bool
    ensures { result ≡ zeros (cancel_zeros request) }
{
    ((request.content | request.period.0 | (request.sib as u32)) == 0)
        & (request.notified() | ((request.identifier == 0) & (request.serial == 0)))
}

// Every bit that is set in any item.
#[tactic(auto, using(crate::proofs::BitsLaws::joined_fold))]
fn any_item(items: &[u64]) -> u64
    ensures { result ≡ joined 0 items.now }
{
    items.iter().fold(0, |any, x| any | x)
}

// The first of the refusals 4 (n only), 5, 6, 7 and 8 that applies.
fn verdict(request: Request, items: &[u64], room: usize) -> Result<(), Refusal>
    ensures { result ≡ write_verdict request items.now room }
{
    let n = items.len();
    if MOST_ITEMS < n {
        return Err(Refusal::RecordLength);
    }
    let any = any_item(items);
    judged(
        request,
        no_text(request),
        cancel_zeros(request),
        n,
        any,
        Seconds(LONGEST_PERIOD),
    )?;
    if room < RECORD + ITEM * n {
        return Err(Refusal::ShortBuffer);
    }
    Ok(())
}

// ---- the fields

// Mark and version, of which the first byte is 0 and is stored with the mark, and then the request field by field.
pub fn put_fields(buffer: &mut [u8], request: Request, n: u16)
    requires { record_size ≤ length buffer.old }
    ensures { buffer.new ≡ sets buffer.old 0 (bytes_of record_fields (request_numbers request n)) }
{
    put(buffer, 0, RECORD_MARK * 256);
    put(buffer, VERSION_AT + 1, RECORD_VERSION);
    put(buffer, KIND_AT, request.kind);
    put(buffer, FLAGS_AT, request.flags);
    put(buffer, AREA_AT, request.area);
    put(buffer, IDENTIFIER_AT, request.identifier);
    put(buffer, SERIAL_AT, request.serial);
    put(buffer, RECORD_CONTENT_AT, request.content);
    put(buffer, RECORD_PERIOD_AT, request.period.0);
    put(buffer, RECORD_REQUESTED_AT, request.requested.0);
    put(buffer, RECORD_SIB_AT, request.sib);
    put::<u8>(buffer, ZERO_AT, 0);
    put(buffer, COUNT_AT, n);
}

// Every item behind the fields.
#[tactic(auto, using(crate::proofs::WriteLaws::put_next, crate::proofs::WriteLaws::all_put))]
fn put_items(buffer: &mut [u8], items: &[u64])
    requires { record_size + item_size current * length items.now ≤ length buffer.old }
    ensures { buffer.new ≡ sets buffer.old record_size (flat_map (to_be (item_size current)) items.now) }
{
    for (k, item) in items.iter().enumerate() {
        put(buffer, RECORD + ITEM * k, *item);
    }
}

// ---- both

// The record of a request and its items at the start of the buffer; bytes behind it stay. A refusal writes nothing.
pub fn write(request: Request, items: &[u64], buffer: &mut [u8]) -> Result<usize, Refusal>
    ensures { filled_by result buffer.new ≡ written request items.now buffer.old }
{
    verdict(request, items, buffer.len())?;
    put_fields(buffer, request, items.len() as u16);
    put_items(buffer, items);
    Ok(RECORD + ITEM * items.len())
}
