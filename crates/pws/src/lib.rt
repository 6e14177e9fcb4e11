// The surface of the library: numbers and byte slices in, numbers out. Each function hands its buffers to the crate that does the work;
// the crate pws_c exports each under its own name to C.
#![tactic(auto)]

ghost use Rattle.std.specs.Prelude.{◌≡◌};
ghost use Rattle.rules.specs.Applied.{read_by};
ghost use Rattle.segments.specs.Segments.{lies_by};
ghost use Rattle.pws.specs.Surface.{done_by, lies, message_by, read_to};
ghost use Rattle.pws.specs.Promises.{BuildPromise, ConvertPromise, ApplyPromise, ReadPromise, WritePromise, ItemPromise, SegmentPromise, PackPromise, ReadCancelPromise, WriteResponsePromise, ReadResponsePromise};

use rules::{Refusal, Request, writing_length, writing_number};
use segments::read::Part;
use wire::Taken;

// 0 and the length written, or a refusal's number and 0.
#[repr(C)]
#[derive(Drop)]
pub struct PwsDone {
    pub number: u32,
    pub length: usize,
}

// 0, the fields and the count of items; or a refusal's number, and everything else 0.
#[repr(C)]
#[derive(Drop)]
pub struct PwsReading {
    pub number: u32,
    pub request: Request,
    pub items: usize,
}

// 0, the buffer in which a segment lies (0 the first, 1 the list), where it starts there and its length; or a refusal's number, and
// everything else 0.
#[repr(C)]
#[derive(Drop)]
pub struct PwsPart {
    pub number: u32,
    pub buffer: u32,
    pub start: usize,
    pub length: usize,
}

// 0, the transaction identifier of a message and the length of the record or answer written; or a refusal's number, and everything else 0.
#[repr(C)]
#[derive(Drop)]
pub struct PwsMessage {
    pub number: u32,
    pub transaction: u32,
    pub length: usize,
}

// What whoever fills a buffer answers.
impl From<Result<usize, Refusal>> for PwsDone {
    ghost from_gives = { λ writing done. done ≡ done_by writing };

    fn from(writing: Result<usize, Refusal>) -> Self {
        PwsDone {
            number: writing_number(writing),
            length: writing_length(writing),
        }
    }
}

// What the reader of records answers.
impl From<Result<(Request, usize), Refusal>> for PwsReading {
    ghost from_gives = { λ reading told. read_to told ≡ read_by reading };

    fn from(reading: Result<(Request, usize), Refusal>) -> Self {
        match reading {
            Ok((request, items)) => PwsReading {
                number: 0,
                request,
                items,
            },
            Err(refusal) => PwsReading {
                number: refusal.number(),
                request: Request::default(),
                items: 0,
            },
        }
    }
}

// What a reader of messages answers.
impl From<Result<Taken, Refusal>> for PwsMessage {
    ghost from_gives = { λ taking message. message ≡ message_by taking };

    fn from(taking: Result<Taken, Refusal>) -> Self {
        match taking {
            Ok(taken) => PwsMessage {
                number: 0,
                transaction: taken.transaction as u32,
                length: taken.length,
            },
            Err(cause) => PwsMessage {
                number: cause.number(),
                transaction: 0,
                length: 0,
            },
        }
    }
}

// What the reader of segments answers.
impl From<Result<Part, Refusal>> for PwsPart {
    ghost from_gives = { λ part told. lies told ≡ lies_by part };

    fn from(part: Result<Part, Refusal>) -> Self {
        match part {
            Ok(Part::First(length)) => PwsPart {
                number: 0,
                buffer: 0,
                start: 0,
                length,
            },
            Ok(Part::Listed { start, length }) => PwsPart {
                number: 0,
                buffer: 1,
                start,
                length,
            },
            Err(why) => PwsPart {
                number: why.number(),
                buffer: 0,
                start: 0,
                length: 0,
            },
        }
    }
}

pub fn pws_build(heads: &[u8], table: &mut [u8]) -> PwsDone
    ensures { BuildPromise heads.now table.old result table.new }
{
    table_build::build(heads, table).into()
}

pub fn pws_convert(old: &[u8], table: &mut [u8]) -> PwsDone
    ensures { ConvertPromise old.now table.old result table.new }
{
    table_convert::convert(old, table).into()
}

pub fn pws_apply(table: &mut [u8], req: &[u8], answer: &mut [u8]) -> PwsDone
    ensures { ApplyPromise table.old req.now answer.old result table.new answer.new }
{
    engine::apply::apply(table, req, answer).into()
}

pub fn pws_read(req: &[u8]) -> PwsReading
    ensures { ReadPromise req.now result }
{
    record_read::read(req).into()
}

pub fn pws_write(request: Request, items: &[u64], buffer: &mut [u8]) -> PwsDone
    ensures { WritePromise request items.now buffer.old result buffer.new }
{
    record_write::write(request, items, buffer).into()
}

pub fn pws_item(req: &[u8], k: usize) -> u64
    ensures { ItemPromise req.now k result }
{
    record_read::item(req, k)
}

pub fn pws_segment(first: &[u8], more: &[u8], k: usize) -> PwsPart
    ensures { SegmentPromise first.now more.now k result }
{
    segments::read::locate(first, more, k).into()
}

pub fn pws_pack(bytes: &[u8], lengths: &[u64], list: &mut [u8]) -> PwsDone
    ensures { PackPromise bytes.now lengths.now list.old result list.new }
{
    segments::pack::pack(bytes, lengths, list).into()
}

pub fn pws_read_cancel(bytes: &[u8], buffer: &mut [u8]) -> PwsMessage
    ensures { ReadCancelPromise bytes.now buffer.old result buffer.new }
{
    wire_cancel::read_cancel(bytes, buffer).into()
}

pub fn pws_write_response(answer: &[u8], transaction: u8, bytes: &mut [u8]) -> PwsDone
    ensures { WriteResponsePromise answer.now transaction bytes.old result bytes.new }
{
    response_write::write_response(answer, transaction, bytes).into()
}

pub fn pws_read_response(bytes: &[u8], answer: &mut [u8]) -> PwsMessage
    ensures { ReadResponsePromise bytes.now answer.old result answer.new }
{
    response_read::read_response(bytes, answer).into()
}
