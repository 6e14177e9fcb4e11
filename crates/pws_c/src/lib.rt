// The C library, libpws.a: each function of the crate pws, exported under its own name with the same contract. A slice is lent as a pointer
// and then a length.
// Stays: each function twice, here and in pws, since a crate is a library or a static library and demands speaks of the contracts of pws.
#![tactic(auto)]

ghost use Rattle.pws.specs.Promises.{BuildPromise, ConvertPromise, ApplyPromise, ReadPromise, WritePromise, ItemPromise, SegmentPromise, PackPromise, ReadCancelPromise, WriteResponsePromise, ReadResponsePromise};

use pws::{PwsDone, PwsMessage, PwsPart, PwsReading};
use rules::Request;

#[unsafe(no_mangle)]
pub extern "C" fn pws_build(heads: &[u8], table: &mut [u8]) -> PwsDone
    ensures { BuildPromise heads.now table.old result table.new }
{
    pws::pws_build(heads, table)
}

#[unsafe(no_mangle)]
pub extern "C" fn pws_convert(old: &[u8], table: &mut [u8]) -> PwsDone
    ensures { ConvertPromise old.now table.old result table.new }
{
    pws::pws_convert(old, table)
}

#[unsafe(no_mangle)]
pub extern "C" fn pws_apply(table: &mut [u8], req: &[u8], answer: &mut [u8]) -> PwsDone
    ensures { ApplyPromise table.old req.now answer.old result table.new answer.new }
{
    pws::pws_apply(table, req, answer)
}

#[unsafe(no_mangle)]
pub extern "C" fn pws_read(req: &[u8]) -> PwsReading
    ensures { ReadPromise req.now result }
{
    pws::pws_read(req)
}

#[unsafe(no_mangle)]
pub extern "C" fn pws_write(request: Request, items: &[u64], buffer: &mut [u8]) -> PwsDone
    ensures { WritePromise request items.now buffer.old result buffer.new }
{
    pws::pws_write(request, items, buffer)
}

#[unsafe(no_mangle)]
pub extern "C" fn pws_item(req: &[u8], k: usize) -> u64
    ensures { ItemPromise req.now k result }
{
    pws::pws_item(req, k)
}

#[unsafe(no_mangle)]
pub extern "C" fn pws_segment(first: &[u8], more: &[u8], k: usize) -> PwsPart
    ensures { SegmentPromise first.now more.now k result }
{
    pws::pws_segment(first, more, k)
}

#[unsafe(no_mangle)]
pub extern "C" fn pws_pack(bytes: &[u8], lengths: &[u64], list: &mut [u8]) -> PwsDone
    ensures { PackPromise bytes.now lengths.now list.old result list.new }
{
    pws::pws_pack(bytes, lengths, list)
}

#[unsafe(no_mangle)]
pub extern "C" fn pws_read_cancel(bytes: &[u8], buffer: &mut [u8]) -> PwsMessage
    ensures { ReadCancelPromise bytes.now buffer.old result buffer.new }
{
    pws::pws_read_cancel(bytes, buffer)
}

#[unsafe(no_mangle)]
pub extern "C" fn pws_write_response(answer: &[u8], transaction: u8, bytes: &mut [u8]) -> PwsDone
    ensures { WriteResponsePromise answer.now transaction bytes.old result bytes.new }
{
    pws::pws_write_response(answer, transaction, bytes)
}

#[unsafe(no_mangle)]
pub extern "C" fn pws_read_response(bytes: &[u8], answer: &mut [u8]) -> PwsMessage
    ensures { ReadResponsePromise bytes.now answer.old result answer.new }
{
    pws::pws_read_response(bytes, answer)
}
