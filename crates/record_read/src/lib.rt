// The reader: whether bytes are an accepted record, and what such a record says. The items stay in the record.
#![tactic(auto)]

mod mark;

ghost use Rattle.std.specs.Prelude.{◌≡◌, map, ◌+◌, ◌*◌, ◌≤◌, length, drop};
ghost use Rattle.octets.specs.Numbers.{be};
ghost use Rattle.octets.specs.Runs.{pieces};
ghost use Rattle.rules.specs.Applied.{item_at, read_by, read_of};
ghost use Rattle.rules.specs.Layout.{current, item_size, record_size};
ghost use Rattle.rules.specs.Lists.{zeros};
ghost use Rattle.rules.specs.Record.{cancel_zeros, identifier_to_sib, item_count, longest_asked, request_of};
ghost use Rattle.rules.specs.Refusals.{record_verdict, request_verdict};

use crate::mark::marked;
use octets::{any64, get};
use record_judge::judged;
use rules::layout::{
    AREA_AT, COUNT_AT, FLAGS_AT, IDENTIFIER_AT, ITEM, KIND_AT, LONGEST_PERIOD, LONGEST_PERIOD_1,
    MOST_ITEMS, RECORD, RECORD_CONTENT_AT, RECORD_PERIOD_AT, RECORD_REQUESTED_AT, RECORD_SIB_AT,
    SERIAL_AT, VERSION_1, VERSION_AT, ZERO_AT,
};
use rules::{Broadcasts, Refusal, Request, Seconds};

// The fields of a record.
// Stays: a function and no From, which has no `requires` and would be of two types that are not this crate's.
#[tactic(auto, using(crate::proofs::FieldReads::request_read))]
pub fn request(req: &[u8]) -> Request
    requires { record_size ≤ length req.now }
    ensures { result ≡ request_of req.now }
{
    Request {
        kind: get(req, KIND_AT),
        flags: get(req, FLAGS_AT),
        area: get(req, AREA_AT),
        identifier: get(req, IDENTIFIER_AT),
        serial: get(req, SERIAL_AT),
        content: get(req, RECORD_CONTENT_AT),
        period: Seconds(get(req, RECORD_PERIOD_AT)),
        requested: Broadcasts(get(req, RECORD_REQUESTED_AT)),
        sib: get(req, RECORD_SIB_AT),
    }
}

// The count of items that a record gives.
#[tactic(auto, using(crate::proofs::FieldReads::count_read))]
pub fn count(req: &[u8]) -> usize
    requires { record_size ≤ length req.now }
    ensures { result ≡ item_count req.now }
{
    get::<u16>(req, COUNT_AT) as usize
}

// The longest period that a record may ask for: its own version says.
#[tactic(auto, using(crate::proofs::FieldReads::version_read))]
fn longest_asked(req: &[u8]) -> Seconds
    requires { record_size ≤ length req.now }
    ensures { result ≡ longest_asked req.now }
{
    if get::<u16>(req, VERSION_AT) == VERSION_1 as u16 {
        return Seconds(LONGEST_PERIOD_1);
    }
    Seconds(LONGEST_PERIOD)
}

// ---- 5, 6 and 7, asked of the bytes

// "identifier to SIB" are zero: 15 bytes, in two reads that share one.
// Stays: this and the next beside the writer's: the reader asks bytes by wide loads, the writer fields, and the one judge is told by both.
#[tactic(auto, using(crate::proofs::FieldReads::text_zeros))]
fn no_text(req: &[u8]) -> bool
    requires { record_size ≤ length req.now }
    ensures { result ≡ zeros (identifier_to_sib (request_of req.now)) }
{
    (get::<u64>(req, IDENTIFIER_AT) == 0) & (get::<u64>(req, RECORD_SIB_AT + 1 - ITEM) == 0)
}

// The fields are zero that a cancel leaves out: content and period at once, and so identifier and serial number.
#[tactic(auto, using(crate::proofs::FieldReads::cancelled_zeros))]
fn cancel_zeros(req: &[u8]) -> bool
    requires { record_size ≤ length req.now }
    ensures { result ≡ zeros (cancel_zeros (request_of req.now)) }
{
    (get::<u64>(req, RECORD_CONTENT_AT) == 0)
        & (get::<u8>(req, RECORD_SIB_AT) == 0)
        & (request(req).notified() | (get::<u32>(req, IDENTIFIER_AT) == 0))
}

// The first of the refusals 5, 6 and 7 that applies to the fields and n items. The items are joined first: with no loop between it and the
// judge, a test for zero is made only for the kinds that ask for it.
fn fields_judged(req: &[u8], n: usize) -> Result<(), Refusal>
    requires { record_size + item_size current * n ≤ length req.now }
    ensures { result ≡ request_verdict (longest_asked req.now) (request_of req.now) (map be (pieces (item_size current) n (drop record_size req.now))) }
{
    let any = any64(req, RECORD, n);
    judged(
        request(req),
        no_text(req),
        cancel_zeros(req),
        n,
        any,
        longest_asked(req),
    )
}

// The first of the refusals 3 to 7 that applies to any bytes.
#[tactic(auto, using(crate::proofs::FieldReads::marked_long, crate::proofs::FieldReads::zero_read), unfolding(rules::specs::Refusals::record_verdict, rules::specs::Refusals::request_verdict, rules::specs::Record::items_of))]
pub fn verdict(req: &[u8]) -> Result<(), Refusal>
    ensures { result ≡ record_verdict current req.now }
{
    if !marked(req) {
        return Err(Refusal::RecordMark);
    }
    let n = count(req);
    if MOST_ITEMS < n {
        return Err(Refusal::RecordLength);
    }
    if req.len() != RECORD + ITEM * n {
        return Err(Refusal::RecordLength);
    }
    if get::<u8>(req, ZERO_AT) != 0 {
        return Err(Refusal::RecordFields);
    }
    fields_judged(req, n)
}

// The fields and the count of items, or why there are none.
#[tactic(auto, using(crate::proofs::FieldReads::accepted_long), unfolding(rules::specs::Applied::read_of, rules::specs::Applied::reading))]
pub fn read(req: &[u8]) -> Result<(Request, usize), Refusal>
    ensures { read_by result ≡ read_of req.now }
{
    verdict(req)?;
    Ok((request(req), count(req)))
}

// The item number k of a record, 0 where the record ends before it.
// Stays: 0 and no Option, since `item_at` says so and pws_item hands it to C.
#[tactic(auto, unfolding(rules::specs::Applied::item_at))]
pub fn item(req: &[u8], k: usize) -> u64
    ensures { result ≡ item_at req.now k }
{
    if req.len() < RECORD {
        return 0;
    }
    if k < (req.len() - RECORD) / ITEM {
        return get::<u64>(req, RECORD + ITEM * k);
    }
    0
}
