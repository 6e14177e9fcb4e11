// PWS CANCEL REQUEST and the two responses (document 02, 5/13 and 6/13): as trees and formats, their refusals and what they say in specs/; here what each
// element tells. Contents are lent: each reader takes all of its bytes, and nothing else.
#![tactic(auto)]

pub mod form;
pub mod list;

ghost use Rattle.std.specs.Prelude.{◌≡◌, ◌+◌, ◌/◌, ◌≤◌, length};
ghost use Rattle.octets.specs.Runs.{gets};
ghost use Rattle.octets.specs.Numbers.{be};
ghost use Rattle.wire.specs.Messages.{the_transaction, the_requested, the_indicator, the_notification, beside_name, further_name};
ghost use Rattle.wire.specs.declared.Message.TheVariants.{CancelRequest};
ghost use Rattle.wire.specs.MessageTree.{contents, contents_by};
ghost use Rattle.wire.specs.Readers.{NoteAt, Tells, transaction_heard};

use crate::form::{PADDING, TRANSACTION};
use crate::list::{heard, list_told};
use aper::given_at;
use octets::get;

// The messages that are read.
#[derive(Clone, Copy)]
pub enum Message {
    CancelRequest,
    CancelResponse,
    WriteReplaceResponse,
}

// What a reader of messages answers: the transaction identifier and the length of what was written.
#[derive(Clone, Copy)]
pub struct Taken {
    pub transaction: u16,
    pub length: usize,
}

// The known elements' ids, but for the transaction identifier, which every message has; that of the list is the message's own.
const REQUESTED: u16 = 142;

const CANCEL_ALL: u16 = 157;

const NOTIFICATION: u16 = 220;

// What a list of cells tells: whether something in it is marked reject, whether an item is not a cell's, whether the cells ascend.
#[derive(Clone, Copy)]
pub struct Marks {
    pub rejected: bool,
    pub foreign: bool,
    pub ascends: bool,
}

// What a notification tells: whether something in it is marked reject, and which text it is of.
#[derive(Clone, Copy)]
pub struct Notice {
    pub rejected: bool,
    pub identifier: u16,
    pub serial: u16,
}

// What an element tells.
#[derive(Clone, Copy)]
pub enum Heard {
    Transaction(u8),
    Requested(u16),
    Cells(Marks),
    CancelAll,
    Notification(Notice),
    Unknown,
}

// The fixed bytes of a notification: whether extensions follow, which text it is of, and where they end.
#[derive(Clone, Copy)]
struct Note {
    present: u8,
    identifier: u16,
    serial: u16,
    end: usize,
}

// NR CGI in eight bytes, the last four bits of them padding.
pub fn identity_at(s: &[u8], at: usize) -> u64
    requires { at + 8 ≤ length s.now }
    ensures { result ≡ be (gets s.now at 8) / 16 }
{
    get::<u64>(s, at) / PADDING
}

// A byte 0, and the transaction identifier.
pub fn transaction(part: &[u8]) -> Option<u8>
    ensures { Tells (contents_by CancelRequest the_transaction) part.now (transaction_heard result) }
{
    match part {
        [0, number] => Some(*number),
        _ => None,
    }
}

fn requested(part: &[u8]) -> Option<Heard>
    ensures { Tells (contents_by CancelRequest the_requested) part.now result }
{
    if part.len() != 2 {
        return None;
    }
    Some(Heard::Requested(get::<u16>(part, 0)))
}

fn indicator(part: &[u8]) -> Option<Heard>
    ensures { Tells (contents_by CancelRequest the_indicator) part.now result }
{
    match part {
        [0] => Some(Heard::CancelAll),
        _ => None,
    }
}

// A notification's five bytes as one number: an extension bit, whether extensions follow, two numbers of 16 bits, and six bits of padding.
const EXTENDED: u64 = 1 << 39;

const PRESENT: u64 = 1 << 38;

const IDENTIFIER: u64 = 1 << 22;

const SERIAL: u64 = 1 << 6;

// One more than the largest number of 16 bits, and of 32.
const WIDE: u64 = 1 << 16;

const WIDER: u64 = 1 << 32;

fn note_at(s: &[u8], at: usize) -> Option<Note>
    requires { at ≤ length s.now }
    ensures { NoteAt s.now at result }
{
    if s.len() - at < 5 {
        return None;
    }
    let front = get::<u8>(s, at) as u64;
    let middle = get::<u16>(s, at + 1) as u64;
    let back = get::<u16>(s, at + 3) as u64;
    let n = front * WIDER + middle * WIDE + back;
    if EXTENDED <= n {
        return None;
    }
    if n % SERIAL != 0 {
        return None;
    }
    Some(Note {
        present: (n / PRESENT) as u8,
        identifier: (n / IDENTIFIER % WIDE) as u16,
        serial: (n / SERIAL % WIDE) as u16,
        end: at + 5,
    })
}

fn notification(part: &[u8]) -> Option<Heard>
    ensures { Tells (contents_by CancelRequest the_notification) part.now result }
{
    let note = note_at(part, 0)?;
    let extensions = given_at(part, note.end, note.present)?;
    if extensions.end != part.len() {
        return None;
    }
    Some(Heard::Notification(Notice {
        rejected: extensions.rejected,
        identifier: note.identifier,
        serial: note.serial,
    }))
}

// ---- by its id

// What only a cancel request has.
// Stays: tests in a row, since with `match id` nothing says in the last arm that the id is none of the three, and `Unknown` is not proved.
fn further(id: u16, part: &[u8]) -> Option<Heard>
    ensures { Tells (contents_by CancelRequest (further_name CancelRequest id)) part.now result }
{
    if id == REQUESTED {
        return requested(part);
    }
    if id == CANCEL_ALL {
        return indicator(part);
    }
    if id == NOTIFICATION {
        return notification(part);
    }
    Some(Heard::Unknown)
}

// What reads a list of any items has callers elsewhere too, so that its loop is a function of its own and not a part of the loop over all elements, which
// would leave it no registers.
fn in_request(id: u16, part: &[u8]) -> Option<Heard>
    ensures { Tells (contents_by CancelRequest (beside_name CancelRequest id)) part.now result }
{
    if id == Message::CancelRequest.cells_id() {
        return heard(list_told(Message::CancelRequest, part));
    }
    further(id, part)
}

// What the element of a cancel request with this id tells; of an unknown one nothing is read.
pub fn hear(id: u16, part: &[u8]) -> Option<Heard>
    ensures { Tells (contents CancelRequest id) part.now result }
{
    if id == TRANSACTION {
        return Some(Heard::Transaction(transaction(part)?));
    }
    in_request(id, part)
}
