// Document 01's types. What they mean, and every rule about them, stands in specs/.
#![tactic(auto)]

ghost use Rattle.std.specs.Prelude.{◌≡◌, ◌+◌, ◌<◌, ltb};
ghost use Rattle.rules.specs.Layout.{cell_end};
ghost use Rattle.rules.specs.Identity.{identity_number, identity_answer, plmn_of, part_of, cell_item, tracking_item};
ghost use Rattle.rules.specs.Record.{cancel_all, concurrent, notified, text_asked};
ghost use Rattle.rules.specs.Refusals.{number_of, writing_number, writing_length};

pub mod kind;
pub mod layout;

use kind::{CANCEL_ALL, NOTIFIED};

// "A count of seconds never stands where a count of broadcasts is meant": each has a type of its own.
#[repr(C)]
#[derive(Clone, Copy, Default)]
pub struct Seconds(pub u32);

#[repr(C)]
#[derive(Clone, Copy, Default)]
pub struct Broadcasts(pub u16);

// A live place of a cell.
#[derive(Clone, Copy)]
pub struct Place {
    pub identifier: u16,
    pub serial: u16,
    pub content: u32,
    pub period: Seconds,
    pub requested: Broadcasts,
    pub sent: Broadcasts,
    pub wait: Seconds,
    pub sib: u8,
}

// A request without its items: what the reader returns of a record, and what the writer takes.
#[repr(C)]
#[derive(Clone, Copy, Default)]
pub struct Request {
    pub kind: u8,
    pub flags: u8,
    pub area: u8,
    pub identifier: u16,
    pub serial: u16,
    pub content: u32,
    pub period: Seconds,
    pub requested: Broadcasts,
    pub sib: u8,
}

impl Request {
    // Flag 1.
    pub fn concurrent(self) -> bool
        ensures { result ≡ concurrent self }
    {
        self.flags % 2 == 1
    }

    // Flag 2.
    pub fn cancels_all(self) -> bool
        ensures { result ≡ cancel_all self }
    {
        self.flags / CANCEL_ALL % 2 == 1
    }

    // Flag 4.
    pub fn notified(self) -> bool
        ensures { result ≡ notified self }
    {
        self.flags / NOTIFIED % 2 == 1
    }

    // The text that it names, as one number.
    pub fn text(self) -> u32
        ensures { result ≡ text_asked self }
    {
        (self.identifier as u32) * 65536 + (self.serial as u32)
    }
}

// The numbered refusals, in the order of their numbers: document 01's nine, then document 02's: those of a list of segments, and those of a message and of an answer on the wire.
#[derive(Clone, Copy)]
pub enum Refusal {
    TableMark = 1,
    TableWrong = 2,
    RecordMark = 3,
    RecordLength = 4,
    RecordFields = 5,
    RecordLimits = 6,
    CancelsNothing = 7,
    ShortBuffer = 8,
    BadHeads = 9,
    ListDamaged = 10,
    TooManySegments = 11,
    NoSuchSegment = 12,
    BadEncoding = 13,
    OtherMessage = 14,
    UnknownElement = 15,
    ElementsWrong = 16,
    AnswerWrong = 17,
}

impl Refusal {
    // Each stands for its number.
    pub fn number(self) -> u32
        ensures { result ≡ number_of self }
    {
        self as u32
    }
}

// What whoever fills a buffer answers, the length written or why nothing was, as two numbers: this one is 0, or the refusal's.
pub fn writing_number(writing: Result<usize, Refusal>) -> u32
    ensures { result ≡ writing_number writing }
{
    match writing {
        Ok(_) => 0,
        Err(refusal) => refusal.number(),
    }
}

// And this one the length written, or 0.
pub fn writing_length(writing: Result<usize, Refusal>) -> usize
    ensures { result ≡ writing_length writing }
{
    match writing {
        Ok(bytes) => bytes,
        Err(_) => 0,
    }
}

// NR CGI: a 24-bit PLMN, then 36 bits. Cells are ordered by it as a number.
#[derive(Clone, Copy, PartialEq, Eq, PartialOrd, Ord)]
pub struct CellIdentity(pub u64);

impl CellIdentity {
    pub const PLMN_BITS: u32 = 24;

    pub const PART_BITS: u32 = 36;

    pub const LARGEST: u64 = (1 << (CellIdentity::PLMN_BITS + CellIdentity::PART_BITS)) - 1;

    // None where either is too large.
    pub fn new(plmn: u32, part: u64) -> Option<CellIdentity>
        ensures { result ≡ identity_answer plmn part }
    {
        if PLMN_END <= plmn {
            return None;
        }
        if PART_END <= part {
            return None;
        }
        Some(CellIdentity((plmn as u64) * PART_END + part))
    }

    pub fn plmn(self) -> u32
        ensures { result ≡ plmn_of self.0 }
    {
        (self.0 / PART_END) as u32
    }

    pub fn part(self) -> u64
        ensures { result ≡ part_of self.0 }
    {
        self.0 % PART_END
    }

    // By the derived order.
    pub fn below(self, other: CellIdentity) -> bool
        ensures { result ≡ ltb (identity_number self) (identity_number other) }
    {
        self < other
    }

    // The least that may follow, where cells ascend.
    pub fn next(self) -> CellIdentity
        requires { identity_number self < cell_end }
        ensures { identity_number result ≡ identity_number self + 1 }
    {
        CellIdentity(self.0 + 1)
    }

    // The item that names the cell.
    pub fn cell_item(self) -> u64
        ensures { result ≡ cell_item self.0 }
    {
        self.0
    }

    // The item that names a tracking area: the cell's PLMN, then the code.
    pub fn tracking_item(self, code: u32) -> u64
        ensures { result ≡ tracking_item self.0 code }
    {
        (self.plmn() as u64) * CODE_END + (code as u64)
    }
}

const PLMN_END: u32 = 1 << CellIdentity::PLMN_BITS;

const PART_END: u64 = 1 << CellIdentity::PART_BITS;

const CODE_END: u64 = 1 << 24;
