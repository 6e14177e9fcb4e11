// The numbers that tell the messages apart and give an item its form: here once, for those who read them and for whoever writes them.
ghost use Rattle.std.specs.Prelude.{◌≡◌};
ghost use Rattle.wire.specs.Messages.{frame_id, cells_id, item_id, count_size};
ghost use Rattle.wire.specs.Readers.{plain_head};

use crate::Message;

// Choice and procedure code, as they stand in a message's first two bytes.
pub const CANCEL_REQUEST: u16 = 0x0015;

pub const CANCEL_RESPONSE: u16 = 0x4015;

pub const WRITE_REPLACE_RESPONSE: u16 = 0x4014;

// The element that each begins with. Up to its end a message has FRONT bytes behind its frame: the extension bit in a byte, the number of elements in two, then
// id, criticality, length, a byte 0 and the number.
pub const TRANSACTION: u16 = 78;

// Its id and its length as one number, without its criticality.
pub const IDENTIFIED: u32 = (TRANSACTION as u32) * 65536 + 2;

pub const ELEMENTS_AT: usize = 1;

pub const FIRST_AT: usize = 3;

pub const BLANK_AT: usize = 7;

pub const NUMBER_AT: usize = 8;

pub const FRONT: usize = 9;

// The list of each, and its items.
pub const TO_BE_CANCELLED: u16 = 148;

pub const CANCELLED: u16 = 150;

pub const COMPLETED: u16 = 146;

pub const TO_BE_CANCELLED_ITEM: u16 = 149;

pub const CANCELLED_ITEM: u16 = 151;

pub const COMPLETED_ITEM: u16 = 147;

// An item in the list stands behind its id, criticality and length. Its flags are a byte, NR CGI is eight; the count has two, where there is one.
pub const LISTED_HEAD: usize = 4;

pub const IDENTITY_AT: usize = 1;

pub const IDENTITY_END: usize = 9;

pub const COUNT: usize = 2;

// The 36 bits of a cell are followed by four of padding.
pub const PADDING: u64 = 16;

impl Message {
    // Choice and procedure code.
    pub fn frame_id(self) -> u16
        ensures { result ≡ frame_id self }
    {
        match self {
            Message::CancelRequest => CANCEL_REQUEST,
            Message::CancelResponse => CANCEL_RESPONSE,
            Message::WriteReplaceResponse => WRITE_REPLACE_RESPONSE,
        }
    }

    // The id of its list.
    pub fn cells_id(self) -> u16
        ensures { result ≡ cells_id self }
    {
        match self {
            Message::CancelRequest => TO_BE_CANCELLED,
            Message::CancelResponse => CANCELLED,
            Message::WriteReplaceResponse => COMPLETED,
        }
    }

    // The id of the list's items.
    pub fn item_id(self) -> u16
        ensures { result ≡ item_id self }
    {
        match self {
            Message::CancelRequest => TO_BE_CANCELLED_ITEM,
            Message::CancelResponse => CANCELLED_ITEM,
            Message::WriteReplaceResponse => COMPLETED_ITEM,
        }
    }

    // The bytes of an item's count of broadcasts: two in a list of cells in which a text stopped.
    pub fn count_size(self) -> usize
        ensures { result ≡ count_size self }
    {
        match self {
            Message::CancelRequest => 0,
            Message::CancelResponse => COUNT,
            Message::WriteReplaceResponse => 0,
        }
    }

    // Id and length of an item without extensions, without its criticality.
    pub fn plain_head(self) -> u32
        ensures { result ≡ plain_head self }
    {
        (self.item_id() as u32) * 65536 + ((IDENTITY_END + self.count_size()) as u32)
    }
}
