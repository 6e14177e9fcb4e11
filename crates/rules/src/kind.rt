// Document 01's kinds of request, flags and areas.
// Stays: numbers and no enums, as in Request: C hands a Request over by value with any number in each (pws.h), the reader gives any of a
// record's, and `room_for`, `put_head` and `naming_of` (docs/PROMISES.md) take them so.

pub const WRITE_REPLACE: u8 = 1;

pub const CANCEL_OR_KILL: u8 = 2;

pub const RESTART: u8 = 3;

pub const FAILURE: u8 = 4;

pub const ONE_SECOND: u8 = 5;

// Flags.
pub const CONCURRENT: u8 = 1;

pub const CANCEL_ALL: u8 = 2;

pub const NOTIFIED: u8 = 4;

// Areas.
pub const NO_AREA: u8 = 0;

pub const CELLS: u8 = 1;

pub const TRACKING_AREAS: u8 = 2;

pub const EMERGENCY_AREAS: u8 = 3;
