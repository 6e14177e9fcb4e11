// Document 01's sizes, offsets and limits, once for all code. specs/Layout has them for the statements; each proof that uses both joins them.

use crate::CellIdentity;

// ---- the table

pub const HEADER: usize = 16;

pub const HEAD: usize = 24;

pub const PLACE: usize = 24;

pub const PLACES: usize = 4;

pub const CELL: usize = HEAD + PLACES * PLACE;

pub const MOST_CELLS: usize = 512;

pub const TABLE_VERSION: u8 = 2;

// "PWT" as a number.
pub const TABLE_MARK: u32 = 0x505754;

// Behind each mark of three bytes.
pub const VERSION_AT: usize = 3;

// Offsets in the header.
pub const CELLS_AT: usize = 5;

pub const PLACES_AT: usize = 7;

pub const ZEROS_AT: usize = 8;

// Offsets in a head.
pub const CODE_AT: usize = 8;

pub const AREAS_USED_AT: usize = 11;

pub const AREAS_AT: usize = 12;

pub const AREA: usize = 3;

// Offsets in a place.
pub const PLACE_SERIAL_AT: usize = 2;

pub const CONTENT_AT: usize = 4;

pub const PERIOD_AT: usize = 8;

pub const REQUESTED_AT: usize = 12;

pub const SENT_AT: usize = 14;

pub const WAIT_AT: usize = 16;

pub const SIB_AT: usize = 20;

pub const LIVE_AT: usize = 21;

pub const FILLING_AT: usize = 22;

pub const LONGEST_PERIOD: u32 = 131071;

pub const FIRST_SIB: u8 = 6;

pub const LAST_SIB: u8 = 8;

// An earthquake primary's.
pub const PRIMARY_SIB: u8 = 6;

// ---- version 1: its records are still taken, and its tables converted

pub const VERSION_1: u8 = 1;

pub const PLACE_1: usize = 20;

pub const CELL_1: usize = HEAD + PLACES * PLACE_1;

// Offsets in a place that are others in the current one.
pub const WAIT_1_AT: usize = 14;

pub const SIB_1_AT: usize = 16;

pub const LONGEST_PERIOD_1: u32 = 4095;

// ---- the request record

pub const RECORD: usize = 26;

pub const ITEM: usize = 8;

pub const MOST_ITEMS: usize = 512;

pub const RECORD_VERSION: u8 = 2;

// "PWR" as a number.
pub const RECORD_MARK: u32 = 0x505752;

// Offsets in a record.
pub const KIND_AT: usize = 5;

pub const FLAGS_AT: usize = 6;

pub const AREA_AT: usize = 7;

pub const IDENTIFIER_AT: usize = 8;

pub const SERIAL_AT: usize = 10;

pub const RECORD_CONTENT_AT: usize = 12;

pub const RECORD_PERIOD_AT: usize = 16;

pub const RECORD_REQUESTED_AT: usize = 20;

pub const RECORD_SIB_AT: usize = 22;

pub const ZERO_AT: usize = 23;

pub const COUNT_AT: usize = 24;

// What an item, by its area, stays below.
pub const CELL_END: u64 = CellIdentity::LARGEST + 1;

pub const TRACKING_END: u64 = 1 << 48;

pub const EMERGENCY_END: u64 = 1 << 24;

// ---- the answer

pub const ANSWER: usize = 12;

pub const ROW: usize = 14;

pub const ANSWER_VERSION: u8 = 1;

// "PWA" as a number.
pub const ANSWER_MARK: u32 = 0x505741;

// Offsets in an answer's head.
pub const ANSWER_KIND_AT: usize = 5;

pub const ANSWER_SERIAL_AT: usize = 8;

pub const ROWS_AT: usize = 10;

// Offsets in a row.
pub const COUNT_IN_ROW_AT: usize = 8;

pub const CONTENT_IN_ROW_AT: usize = 10;
