// Texts that come in segments (document 02, 1/13): segment k of a text handed back out of the caller's own bytes, and a list of segments packed.
#![tactic(auto)]

pub mod pack;
pub mod read;

// The bytes of a length in front of each segment.
const LENGTH: usize = 2;

const LONGEST_SEGMENT: u64 = 65535;

const MOST_SEGMENTS: usize = 63;
