// The writer: a list packed from segment bytes and their lengths.
ghost use Rattle.std.specs.Prelude.{◌≡◌, ◌+◌, ◌≤◌, length};
ghost use Rattle.std.proofs.lemmas.List.Edits.{sets};
ghost use Rattle.rules.specs.Applied.{filled_by};
ghost use Rattle.segments.specs.Segments.{cut_at, length_size, lengths_fit, list_bytes, longest_segment, packed, pack_verdict, segment_bytes};
ghost use Rattle.segments.specs.Within.{ToPack};

use crate::{LENGTH, LONGEST_SEGMENT, MOST_SEGMENTS};
use octets::{copy, put};
use rules::Refusal;

// Whether the lengths add up to so many bytes, and none is too long. What is left is counted down, so that no sum can overflow.
fn lengths_fit(lengths: &[u64], bytes: usize) -> bool
    ensures { result ≡ lengths_fit lengths.now bytes }
{
    let mut left = bytes as u64;
    for size in lengths {
        if LONGEST_SEGMENT < *size {
            return false;
        }
        if left < *size {
            return false;
        }
        left -= *size;
    }
    left == 0
}

// The first of the refusals 10, 11 and 8 that applies.
fn verdict(bytes: &[u8], lengths: &[u64], room: usize) -> Result<(), Refusal>
    ensures { result ≡ pack_verdict bytes.now lengths.now room }
{
    if !lengths_fit(lengths, bytes.len()) {
        return Err(Refusal::ListDamaged);
    }
    if MOST_SEGMENTS < lengths.len() {
        return Err(Refusal::TooManySegments);
    }
    if room < LENGTH * lengths.len() + bytes.len() {
        return Err(Refusal::ShortBuffer);
    }
    Ok(())
}

// A segment behind its length, at an index of the list.
fn put_segment(list: &mut [u8], at: usize, segment: &[u8])
    requires holds_segment { at + (length_size + length segment.now) ≤ length list.old }
    requires length_fits { length segment.now ≤ longest_segment }
    ensures { list.new ≡ sets list.old at (segment_bytes segment.now) }
{
    put(list, at, segment.len() as u16);
    copy(list, at + LENGTH, segment);
}

// Every segment behind the one before it.
fn put_segments(bytes: &[u8], lengths: &[u64], list: &mut [u8])
    requires { ToPack bytes.now lengths.now (length list.old) }
    ensures { list.new ≡ sets list.old 0 (list_bytes (cut_at lengths.now bytes.now)) }
{
    let mut from = 0;
    let mut at = 0;
    for size in lengths {
        let end = from + *size as usize;
        put_segment(list, at, &bytes[from..end]);
        at += LENGTH + *size as usize;
        from = end;
    }
}

// The list at the start of the buffer; bytes behind it stay. A refusal writes nothing.
pub fn pack(bytes: &[u8], lengths: &[u64], list: &mut [u8]) -> Result<usize, Refusal>
    ensures { filled_by result list.new ≡ packed bytes.now lengths.now list.old }
{
    verdict(bytes, lengths, list.len())?;
    put_segments(bytes, lengths, list);
    Ok(LENGTH * lengths.len() + bytes.len())
}
