// The reader: segment k of a text whose first SIB message lies in one buffer and whose other ones lie in a list.
ghost use Rattle.std.specs.Prelude.{◌≡◌};
ghost use Rattle.segments.specs.Segments.{segment_of, lies_at, lies_by, lent_from};
ghost use Rattle.segments.specs.Within.{Scanned};

use crate::{LENGTH, MOST_SEGMENTS};
use octets::get;
use rules::Refusal;

// Where a segment lies.
#[derive(Clone, Copy)]
pub enum Part {
    // The first buffer, whole: its length.
    First(usize),
    // In the list.
    Listed { start: usize, length: usize },
}

// What one pass over a list finds: how many segments are whole, where the last of them ends, and where the k-th lies if it is among them.
// Stays: with `met: Option<Part>` for start and length the loop carries an enum, and the last of 63 segments takes 1,507 instructions where
// it takes 1,183 so; by time that is half as long again, and the bar is 1.08 of the peer.
#[derive(Clone, Copy)]
struct Pass {
    count: usize,
    end: usize,
    start: usize,
    length: usize,
}

fn scan(more: &[u8], k: usize) -> Pass
    ensures { Scanned more.now k result }
{
    let mut count: usize = 0;
    let mut end: usize = 0;
    let mut start: usize = 0;
    let mut length: usize = 0;
    // Stays: a loop that jumps by what it reads: each length says where the next segment begins.
    'segments: while LENGTH <= more.len() - end {
        let from = end + LENGTH;
        let size = get::<u16>(more, end) as usize;
        if more.len() - from < size {
            break 'segments;
        }
        end = from + size;
        count += 1;
        if count == k {
            start = from;
            length = size;
        }
    }
    Pass {
        count,
        end,
        start,
        length,
    }
}

// Where segment k lies; the list is judged whole for every k.
pub fn locate(first: &[u8], more: &[u8], k: usize) -> Result<Part, Refusal>
    ensures { lies_by result ≡ lies_at first.now more.now k }
{
    let pass = scan(more, k);
    if pass.end != more.len() {
        return Err(Refusal::ListDamaged);
    }
    if MOST_SEGMENTS < pass.count {
        return Err(Refusal::TooManySegments);
    }
    if pass.count < k {
        return Err(Refusal::NoSuchSegment);
    }
    if k == 0 {
        return Ok(Part::First(first.len()));
    }
    Ok(Part::Listed {
        start: pass.start,
        length: pass.length,
    })
}

// The caller's own bytes: the first buffer for k = 0, the k-th segment of the list otherwise, an empty part on a refusal.
pub fn segment<'a>(first: &'a [u8], more: &'a [u8], k: usize) -> &'a [u8]
    ensures { (result.now ≡ segment_of first.now more.now k) × (result.ref_ptr ≡ lent_from first.entry.ref_ptr more.entry.ref_ptr (lies_at first.now more.now k)) }
{
    match locate(first, more, k) {
        Ok(Part::First(_)) => first,
        Ok(Part::Listed { start, length }) => &more[start..start + length],
        Err(_) => &first[..0],
    }
}

// Why `segment` hands back an empty part on the same input, or 0.
// Stays: 0 for no refusal, as its promise says (docs/PROMISES.md).
pub fn number(first: &[u8], more: &[u8], k: usize) -> u32
    ensures { result ≡ (lies_at first.now more.now k).number }
{
    match locate(first, more, k) {
        Ok(_) => 0,
        Err(refusal) => refusal.number(),
    }
}
