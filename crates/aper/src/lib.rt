// What F1AP's messages are made of, in the aligned packed encoding of X.691, read at an index of lent bytes.
#![tactic(auto)]

ghost use Rattle.std.specs.Prelude.{◌≡◌, ◌<◌, ◌≤◌, length};
ghost use Rattle.aper.specs.Readers.{LengthAt, ElementAt, CriticalityOf, RunAt, GivenAt};

use octets::get;

// A length, and where what it is of begins.
#[derive(Clone, Copy)]
pub struct Length {
    pub of: usize,
    pub start: usize,
}

// An element: its id, the two bits of its criticality, which are read of unknown elements alone, where its contents begin and where they end.
// Stays: the two bits and no Criticality, since those of a known element may be 3, which is none, and are not read.
#[derive(Clone, Copy)]
pub struct Element {
    pub id: u16,
    pub criticality: u8,
    pub start: usize,
    pub end: usize,
}

// What becomes of an element that is not known.
#[derive(Clone, Copy, PartialEq, Eq)]
pub enum Criticality {
    Reject,
    Ignore,
    Notify,
}

// The fourth value of two bits, which is no criticality.
#[derive(Clone, Copy)]
pub struct NoCriticality;

impl TryFrom<u8> for Criticality {
    type Error = NoCriticality;

    ghost try_from_gives = { CriticalityOf };

    fn try_from(bits: u8) -> Result<Self, NoCriticality> {
        match bits {
            0 => Ok(Criticality::Reject),
            1 => Ok(Criticality::Ignore),
            2 => Ok(Criticality::Notify),
            _ => Err(NoCriticality),
        }
    }
}

// Extensions back to back: where they end, and whether one is marked reject.
#[derive(Clone, Copy)]
pub struct Extensions {
    pub end: usize,
    pub rejected: bool,
}

// A length is in one byte below this, and in two from there on.
const SHORT: usize = 128;

// The first byte of a fragmented length, and of all above it.
const FRAGMENTED: usize = 192;

const MOST_EXTENSIONS: usize = 65535;

// The length at an index: its shortest form only, and no fragmented one.
pub fn length_at(s: &[u8], at: usize) -> Option<Length>
    ensures { LengthAt s.now at result }
{
    let first = usize::from(*s.get(at)?);
    let next = at + 1;
    if first < SHORT {
        return Some(Length {
            of: first,
            start: next,
        });
    }
    if FRAGMENTED <= first {
        return None;
    }
    let n = (first - SHORT) * 256 + usize::from(*s.get(next)?);
    if n < SHORT {
        return None;
    }
    Some(Length {
        of: n,
        start: next + 1,
    })
}

// The element at an index; its contents are not looked into.
pub fn element_at(s: &[u8], at: usize) -> Option<Element>
    requires { at ≤ length s.now }
    ensures { ElementAt s.now at result }
{
    if s.len() - at < 3 {
        return None;
    }
    let id = get::<u16>(s, at);
    let bits = get::<u8>(s, at + 2);
    if bits % 64 != 0 {
        return None;
    }
    let Length { of, start } = length_at(s, at + 3)?;
    if of == 0 {
        return None;
    }
    if s.len() - start < of {
        return None;
    }
    Some(Element {
        id,
        criticality: bits / 64,
        start,
        end: start + of,
    })
}

// The container of extensions at an index.
fn extensions_at(s: &[u8], at: usize) -> Option<Extensions>
    requires { at ≤ length s.now }
    ensures { RunAt s.now at result }
{
    if s.len() - at < 2 {
        return None;
    }
    let last = get::<u16>(s, at) as usize;
    if MOST_EXTENSIONS <= last {
        return None;
    }
    let mut next = at + 2;
    let mut rejected = false;
    for _ in 0..last + 1 {
        let extension = element_at(s, next)?;
        let criticality = Criticality::try_from(extension.criticality).ok()?;
        rejected = rejected | (criticality == Criticality::Reject);
        next = extension.end;
    }
    Some(Extensions {
        end: next,
        rejected,
    })
}

// Extensions where their bit is 1, and none where it is 0.
// Stays: the bit as a number, since the format `given` (specs/Elements) and its law `given_lawful` take it as one; each caller would write
// `flags / 16 % 2 == 1` for `flags / 16 % 2`.
pub fn given_at(s: &[u8], at: usize, present: u8) -> Option<Extensions>
    requires at_in_bounds { at ≤ length s.now }
    requires one_bit { present < 2 }
    ensures { GivenAt s.now at present result }
{
    if present == 0 {
        return Some(Extensions {
            end: at,
            rejected: false,
        });
    }
    extensions_at(s, at)
}
