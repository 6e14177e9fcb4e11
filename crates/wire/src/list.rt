// The list of cells, by the message that it stands in: its items, with and without extensions.
ghost use Rattle.std.specs.Prelude.{◌≡◌, ◌≤◌, length};
ghost use Rattle.wire.specs.Messages.{the_cells};
ghost use Rattle.wire.specs.MessageTree.{contents_by};
ghost use Rattle.wire.specs.Readers.{ItemGraded, GradeLies, plain_head, PlainItem, EntriesCounted, ListedAt, WalkedBy, PlainList, Tells, list_heard};

use crate::form::{IDENTITY_AT, IDENTITY_END, LISTED_HEAD};
use crate::{Heard, Marks, Message, identity_at};
use aper::{Criticality, Element, element_at, given_at};
use octets::get;

// The last byte of NR CGI, of which four bits are padding; in the list it stands behind the head of its entry.
const LAST_OF_IDENTITY: usize = IDENTITY_END - 1;

const LAST_LISTED: usize = LISTED_HEAD + LAST_OF_IDENTITY;

const MOST_LISTED: usize = 512;

// Bytes that are an item and nothing else: whether an extension in it is marked reject, and its cell's number.
#[derive(Clone, Copy)]
struct Grade {
    rejected: bool,
    identity: u64,
}

// An entry of the list: where it ends, whether something in it is marked reject, whether it is not a cell's, and its cell's number.
// Stays: 0 as the number of an entry that is not a cell's: where it is said whether cells ascend it counts as 0 (`number_of_entry`), so that
// `Option<u64>` would be taken apart with `unwrap_or(0)` at its only use.
#[derive(Clone, Copy)]
struct Listed {
    end: usize,
    rejected: bool,
    foreign: bool,
    identity: u64,
}

// Two sets of extensions may follow the fixed bytes, NR CGI's first; between them the count, if there is one.
fn item_grade(m: Message, s: &[u8]) -> Option<Grade>
    ensures { ItemGraded m s.now result × GradeLies result }
{
    if s.len() < IDENTITY_END {
        return None;
    }
    let flags = get::<u8>(s, 0);
    let last = get::<u8>(s, LAST_OF_IDENTITY);
    let padded = (flags / 128 == 0) & (flags % 64 / 32 == 0) & (flags % 16 == 0) & (last % 16 == 0);
    if !padded {
        return None;
    }
    let first = given_at(s, IDENTITY_END, flags / 16 % 2)?;
    if s.len() - first.end < m.count_size() {
        return None;
    }
    let second = given_at(s, first.end + m.count_size(), flags / 64 % 2)?;
    if second.end != s.len() {
        return None;
    }
    Some(Grade {
        rejected: first.rejected | second.rejected,
        identity: identity_at(s, IDENTITY_AT),
    })
}

// An item as most are, without extensions: its id, its length and its padding are seen at once. Of anything else nothing is said.
// Stays: `plain` beside the message that says it. Computed for each item, a trial of the reader alone took 15,009 instructions for 13,470 over 512
// cells.
fn plain_item(m: Message, plain: u32, s: &[u8], at: usize) -> bool
    requires head_of_items { plain ≡ plain_head m }
    requires at_in_bounds { at ≤ length s.now }
    ensures { PlainItem m s.now at result }
{
    let size = IDENTITY_END + m.count_size();
    if s.len() - at < LISTED_HEAD + size {
        return false;
    }
    let head = get::<u32>(s, at);
    let flags = get::<u8>(s, at + LISTED_HEAD);
    let last = get::<u8>(s, at + LAST_LISTED);
    (head / 65536 * 65536 + head % 16384 == plain) & (flags == 0) & (last % 16 == 0)
}

// The entry of the list at an index. An item's bytes are lent on; another element is not looked into, and is never skipped. Where PLAIN, only an item as most
// are is looked for.
fn entry_at<const PLAIN: bool>(m: Message, plain: u32, s: &[u8], at: usize) -> Option<Listed>
    requires head_of_items { plain ≡ plain_head m }
    requires at_in_bounds { at ≤ length s.now }
    ensures { ListedAt PLAIN m s.now at result }
{
    if plain_item(m, plain, s, at) {
        return Some(Listed {
            end: at + LISTED_HEAD + IDENTITY_END + m.count_size(),
            rejected: false,
            foreign: false,
            identity: identity_at(s, at + LISTED_HEAD + IDENTITY_AT),
        });
    }
    if PLAIN {
        return None;
    }
    let Element {
        id,
        criticality,
        start,
        end,
    } = element_at(s, at)?;
    if id == m.item_id() {
        let Grade { rejected, identity } = item_grade(m, &s[start..end])?;
        return Some(Listed {
            end,
            rejected,
            foreign: false,
            identity,
        });
    }
    let criticality = Criticality::try_from(criticality).ok()?;
    Some(Listed {
        end,
        rejected: criticality == Criticality::Reject,
        foreign: true,
        identity: 0,
    })
}

// How many entries a list has, by the number in front of them.
fn entry_count(s: &[u8]) -> Option<usize>
    ensures { EntriesCounted s.now result }
{
    if s.len() < 2 {
        return None;
    }
    let last = get::<u16>(s, 0) as usize;
    if MOST_LISTED <= last {
        return None;
    }
    Some(last + 1)
}

// What the list tells, of items as most are alone where PLAIN. `least` is the least number that the next cell may have, where cells ascend.
fn walked<const PLAIN: bool>(m: Message, s: &[u8]) -> Option<Marks>
    ensures { WalkedBy PLAIN m s.now result }
{
    let count = entry_count(s)?;
    let plain = m.plain_head();
    let mut at: usize = 2;
    let mut marks = Marks {
        rejected: false,
        foreign: false,
        ascends: true,
    };
    let mut least: u64 = 0;
    for _ in 0..count {
        let entry = entry_at::<PLAIN>(m, plain, s, at)?;
        marks = Marks {
            rejected: marks.rejected | entry.rejected,
            foreign: marks.foreign | entry.foreign,
            ascends: marks.ascends & (least <= entry.identity),
        };
        least = entry.identity + 1;
        at = entry.end;
    }
    if at != s.len() {
        return None;
    }
    Some(marks)
}

// What any list tells.
pub fn told(m: Message, s: &[u8]) -> Option<Marks>
    ensures { Tells (contents_by m the_cells) s.now (list_heard result) }
{
    walked::<false>(m, s)
}

// What a list of items without extensions tells, as most are. Of any other nothing is said.
pub fn plain_list(m: Message, s: &[u8]) -> Option<Marks>
    ensures { PlainList m s.now result }
{
    walked::<true>(m, s)
}

// What the list tells; most are seen to be plain. Without that first look a list of 512 cells took a sixth more instructions.
pub fn list_told(m: Message, s: &[u8]) -> Option<Marks>
    ensures { Tells (contents_by m the_cells) s.now (list_heard result) }
{
    plain_list(m, s).or_else(|| told(m, s))
}

// What is heard where a list was looked for.
pub fn heard(told: Option<Marks>) -> Option<Heard>
    ensures { result ≡ list_heard told }
{
    let marks = told?;
    Some(Heard::Cells(marks))
}
