// Whether bytes are a certain response that can be taken (13 to 16). Most responses are a transaction identifier and a list alone, or without the list: these
// are seen at once. Any other is walked over, element by element.
#![tactic(auto)]

ghost use Rattle.std.specs.Prelude.{◌≡◌, IfSome, Some, ◌≤◌, length};
ghost use Rattle.wire.specs.declared.Message.TheVariants.{CancelRequest};
ghost use Rattle.wire_judge.specs.Readers.{WalkedOver, JudgedAs};
ghost use Rattle.response_judge.specs.Met.{seen_of, in_turn_of, identified_by, listed_by, past_by, alone_by, Fronted};

use aper::{Criticality, Element, element_at};
use octets::get;
use rules::Refusal;
use wire::form::{BLANK_AT, ELEMENTS_AT, FIRST_AT, FRONT, IDENTIFIED, NUMBER_AT, TRANSACTION};
use wire::list::{plain_list, told};
use wire::{Marks, Message, transaction};
use wire_judge::{Judged, Kept, judge_by};

// What was met in the elements so far, as the judge of requests keeps it, but only what a response can say: then it fills three words, and no byte is left
// between two fields or behind the last to be moved along.
// Stays: beside Seen, and with its flags: in one struct for both a response would carry what only a request says (docs/DECISIONS.md).
#[derive(Clone, Copy)]
pub struct Met {
    pub start: usize,
    pub end: usize,
    pub last: u16,
    pub transaction: u8,
    pub rejects: bool,
    pub lacks: bool,
    pub ascends: bool,
    pub ordered: bool,
    pub identified: bool,
}

// ---- element by element

impl Met {
    #[tactic(auto, unfolding(crate::specs::Met::in_turn_of))]
    fn in_turn(self, id: u16) -> Met
        ensures { result ≡ in_turn_of self id }
    {
        let mut now = self;
        now.ordered = self.ordered & (self.last < id);
        now.last = id;
        now
    }

    #[tactic(auto, unfolding(crate::specs::Met::identified_by, crate::specs::Met::in_turn_of))]
    fn identified(self, number: u8) -> Met
        ensures { result ≡ identified_by self number }
    {
        let mut now = self.in_turn(TRANSACTION);
        now.identified = true;
        now.transaction = number;
        now
    }

    // The list, and where it lies.
    #[tactic(auto, unfolding(crate::specs::Met::listed_by, crate::specs::Met::in_turn_of))]
    fn listed(self, element: Element, marks: Marks) -> Met
        ensures { result ≡ listed_by self element.id element.start element.end marks }
    {
        let mut now = self.in_turn(element.id);
        now.rejects = self.rejects | marks.rejected;
        now.lacks = self.lacks | marks.foreign;
        now.ascends = marks.ascends;
        now.start = element.start;
        now.end = element.end;
        now
    }

    // An unknown element: skipped, or marked reject, or with no criticality.
    #[tactic(auto, unfolding(crate::specs::Met::past_by))]
    fn past(self, criticality: u8) -> Option<Met>
        ensures { result ≡ past_by self criticality }
    {
        let criticality = Criticality::try_from(criticality).ok()?;
        let mut now = self;
        now.rejects = self.rejects | (criticality == Criticality::Reject);
        Some(now)
    }
}

impl Kept for Met {
    ghost use Rattle.std.specs.Prelude.{◌≡◌};
    ghost use Rattle.wire.specs.declared.Message.TheVariants.{CancelRequest};
    ghost use Rattle.response_judge.specs.Met.{seen_of};

    ghost seen = { seen_of };

    ghost Judges = { λ m. m ≡ CancelRequest → ⊥ };

    #[tactic(auto, unfolding(wire_judge::specs::Readers::nothing_seen))]
    fn nothing() -> Met {
        Met {
            start: 0,
            end: 0,
            last: 0,
            transaction: 0,
            rejects: false,
            lacks: false,
            ascends: true,
            ordered: true,
            identified: false,
        }
    }

    fn with(self, m: Message, s: &[u8], element: Element) -> Option<Met> {
        let part = &s[element.start..element.end];
        if element.id == TRANSACTION {
            return Some(self.identified(transaction(part)?));
        }
        if element.id == m.cells_id() {
            return Some(self.listed(element, told(m, part)?));
        }
        self.past(element.criticality)
    }

    fn at_once(m: Message, s: &[u8]) -> Option<Met> {
        plain(m, s)
    }

    fn rejects(self) -> bool {
        self.rejects
    }

    fn is_complete(self, m: Message) -> bool {
        self.ordered & self.identified & !self.lacks
    }
}

// ---- at once

// What is met in a transaction identifier and a list behind it; without a list it is the last itself.
// Stays: made at once, and not by `identified` and `listed`: fields that are stored one by one and loaded as one word took 20 ns where a
// response without rows takes 6.6 (docs/SPEED.md).
#[tactic(auto, unfolding(crate::specs::Met::alone_by))]
fn alone(number: u8, last: u16, start: usize, end: usize, ascends: bool) -> Met
    ensures { result ≡ alone_by number last start end ascends }
{
    Met {
        start,
        end,
        last,
        transaction: number,
        rejects: false,
        lacks: false,
        ascends,
        ordered: true,
        identified: true,
    }
}

// Whether a response begins with a transaction identifier: no extension bit, its id and its length, and a byte 0 before the number.
fn fronted(s: &[u8]) -> bool
    ensures { Fronted s.now result }
{
    if s.len() < FRONT {
        return false;
    }
    let head = get::<u32>(s, FIRST_AT);
    (get::<u8>(s, 0) == 0)
        & (head / 65536 * 65536 + head % 16384 == IDENTIFIED)
        & (get::<u8>(s, BLANK_AT) == 0)
}

// A transaction identifier alone, or it and a list of items without extensions, with nothing behind. Of anything else nothing is said.
fn plain(m: Message, s: &[u8]) -> Option<Met>
    ensures { IfSome result (λ met. WalkedOver m s.now (Some (seen_of met))) }
{
    if !fronted(s) {
        return None;
    }
    let number = get::<u8>(s, NUMBER_AT);
    let elements = get::<u16>(s, ELEMENTS_AT);
    if (elements == 1) & (s.len() == FRONT) {
        return Some(alone(number, TRANSACTION, 0, 0, true));
    }
    if elements != 2 {
        return None;
    }
    let list = element_at(s, FRONT)?;
    if list.id != m.cells_id() {
        return None;
    }
    if list.end != s.len() {
        return None;
    }
    let marks = plain_list(m, &s[list.start..list.end])?;
    Some(alone(number, list.id, list.start, list.end, marks.ascends))
}

// ---- 13 to 16

pub fn judge(m: Message, message: &[u8]) -> Result<Judged<Met>, Refusal>
    requires { m ≡ CancelRequest → ⊥ }
    ensures { JudgedAs seen_of m message.now result }
{
    judge_by(m, message)
}
