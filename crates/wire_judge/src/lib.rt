// Whether bytes are a message that can be taken (13 to 16): one pass over its elements judges it and remembers what it says and where its list of cells
// lies, which may be anywhere among them. What is remembered is a type parameter, so that the pass is compiled into each reader for itself: one for both is a
// call, and hands what was seen through memory. A response says less than a request, and then less is moved along.
#![tactic(auto)]

pub mod framing;

ghost use Rattle.std.specs.Prelude.{◌≡◌, IfSome, Some, ◌≤◌, length};
ghost use Rattle.std.specs.Option.{option_map};
ghost use Rattle.wire.specs.declared.Message.{Message};
ghost use Rattle.wire.specs.declared.Message.TheVariants.{CancelRequest};
ghost use Rattle.wire_judge.specs.declared.Seen.{Seen};
ghost use Rattle.wire_judge.specs.Account.{Lies};
ghost use Rattle.wire_judge.specs.Readers.{nothing_seen, in_turn, past_of, turn_of, Turned, WalkedOver, is_complete, JudgedAs};

use crate::framing::frame;
use aper::{Criticality, Element, element_at};
use octets::get;
use rules::Refusal;
use wire::form::{ELEMENTS_AT, FIRST_AT};
use wire::{Heard, Message, hear};

// What was seen in the elements so far: whether something is marked reject, whether an item of the list is missing, whether its cells ascend, whether the
// known elements are in order, the last of them, whether the two mandatory ones are there; what they said; where the list of cells begins and ends, both 0
// without one. Wide fields come first, and the numbers are as wide as leaves no byte between two fields or behind the last: such bytes are moved along too.
// Stays: flags beside what they are of, and 0 for no list: an Option's tags would leave bytes between the fields, which is a fifth of a short
// message's time (docs/PROVING.md, "Which bytes a struct moves"); `start..end` is then the empty part, as a list that is not there is read.
#[derive(Clone, Copy)]
pub struct Seen {
    pub start: usize,
    pub end: usize,
    pub last: usize,
    pub transaction: u16,
    pub requested: u16,
    pub identifier: u16,
    pub serial: u16,
    pub rejects: bool,
    pub lacks: bool,
    pub ascends: bool,
    pub ordered: bool,
    pub identified: bool,
    pub counted: bool,
    pub all: bool,
    pub noted: bool,
}

// Where a message's elements are, and what was seen in them.
#[derive(Clone, Copy)]
pub struct Judged<K> {
    pub start: usize,
    pub kept: K,
}

// What is kept of the elements so far: what was seen, or what can be seen in some messages alone.
pub trait Kept: Copy {
    // all that it says
    ghost seen: { Self → Seen };

    // the messages that say no more
    ghost Judges: { Message → Type 0 };

    fn nothing() -> Self
        ensures { seen result ≡ nothing_seen };

    // One element more; its contents are lent.
    fn with(self, m: Message, s: &[u8], element: Element) -> Option<Self>
        requires judges { Judges m }
        requires begins { element.start ≤ element.end }
        requires ends { element.end ≤ length s.now }
        requires lies { Lies m s.now (seen self) }
        ensures { Turned m s.now (seen self) element (option_map seen result) };

    // All elements, where they are seen without a walk from one to the next; of any others nothing is said.
    fn at_once(m: Message, s: &[u8]) -> Option<Self>
        requires { Judges m }
        ensures { IfSome result (λ kept. WalkedOver m s.now (Some (seen kept))) };

    fn rejects(self) -> bool
        ensures { result ≡ (seen self).rejects };

    fn is_complete(self, m: Message) -> bool
        requires { Judges m }
        ensures { result ≡ is_complete m (seen self) };
}

// ---- what a request says

impl Seen {
    // A known element, in the order of their ids.
    // Stays: this and `past` as in Met: over both, Kept would ask for a getter and a setter of `ordered`, `last` and `rejects`, six for these two.
    #[tactic(auto, unfolding(crate::specs::Readers::in_turn))]
    fn in_turn(self, id: u16) -> Seen
        ensures { result ≡ in_turn self id }
    {
        let mut now = self;
        let place = id as usize;
        now.ordered = self.ordered & (self.last < place);
        now.last = place;
        now
    }

    // An unknown one: skipped, or marked reject, or with no criticality.
    #[tactic(auto, unfolding(crate::specs::Readers::past_of))]
    fn past(self, criticality: u8) -> Option<Seen>
        ensures { result ≡ past_of self criticality }
    {
        let criticality = Criticality::try_from(criticality).ok()?;
        let mut now = self;
        now.rejects = self.rejects | (criticality == Criticality::Reject);
        Some(now)
    }

    // What an element tells, and where it lies. Each arm begins with what was seen: with one beginning for all of them the whole of it is moved once more.
    #[tactic(auto, unfolding(crate::specs::Readers::turn_of, crate::specs::Readers::in_turn))]
    fn told(self, element: Element, heard: Heard) -> Option<Seen>
        ensures { result ≡ turn_of self element.id element.criticality element.start element.end heard }
    {
        match heard {
            Heard::Transaction(transaction) => {
                let mut now = self.in_turn(element.id);
                now.identified = true;
                now.transaction = transaction as u16;
                Some(now)
            }
            Heard::Requested(requested) => {
                let mut now = self.in_turn(element.id);
                now.counted = true;
                now.requested = requested;
                Some(now)
            }
            Heard::Cells(marks) => {
                let mut now = self.in_turn(element.id);
                now.rejects = self.rejects | marks.rejected;
                now.lacks = self.lacks | marks.foreign;
                now.ascends = marks.ascends;
                now.start = element.start;
                now.end = element.end;
                Some(now)
            }
            Heard::CancelAll => {
                let mut now = self.in_turn(element.id);
                now.all = true;
                Some(now)
            }
            Heard::Notification(notice) => {
                let mut now = self.in_turn(element.id);
                now.rejects = self.rejects | notice.rejected;
                now.noted = true;
                now.identifier = notice.identifier;
                now.serial = notice.serial;
                Some(now)
            }
            Heard::Unknown => self.past(element.criticality),
        }
    }
}

impl Kept for Seen {
    ghost use Rattle.std.specs.Prelude.{◌≡◌};
    ghost use Rattle.wire.specs.declared.Message.TheVariants.{CancelRequest};

    ghost seen = { λ s. s };

    ghost Judges = { λ m. m ≡ CancelRequest };

    #[tactic(auto, unfolding(crate::specs::Readers::nothing_seen))]
    fn nothing() -> Seen {
        Seen {
            rejects: false,
            lacks: false,
            ascends: true,
            ordered: true,
            last: 0,
            identified: false,
            counted: false,
            transaction: 0,
            requested: 0,
            all: false,
            noted: false,
            identifier: 0,
            serial: 0,
            start: 0,
            end: 0,
        }
    }

    fn with(self, m: Message, s: &[u8], element: Element) -> Option<Seen> {
        let heard = hear(element.id, &s[element.start..element.end])?;
        self.told(element, heard)
    }

    fn at_once(m: Message, s: &[u8]) -> Option<Seen> {
        None
    }

    fn rejects(self) -> bool {
        self.rejects
    }

    fn is_complete(self, m: Message) -> bool {
        self.ordered & self.identified & self.counted & !self.lacks
    }
}

// ---- the elements

// One after the other, behind the extension bit and their number: all of them and nothing else.
fn each_element<K: Kept>(m: Message, s: &[u8]) -> Option<K>
    requires { K.Judges m }
    ensures { WalkedOver m s.now (option_map K.seen result) }
{
    if s.len() < FIRST_AT {
        return None;
    }
    if get::<u8>(s, 0) != 0 {
        return None;
    }
    let mut at = FIRST_AT;
    let mut kept = K::nothing();
    for _ in 0..get::<u16>(s, ELEMENTS_AT) {
        let element = element_at(s, at)?;
        // A badly encoded element ends the walk with nothing, whatever was seen before it.
        kept = match kept.with(m, s, element) {
            Some(next) => next,
            None => return None,
        };
        at = element.end;
    }
    if at != s.len() {
        return None;
    }
    Some(kept)
}

fn elements<K: Kept>(m: Message, s: &[u8]) -> Option<K>
    requires { K.Judges m }
    ensures { WalkedOver m s.now (option_map K.seen result) }
{
    match K::at_once(m, s) {
        Some(kept) => Some(kept),
        None => each_element(m, s),
    }
}

// ---- 13 to 16

// Of any message, by what is kept of it.
pub fn judge_by<K: Kept>(m: Message, message: &[u8]) -> Result<Judged<K>, Refusal>
    requires { K.Judges m }
    ensures { JudgedAs K.seen m message.now result }
{
    let start = frame(m, message)?;
    let kept: K = elements(m, &message[start..]).ok_or(Refusal::BadEncoding)?;
    if kept.rejects() {
        return Err(Refusal::UnknownElement);
    }
    if !kept.is_complete(m) {
        return Err(Refusal::ElementsWrong);
    }
    Ok(Judged { start, kept })
}

pub fn judge(message: &[u8]) -> Result<Judged<Seen>, Refusal>
    ensures { JudgedAs (λ s. s) CancelRequest message.now result }
{
    judge_by(Message::CancelRequest, message)
}
