// The frame around a message.
ghost use Rattle.std.specs.Prelude.{◌≡◌, Err, ◌≤◌, length};
ghost use Rattle.wire_judge.specs.Readers.{Extended, NotOwn, Outside, FramedAs};

use aper::{Criticality, element_at};
use octets::get;
use rules::Refusal;
use wire::Message;

// Choice-extension, whose id has two bytes; of the other choices the procedure code has one, so that choice and code stand where an element has its id.
const CHOICE_EXTENSION: u8 = 192;

// What stands from an index on is no message of ours: another's, if it is an element with a criticality and nothing behind it, else none.
fn outside<const AT: usize>(s: &[u8]) -> Refusal
    requires { AT ≤ length s.now }
    ensures { Outside s.now AT result }
{
    match element_at(s, AT) {
        None => Refusal::BadEncoding,
        Some(element) => {
            if Criticality::try_from(element.criticality).is_err() {
                return Refusal::BadEncoding;
            }
            if element.end != s.len() {
                return Refusal::BadEncoding;
            }
            Refusal::OtherMessage
        }
    }
}

// What follows the choice is an element; none of our messages is framed so.
fn extension_frame(m: Message, s: &[u8]) -> Refusal
    requires in_bounds { 1 ≤ length s.now }
    requires extended { Extended s.now }
    ensures { FramedAs m s.now (Err result) }
{
    outside::<1>(s)
}

// Why a frame is not the message's own: it is another message's, or none.
fn other_frame(m: Message, s: &[u8]) -> Refusal
    requires { NotOwn m s.now }
    ensures { FramedAs m s.now (Err result) }
{
    if s.len() == 0 {
        return Refusal::BadEncoding;
    }
    let choice = get::<u8>(s, 0);
    if choice % 64 != 0 {
        return Refusal::BadEncoding;
    }
    if choice == CHOICE_EXTENSION {
        return extension_frame(m, s);
    }
    outside::<0>(s)
}

// Where the message begins behind its frame. Its own frame is seen at once, and this much is compiled into each caller; anything else takes the closer look.
pub fn frame(m: Message, s: &[u8]) -> Result<usize, Refusal>
    ensures { FramedAs m s.now result }
{
    match element_at(s, 0) {
        None => Err(other_frame(m, s)),
        Some(element) => {
            if (element.id == m.frame_id())
                & Criticality::try_from(element.criticality).is_ok()
                & (element.end == s.len())
            {
                return Ok(element.start);
            }
            Err(other_frame(m, s))
        }
    }
}
