// What every record begins with: "PWR" and the version.
ghost use Rattle.std.specs.Prelude.{◌≡◌};
ghost use Rattle.rules.specs.Layout.{current};
ghost use Rattle.rules.specs.Record.{record_marked};

use octets::get;
use rules::layout::{RECORD, RECORD_MARK, RECORD_VERSION, VERSION_1, VERSION_AT};

const MARK_AT: usize = 0;

// Bytes long enough for a record, with its mark and a version that is taken. The version's upper byte is zero and is read with the mark.
#[tactic(auto, using(crate::proofs::FieldReads::mark_taken), unfolding(rules::specs::Record::record_marked))]
pub fn marked(req: &[u8]) -> bool
    ensures { result ≡ record_marked current req.now }
{
    if req.len() < RECORD {
        return false;
    }
    let version = get::<u8>(req, VERSION_AT + 1);
    (get::<u32>(req, MARK_AT) == RECORD_MARK * 256)
        & ((version == VERSION_1) | (version == RECORD_VERSION))
}
