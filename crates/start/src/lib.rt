// What a Write-Replace comes to before any cell is looked at: whether it starts anything, and the place that it makes.
#![tactic(auto)]

ghost use Rattle.std.specs.Prelude.{◌≡◌};
ghost use Rattle.rules.specs.Layout.{current};
ghost use Rattle.rules.specs.Table.{place_bytes};
ghost use Rattle.rules.specs.ZeroRules.{zero_rules_stop};
ghost use Rattle.rules.specs.InCell.{starts_nothing, new_place};

use cell_change::place_bytes;
use rules::layout::{PLACE, PRIMARY_SIB};
use rules::{Broadcasts, Place, Request, Seconds};

// The zero rules (docs/ZERO-RULES.md): whether a start is idle, a row for each case.
fn zero_rules_stop(request: Request) -> bool
    ensures { result ≡ zero_rules_stop request }
{
    match (request.concurrent(), request.requested.0, request.period.0) {
        (false, 0, 0) => true,
        (false, 0, _) => true,
        (false, 1, 0) => false,
        (false, 1, _) => false,
        (false, _, 0) => true,
        (false, _, _) => false,
        (true, 0, 0) => true,
        (true, 0, _) => false,
        (true, 1, 0) => false,
        (true, 1, _) => false,
        (true, _, 0) => true,
        (true, _, _) => false,
    }
}

// What the table says, of a text that is no primary.
pub fn starts_nothing(request: Request) -> bool
    ensures { result ≡ starts_nothing request }
{
    (request.sib != PRIMARY_SIB) & zero_rules_stop(request)
}

// A primary goes out every second until it is stopped, whatever period and count it came with.
// Stays: a function and no From, since both of its types are other crates'.
fn new_place(request: Request) -> Place
    ensures { result ≡ new_place request }
{
    let place = Place {
        identifier: request.identifier,
        serial: request.serial,
        content: request.content,
        period: request.period,
        requested: request.requested,
        sent: Broadcasts(0),
        wait: Seconds(0),
        sib: request.sib,
    };
    if request.sib == PRIMARY_SIB {
        return Place {
            period: Seconds(1),
            requested: Broadcasts(0),
            ..place
        };
    }
    place
}

// Made once for a request, and stored in each cell that has a place for it.
pub fn new_bytes(request: Request) -> [u8; PLACE]
    ensures { result ≡ place_bytes current (new_place request) }
{
    place_bytes(new_place(request))
}
