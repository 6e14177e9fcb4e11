// One second in a cell, in place. A first pass changes every live place where it stands and counts those that have ended; only if there
// are any does a second pass close up. No legal place has ended before the second, so the second pass can ask each place again.
ghost use Rattle.std.specs.Prelude.{◌≡◌, not, ◌&&◌, eqb};
ghost use Rattle.rules.specs.Layout.{places_per_cell};
ghost use Rattle.rules.specs.InCell.{one_more, one_less, has_ended, second};
ghost use Rattle.cell_read.specs.Places.{live_places, with_places, Formed, place_at, LiveAt};
ghost use Rattle.in_cell.specs.Step.{Ready, Stepped};
ghost use Rattle.in_cell.specs.Second.{going_on, ToAir, Aired, AllLater};

use answer::{Row, put_row};
use cell_change::{Counts, drop_place, set_counts, set_wait};
use cell_read::{content, identity, is_live, sent, terms_of, wait};
use rules::layout::{PLACES, ROW};
use rules::{Broadcasts, Seconds};

// What the first pass leaves to be known: the rows written, and how many texts have ended.
#[derive(Clone, Copy)]
struct Pass {
    rows: usize,
    gone: usize,
}

pub fn second_in_cell(cell: &mut [u8], out: &mut [u8]) -> usize
    requires { Ready cell.old out.old places_per_cell }
    ensures { Stepped (second (live_places cell.old)) cell.old out.old cell.new out.new places_per_cell result }
{
    let pass = all_later(cell, out);
    if 0 < pass.gone {
        close_up(cell);
    }
    pass.rows
}

// A place waits on or is broadcast.
fn all_later(cell: &mut [u8], out: &mut [u8]) -> Pass
    requires { Ready cell.old out.old places_per_cell }
    ensures { AllLater cell.old out.old cell.new out.new result.rows result.gone }
{
    let mut rows: usize = 0;
    let mut gone: usize = 0;
    for k in 0..PLACES {
        if !is_live(cell, k) {
            break;
        }
        let left = wait(cell, k);
        if left.0 == 0 {
            gone += air(cell, k, out, rows) as usize;
            rows += 1;
        } else {
            set_wait(cell, k, one_less(left));
        }
    }
    Pass { rows, gone }
}

// A broadcast of place k, with row n for it; whether it was the last one.
fn air(cell: &mut [u8], k: usize, out: &mut [u8], n: usize) -> bool
    requires { ToAir cell.old out.old k n }
    ensures { Aired cell.old out.old k n cell.new out.new result }
{
    let terms = terms_of(cell, k);
    let sent = one_more(sent(cell, k));
    let wait = one_less(terms.period);
    let identity = identity(cell);
    let content = content(cell, k);
    set_counts(cell, k, Counts { sent, wait });
    put_row(
        out,
        ROW * n,
        Row {
            identity,
            count: sent,
            content,
        },
    );
    all_sent(terms.requested, sent)
}

// The places that have ended go, the last first; the rest close up.
fn close_up(cell: &mut [u8])
    requires { Formed cell.old }
    ensures { cell.new ≡ with_places cell.old (going_on (live_places cell.old)) }
{
    for k in (0..PLACES).rev() {
        if is_live(cell, k) && ended(cell, k) {
            drop_place(cell, k);
        }
    }
}

fn ended(cell: &[u8], k: usize) -> bool
    requires { LiveAt cell.now k }
    ensures { result ≡ has_ended (place_at cell.now k) }
{
    all_sent(terms_of(cell, k).requested, sent(cell, k))
}

// Requested 0 is a text without end.
fn all_sent(requested: Broadcasts, sent: Broadcasts) -> bool
    ensures { result ≡ (not (eqb requested.0 0) && eqb sent.0 requested.0) }
{
    (requested.0 != 0) & (sent.0 == requested.0)
}

// "sent goes up by one but stays at 65,535"
fn one_more(sent: Broadcasts) -> Broadcasts
    ensures { result.0 ≡ (one_more sent).0 }
{
    Broadcasts(sent.0.saturating_add(1))
}

fn one_less(seconds: Seconds) -> Seconds
    ensures { result.0 ≡ (one_less seconds).0 }
{
    Seconds(seconds.0.saturating_sub(1))
}
