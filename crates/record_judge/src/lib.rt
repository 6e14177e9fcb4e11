// The tests 5, 6 and 7 of a request: document 01, "The request record". The reader of a record and its writer ask this one judge.
// Which fields are zero, and which bits are set in the items, each side finds in its own way, and tells.
#![tactic(auto)]

ghost use Rattle.std.specs.Prelude.{◌≡◌, [], ◌∷◌};
ghost use Rattle.rules.specs.Lists.{one_of};
ghost use Rattle.rules.specs.Record.{any_area, cancels_nothing, item_end, kind_of};
ghost use Rattle.record_judge.specs.Told.{area_told, items_told, kind_told, text_told, told_verdict};

use rules::kind::{
    CANCEL_ALL, CANCEL_OR_KILL, CELLS, CONCURRENT, EMERGENCY_AREAS, FAILURE, NO_AREA, NOTIFIED,
    ONE_SECOND, RESTART, TRACKING_AREAS, WRITE_REPLACE,
};
use rules::layout::{CELL_END, EMERGENCY_END, FIRST_SIB, LAST_SIB, TRACKING_END};
use rules::{Refusal, Request, Seconds};

// ---- 5: flags, areas and zero fields by kind

#[tactic(auto, unfolding(rules::specs::Lists::one_of, rules::specs::Lists::any))]
fn any_area(area: u8) -> bool
    ensures { result ≡ one_of area any_area }
{
    area <= EMERGENCY_AREAS
}

#[tactic(auto, unfolding(rules::specs::Lists::one_of, rules::specs::Lists::any))]
fn cancel_flags(flags: u8) -> bool
    ensures { result ≡ one_of flags (0 ∷ 2 ∷ 4 ∷ 6 ∷ []) }
{
    (flags == 0) | (flags == CANCEL_ALL) | (flags == NOTIFIED) | (flags == CANCEL_ALL + NOTIFIED)
}

// The table of kinds: "Flags allowed", "Areas", "Fields that are zero".
// Stays: three rows have guards in place of patterns. With `RESTART | FAILURE =>`, `ONE_SECOND =>` and `_ => false` the read of a record takes
// 15 ns where it takes 11 so (142 instructions for 132): a table of jumps, and registers that are saved.
#[tactic(auto, unfolding(rules::specs::Lists::one_of, rules::specs::Lists::any))]
fn kind_allows(request: Request, textless: bool, omitted: bool) -> bool
    ensures { result ≡ kind_told (kind_of request.kind) request.flags request.area textless omitted }
{
    let flags = request.flags;
    let area = request.area;
    match request.kind {
        WRITE_REPLACE => ((flags == 0) | (flags == CONCURRENT)) & any_area(area),
        CANCEL_OR_KILL => cancel_flags(flags) & any_area(area) & omitted,
        kind if (kind == RESTART) | (kind == FAILURE) => {
            (flags == 0) & ((area == NO_AREA) | (area == CELLS)) & textless
        }
        kind => (kind == ONE_SECOND) & (flags == 0) & (area == NO_AREA) & textless,
    }
}

// "Area 0 exactly when n = 0."
fn area_fits(area: u8, n: usize) -> bool
    ensures { result ≡ area_told area n }
{
    (area == NO_AREA) == (n == 0)
}

// ---- 6: limits

// Those of a Write-Replace, under a longest period.
fn text_within(request: Request, longest: Seconds) -> bool
    ensures { result ≡ text_told request longest }
{
    (request.kind != WRITE_REPLACE)
        || (request.period.0 <= longest.0) & (FIRST_SIB <= request.sib) & (request.sib <= LAST_SIB)
}

// What an item, by its area, stays below.
fn item_end(area: u8) -> u64
    ensures { result ≡ item_end area }
{
    match area {
        CELLS => CELL_END,
        TRACKING_AREAS => TRACKING_END,
        _ => EMERGENCY_END,
    }
}

// Each of n items is small enough for its area: its end is a power of 2, so all of them are where all their bits are.
fn items_small(area: u8, n: usize, any: u64) -> bool
    ensures { result ≡ items_told area n any }
{
    n == 0 || any < item_end(area)
}

// ---- 7

// "Cancel with neither flag 2 nor flag 4"
#[tactic(auto, unfolding(rules::specs::Record::cancels_nothing))]
fn cancels_nothing(request: Request) -> bool
    ensures { result ≡ cancels_nothing request }
{
    (request.kind == CANCEL_OR_KILL) & !request.cancels_all() & !request.notified()
}

// ---- in their order

// The first of the refusals 5, 6 and 7 that applies. `textless`: the fields from identifier to SIB kind are zero; `omitted`: those are that
// a cancel leaves out; `any`: every bit that is set in any of the n items.
// Stays: five values told one by one: `told_verdict`, which `judged_once` and `told-verdict` (docs/PROMISES.md) are about, takes them so.
#[tactic(auto, unfolding(crate::specs::Told::told_verdict))]
pub fn judged(
    request: Request,
    textless: bool,
    omitted: bool,
    n: usize,
    any: u64,
    longest: Seconds,
) -> Result<(), Refusal>
    ensures { result ≡ told_verdict request textless omitted n any longest }
{
    if !kind_allows(request, textless, omitted) {
        return Err(Refusal::RecordFields);
    }
    if !area_fits(request.area, n) {
        return Err(Refusal::RecordFields);
    }
    if !text_within(request, longest) {
        return Err(Refusal::RecordLimits);
    }
    if !items_small(request.area, n, any) {
        return Err(Refusal::RecordLimits);
    }
    if cancels_nothing(request) {
        return Err(Refusal::CancelsNothing);
    }
    Ok(())
}
