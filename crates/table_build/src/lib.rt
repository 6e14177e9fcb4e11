// The builder: an empty table from cell heads back to back, at the start of a lent buffer.
#![tactic(auto)]

ghost use Rattle.std.specs.Prelude.{◌≡◌, ◌+◌, ◌*◌, ◌≤◌, length};
ghost use mathlib.Core.List.{flat_map};
ghost use Rattle.std.proofs.lemmas.List.Edits.{sets};
ghost use Rattle.octets.specs.Runs.{pieces};
ghost use Rattle.rules.specs.Layout.{current, header_size, head_size, cell_size, most_cells};
ghost use Rattle.rules.specs.Table.{legal_head, header_bytes};
ghost use Rattle.rules.specs.Refusals.{legal_heads};
ghost use Rattle.rules.specs.Applied.{filled_by, built};
ghost use Rattle.table_judge.specs.Judge.{legal_runs};
ghost use Rattle.table_build.specs.Build.{empty_run, IsMaker};

use octets::{Number, get, put};
use rules::Refusal;
use rules::layout::{CELL, HEAD, HEADER, MOST_CELLS, PLACES, TABLE_MARK, TABLE_VERSION, ZEROS_AT};
use table_judge::{head_legal, runs_legal};

// Any heads, any buffer: refusal 9, then 8; else the header, then each head with free places behind it. Bytes beyond stay.
pub fn build(heads: &[u8], table: &mut [u8]) -> Result<usize, Refusal>
    ensures { filled_by result table.new ≡ built heads.now table.old }
{
    if !heads_legal(heads) {
        return Err(Refusal::BadHeads);
    }
    let count = heads.len() / HEAD;
    let length = HEADER + CELL * count;
    if table.len() < length {
        return Err(Refusal::ShortBuffer);
    }
    put_header(table, count);
    put_cells(table, heads, HEAD, count, put_cell);
    Ok(length)
}

// Whole heads, 1 to 512, each legal, in order.
fn heads_legal(heads: &[u8]) -> bool
    ensures { result ≡ legal_heads heads.now }
{
    if heads.len() % HEAD != 0 {
        return false;
    }
    let count = heads.len() / HEAD;
    if !((1 <= count) & (count <= MOST_CELLS)) {
        return false;
    }
    runs_legal(heads, HEAD, count, head_legal)
}

// The converter asks this too. The eight zeros, and before them mark, version, N and the places of a cell as one number.
pub fn put_header(table: &mut [u8], count: usize)
    requires { (header_size ≤ length table.old) × (count ≤ most_cells) }
    ensures { table.new ≡ sets table.old 0 (header_bytes current count) }
{
    let marked = (TABLE_MARK as u64) * 65536 + (TABLE_VERSION as u64);
    put(
        table,
        0,
        (marked * 65536 + (count as u64)) * 256 + (PLACES as u64),
    );
    put::<u64>(table, ZEROS_AT, 0);
}

// Cells behind the header, each made by the caller of one of so many runs of one size. The converter asks this too.
// Stays: an index, since nothing is known of what a chunk of `chunks_exact_mut` holds once it is given back.
pub fn put_cells<F: Fn(&mut [u8], &[u8])>(
    table: &mut [u8],
    runs: &[u8],
    size: usize,
    count: usize,
    make: F,
)
    requires runs_whole { size * count ≤ length runs.now }
    requires room { header_size + cell_size current * count ≤ length table.old }
    requires may_be_asked { (cell : _) (run : _) → length cell.now ≡ cell_size current → length run.now ≡ size → F.pre make cell run }
    ensures { (made : _) → IsMaker F.Fn make made → table.new ≡ sets table.old header_size (flat_map made (pieces size count runs.now)) }
{
    for k in 0..count {
        let at = HEADER + CELL * k;
        let from = size * k;
        make(&mut table[at..at + CELL], &runs[from..from + size]);
    }
}

fn put_cell(cell: &mut [u8], head: &[u8])
    requires { (length cell.old ≡ cell_size current) × (length head.now ≡ head_size current) }
    ensures { cell.new ≡ empty_run head.now }
{
    put_head(cell, head);
    cell[HEAD..].fill(0);
}

// The head at the start of the cell. The converter asks this too.
// Stays: three stores, since `copy_from_slice` asks whether the two overlap: ten instructions more for each cell
// (47,236 for 42,140 with 512 heads, in a library of the tables' crates alone).
pub fn put_head(cell: &mut [u8], head: &[u8])
    requires { (length head.now ≡ head_size current) × (head_size current ≤ length cell.old) }
    ensures { cell.new ≡ sets cell.old 0 head.now }
{
    put(cell, 0, get::<u64>(head, 0));
    put(cell, u64::BYTES, get::<u64>(head, u64::BYTES));
    put(cell, 2 * u64::BYTES, get::<u64>(head, 2 * u64::BYTES));
}
