// The program "broadcast report" between its reads and its writes: one turn over the bytes at hand, so that whoever reads and writes
// around it needs to know nothing of what is said.
#![tactic(auto)]

ghost use Rattle.std.specs.Prelude.{◌≡◌, length};
ghost use Rattle.report_turns.specs.Buffers.{Standing, Turned, ToTake, Stepped, program_in};
ghost use Rattle.report_turns.specs.Talk.{started};
ghost use Rattle.report_turns.specs.Next.{pauses as Next·pauses};
ghost use Rattle.report_turns.specs.Turns.{step};

use heads::open_table;
use report_lines::text::Text;
use requests::serve_next;
use rules::layout::{MOST_CELLS, PLACES};

mod heads;
mod requests;
mod serve;

// What comes next: another turn, a read, or the end.
#[derive(Clone, Copy)]
pub enum Next {
    Go,
    Wait,
    Stop,
}

impl Next {
    // Whoever waits for the text would wait in vain behind a read or the end.
    fn pauses(self) -> bool
        ensures { result ≡ Next·pauses self }
    {
        match self {
            Next::Go => false,
            Next::Wait | Next::Stop => true,
        }
    }
}

// Where the program stands in the buffers that it is lent: the bytes at hand in the input, the end of the text that is not yet
// written, the cells of its table, once there is one, and what comes next, once the text is written if it has to be.
#[derive(Clone, Copy)]
pub struct Stand {
    pub cells: Option<usize>,
    pub from: usize,
    pub to: usize,
    pub at: usize,
    pub ended: bool,
    pub next: Next,
    pub writes: bool,
}

// The bytes at hand, and whether the input has ended behind them.
#[derive(Clone, Copy)]
pub struct Held<'a> {
    pub bytes: &'a [u8],
    pub ended: bool,
}

// What one turn did: the cells of the table then, the bytes that it took, and what comes next.
#[derive(Clone, Copy)]
pub struct Took {
    pub cells: Option<usize>,
    pub bytes: usize,
    pub next: Next,
}

// The text of one request is never longer: a first line of 25 letters and 38 for each place of each cell (specs/Serve, most_text).
const MOST_TEXT: usize = 25 + 38 * PLACES * MOST_CELLS;

// Nothing has come in yet.
pub fn start() -> Stand
    ensures { result ≡ started }
{
    Stand {
        cells: None,
        from: 0,
        to: 0,
        at: 0,
        ended: false,
        next: Next::Go,
        writes: false,
    }
}

// Stays: a struct of the lent buffers is no plainer. `turn` alone would make one, and `one_turn(held, cells, &mut Lent { table, answer, text })`
// would hand `open_table` an answer's buffer, which it may not touch.
fn one_turn(
    held: Held,
    cells: Option<usize>,
    table: &mut [u8],
    answer: &mut [u8],
    text: &mut Text,
) -> Took
    requires { ToTake cells (length table.old) (length answer.old) (length text.old.out.now) text.old.at }
    ensures { Stepped (step held.entry.ended (program_in cells table.old answer.old) held.entry.bytes.now) table.old answer.old text.old result table.new answer.new text.new }
{
    match cells {
        None => open_table(held, table, text),
        Some(cells) => serve_next(held, cells, table, answer, text),
    }
}

// The text is written where the next request's might not fit behind it, and before whoever waits for it has to wait for more input.
pub fn turn(s: Stand, input: &[u8], table: &mut [u8], answer: &mut [u8], out: &mut [u8]) -> Stand
    requires { Standing s (length input.now) (length table.old) (length answer.old) (length out.old) }
    ensures { Turned s input.now table.old answer.old out.old result table.new answer.new out.new }
{
    let held = Held {
        bytes: &input[s.from..s.to],
        ended: s.ended,
    };
    let mut text = Text { out, at: s.at };
    let took = one_turn(held, s.cells, table, answer, &mut text);
    let room = text.out.len() - text.at;
    Stand {
        cells: took.cells,
        from: s.from + took.bytes,
        at: text.at,
        next: took.next,
        writes: took.next.pauses() | (room < MOST_TEXT),
        ..s
    }
}
