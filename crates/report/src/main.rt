// The program "broadcast report": N, N heads and then request records on standard input; what each is told on standard output.
// Only reading and writing stand here, and the loop around them; what is said, and when, is in the crate report_turns.
#![tactic(auto)]

ghost use Rattle.std.specs.Prelude.{◌≡◌, ◌-◌, ◌≤◌, ◌<◌, length};
ghost use Rattle.rules.specs.Layout.{most_cells};
ghost use Rattle.report_lines.specs.Framing.{heads_end};
ghost use Rattle.report_turns.specs.Report.{answer_room, table_size};
ghost use Rattle.report_turns.specs.Serve.{most_text};
ghost use Rattle.report_turns.specs.Buffers.{Standing};
ghost use Rattle.report_turns.specs.declared.Next.TheVariants.{Stop};
ghost use Rattle.report.specs.Going.{Written, ReadOn};

use report_lines::frame::settle;
use report_turns::{Next, Stand, start, turn};
use rules::layout::{ANSWER, CELL, HEADER, MOST_CELLS, PLACES, ROW};
use std::io::{self, Read, Write};

// The bytes that are read at once, and those that are written at once, at most.
const INPUT: usize = 65536;

const OUT: usize = 131072;

// ---- what went wrong outside

// The program ends with status 0 all the same: a line on standard error says it.
fn cannot_write(rt: HostRuntime) {
    let _ = eprintln!(rt; "report: standard output cannot be written");
}

fn cannot_read(rt: HostRuntime) {
    let _ = eprintln!(rt; "report: standard input cannot be read");
}

// ---- writing and reading

fn put_out(rt: HostRuntime, out: &[u8], at: usize) -> io::Result<()>
    requires { at ≤ length out.now }
{
    rt.stdout().write_all(&out[..at])
}

// The text is written, and the next one begins at the front. With nobody left to tell, the program stops.
fn write_text(rt: HostRuntime, s: Stand, out: &[u8]) -> Stand
    requires { s.at ≤ length out.now }
    ensures { Written s result }
{
    let told = Stand {
        at: 0,
        writes: false,
        ..s
    };
    if put_out(rt, out, s.at).is_err() {
        cannot_write(rt);
        return Stand {
            next: Next::Stop,
            ..told
        };
    }
    told
}

// Moves what is left to the front and reads once behind it. Nothing more: the input has ended.
fn read_on(rt: HostRuntime, s: Stand, input: &mut [u8]) -> Stand
    requires from_le_to { s.from ≤ s.to }
    requires to_in_bounds { s.to ≤ length input.old }
    requires room_to_read { s.to - s.from < length input.old }
    ensures { ReadOn s (length input.new) result }
{
    settle(input, s.from, s.to);
    let kept = s.to - s.from;
    let (more, next) = match rt.stdin().read(&mut input[kept..]) {
        Ok(n) => (n, Next::Go),
        Err(_) => {
            cannot_read(rt);
            (0, Next::Stop)
        }
    };
    Stand {
        from: 0,
        to: kept + more,
        ended: more == 0,
        next,
        ..s
    }
}

// ---- turn after turn

// One turn, and what it asks for: its text is written before a read may have to wait.
// Stays: the buffers one by one, here and in `run`, as `turn` of report_turns is promised of them (docs/PROMISES.md).
fn step(
    rt: HostRuntime,
    s: Stand,
    input: &mut [u8],
    table: &mut [u8],
    answer: &mut [u8],
    out: &mut [u8],
) -> Stand
    requires standing { Standing s (length input.old) (length table.old) (length answer.old) (length out.old) }
    requires room_for_input { heads_end most_cells ≤ length input.old }
    ensures { (result.next ≡ Stop → ⊥) → Standing result (length input.new) (length table.new) (length answer.new) (length out.new) }
{
    let told = turn(s, input, table, answer, out);
    if !told.writes {
        return told;
    }
    let written = write_text(rt, told, out);
    match written.next {
        Next::Wait => read_on(rt, written, input),
        Next::Go | Next::Stop => written,
    }
}

// A proved loop has to end, and nothing says that the input does. So it has more turns than any run uses up.
fn run(rt: HostRuntime, input: &mut [u8], table: &mut [u8], answer: &mut [u8], out: &mut [u8])
    requires room_for_input { heads_end most_cells ≤ length input.old }
    requires room_for_table { table_size most_cells ≤ length table.old }
    requires room_for_answer { answer_room most_cells ≤ length answer.old }
    requires room_for_text { most_text ≤ length out.old }
{
    let mut s = start();
    for _ in 0..u64::MAX {
        if matches!(s.next, Next::Stop) {
            break;
        }
        s = step(rt, s, input, table, answer, out);
    }
}

fn main(rt: HostRuntime) {
    let mut input = [0; INPUT];
    let mut table = [0; HEADER + CELL * MOST_CELLS];
    let mut answer = [0; ANSWER + ROW * PLACES * MOST_CELLS];
    let mut out = [0; OUT];
    run(rt, &mut input, &mut table, &mut answer, &mut out);
}
