// One request of the input: applied to the table, and what is told of it added to the text.
ghost use Rattle.std.specs.Prelude.{◌≡◌, ◌+◌, ◌≤◌, length};
ghost use Rattle.report_lines.specs.Told.{HasRoom};
ghost use Rattle.report_turns.specs.Report.{answer_room};
ghost use Rattle.report_turns.specs.Serve.{most_text, Served};
ghost use Rattle.report_turns.specs.Next.{next_behind as Next·next_behind};
ghost use Rattle.rules.specs.Layout.{most_cells};

use crate::Next;
use engine::apply::apply;
use report_lines::text::Text;

// What comes next behind a refusal.
// Stays: asked of the number, since `stops_at` (report_lines, specs/Framing) is a range of numbers.
#[tactic(auto, unfolding(report_lines::specs::Framing::stops_at))]
fn next_behind(number: u32) -> Next
    ensures { result ≡ Next·next_behind number }
{
    match number {
        1..=4 => Next::Stop,
        _ => Next::Go,
    }
}

pub fn serve(table: &mut [u8], req: &[u8], answer: &mut [u8], text: &mut Text) -> Next
    requires answer_bounded { length answer.old ≤ answer_room most_cells }
    requires room_for_text { HasRoom text.old most_text }
    ensures served { Served table.old req.now answer.old text.old table.new answer.new text.new result }
    ensures room_taken { text.new.at ≤ text.old.at + most_text }
{
    match apply(table, req, answer) {
        Ok(length) => {
            text.put_answer(&answer[..length]);
            Next::Go
        }
        Err(refusal) => {
            let number = refusal.number();
            text.put_no(number);
            next_behind(number)
        }
    }
}
