// A response taken from the wire (document 02, 6/13): the message is judged, and then the answer is written, each row out of the message's own bytes.
#![tactic(auto)]

ghost use Rattle.std.specs.Prelude.{◌≡◌, false};
ghost use Rattle.rules.specs.Applied.{filled_by};
ghost use Rattle.wire.specs.MessageOutcome.{taken_by};
ghost use Rattle.wire_judge.specs.Account.{Lies, account_by};
ghost use Rattle.response_judge.specs.Met.{seen_of};
ghost use Rattle.responses.specs.ResponseRead.{kind_answered, response_read};
ghost use Rattle.response_read.specs.Left.{meant_by, answer_left};

use answer::{Row, length_with, put_head, put_row};
use octets::get;
use response_judge::{Met, judge};
use rules::Refusal;
use rules::kind::{CANCEL_OR_KILL, WRITE_REPLACE};
use rules::layout::{ANSWER, ROW};
use wire::form::WRITE_REPLACE_RESPONSE;
use wire::{Message, Taken};
use wire_cells::each::{Form, put_each};
use wire_cells::{Cell, cell_count};
use wire_judge::Judged;

// ---- the answer

// Stays: a function and no From, since both of its types are other crates'.
fn kind_answered(m: Message) -> u8
    ensures { result ≡ kind_answered m }
{
    match m {
        Message::WriteReplaceResponse => WRITE_REPLACE,
        Message::CancelResponse | Message::CancelRequest => CANCEL_OR_KILL,
    }
}

// A cell as a row of the answer.
struct Answered;

impl Form for Answered {
    ghost use Rattle.rules.specs.Layout.{current, row_size};
    ghost use Rattle.rules.specs.Answer.{row_bytes};
    ghost use Rattle.rules.proofs.RowCodec.{length-row_bytes};

    ghost form = { row_bytes current };

    ghost SIZE = { row_size current };

    const SIZE: usize = ROW;

    fn put(out: &mut [u8], at: usize, cell: Cell) {
        let row = Row {
            identity: cell.identity,
            count: cell.count,
            content: 0,
        };
        put_row(out, at, row);
    }

    ghost sized = { length-row_bytes current };
}

// 17, then 8, or the answer at the start of the buffer; bytes behind it stay.
fn put_answer(m: Message, elements: &[u8], met: Met, answer: &mut [u8]) -> Result<usize, Refusal>
    requires lies { Lies m elements.now (seen_of met) }
    requires every_cell_known { met.lacks ≡ false }
    ensures { filled_by result answer.new ≡ answer_left (kind_answered m) (account_by m elements.now (seen_of met)).says.cells answer.old }
{
    if !met.ascends {
        return Err(Refusal::AnswerWrong);
    }
    let cells = &elements[met.start..met.end];
    let n = cell_count(m, cells);
    let size = length_with(n);
    if answer.len() < size {
        return Err(Refusal::ShortBuffer);
    }
    put_head(answer, kind_answered(m), 0, 0, n as u16);
    put_each::<Answered>(m, answer, ANSWER, cells);
    Ok(size)
}

// ---- all of it

// The response that the frame says; any other message is judged as a PWS CANCEL RESPONSE.
// Stays: a function and no From, since both of its types are other crates'.
fn meant(message: &[u8]) -> Message
    ensures { result ≡ meant_by message.now }
{
    if message.len() < 2 {
        return Message::CancelResponse;
    }
    match get::<u16>(message, 0) {
        WRITE_REPLACE_RESPONSE => Message::WriteReplaceResponse,
        _ => Message::CancelResponse,
    }
}

pub fn read_response(message: &[u8], answer: &mut [u8]) -> Result<Taken, Refusal>
    ensures { taken_by result answer.new ≡ response_read message.now answer.old }
{
    let m = meant(message);
    let Judged { start, kept } = judge(m, message)?;
    let length = put_answer(m, &message[start..], kept, answer)?;
    Ok(Taken {
        transaction: kept.transaction as u16,
        length,
    })
}
