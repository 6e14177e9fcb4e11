// The lines of the report. Each method adds its text behind what is there.
ghost use Rattle.std.specs.Prelude.{◌≡◌, ◌+◌, ◌*◌, ◌≤◌, ◌<◌, length};
ghost use Rattle.rules.specs.Layout.{current, answer_size, row_size};
ghost use Rattle.rules.specs.Answer.{row_count, answer_of};
ghost use Rattle.answer.specs.Rows.{row_said};
ghost use Rattle.report_lines.specs.Text.{glyph as Text·glyph, digits, most_places, hex_places, number_text, cell_text, no_text, ok_text, row_text, longest_row, answer_text};

use answer::{Row, kind, row_at, rows};
use rules::CellIdentity;

const HEX_PLACES: usize = 15;

// Stays: no plainer is `char::from_digit(d as u32, 16).unwrap() as u8`.
#[tactic(auto, unfolding(crate::specs::Text::glyph))]
fn glyph(d: u64) -> u8
    requires { d < 16 }
    ensures { result ≡ Text·glyph d }
{
    if d < 10 {
        b'0' + d as u8
    } else {
        b'a' - 10 + d as u8
    }
}

// The last 15 hex digits of n, the most significant first.
// Stays: `put_no` and `put_answer` promise their text outright, which may not change, and `write!(self, "{n:015x}")` promises it only
// where it returns `Ok`, which nothing says that it does.
fn hex(n: u64) -> [u8; HEX_PLACES]
    ensures { result ≡ digits 16 hex_places n }
{
    let mut text = [0; HEX_PLACES];
    let mut rest = n;
    for k in (0..HEX_PLACES).rev() {
        text[k] = glyph(rest % 16);
        rest /= 16;
    }
    text
}

// A lent buffer, and where its text ends.
#[derive(Drop)]
pub struct Text<'a> {
    pub out: &'a mut [u8],
    pub at: usize,
}

impl Text<'_> {
    ghost use Rattle.std.specs.Prelude.{[], ◌∷◌};
    ghost use Rattle.report_lines.specs.Text.{decimal, space};
    ghost use Rattle.report_lines.specs.Told.{HasRoom, Tells};

    fn put(&mut self, bytes: &[u8])
        requires { HasRoom self.old (length bytes.now) }
        ensures { Tells self.old bytes.now self.new }
    {
        let end = self.at + bytes.len();
        self.out[self.at..end].copy_from_slice(bytes);
        self.at = end;
    }

    // Stays: a store, since `copy_from_slice` of one byte still asks whether the two overlap: a row has three of them.
    fn put_byte(&mut self, byte: u8)
        requires { HasRoom self.old 1 }
        ensures { Tells self.old (byte ∷ []) self.new }
    {
        self.out[self.at] = byte;
        self.at += 1;
    }

    // Two letters and a space.
    fn put_word(&mut self, first: u8, second: u8)
        requires { HasRoom self.old 3 }
        ensures { Tells self.old (first ∷ second ∷ space ∷ []) self.new }
    {
        self.put_byte(first);
        self.put_byte(second);
        self.put_byte(b' ');
    }

    // A number of 32 bits in decimal. Most counts have one digit, which is told as it is.
    fn put_decimal(&mut self, n: u32)
        requires { HasRoom self.old most_places }
        ensures tells { Tells self.old (decimal n) self.new }
        ensures room_taken { self.new.at ≤ self.old.at + most_places }
    {
        if n < 10 {
            self.put_byte(b'0' + n as u8);
            return;
        }
        self.put(itoa::Buffer::new().format(n).as_bytes());
    }

    // Such a number, and what ends it.
    fn put_number(&mut self, n: u32, end: u8)
        requires { HasRoom self.old (most_places + 1) }
        ensures tells { Tells self.old (number_text n end) self.new }
        ensures room_taken { self.new.at ≤ self.old.at + (most_places + 1) }
    {
        self.put_decimal(n);
        self.put_byte(end);
    }

    fn put_cell(&mut self, identity: CellIdentity)
        requires { HasRoom self.old (hex_places + 1) }
        ensures tells { Tells self.old (cell_text identity.0) self.new }
        ensures room_taken { self.new.at ≤ self.old.at + (hex_places + 1) }
    {
        self.put(&hex(identity.0));
        self.put_byte(b' ');
    }

    pub fn put_no(&mut self, number: u32)
        requires { HasRoom self.old (most_places + 4) }
        ensures tells { Tells self.old (no_text number) self.new }
        ensures room_taken { self.new.at ≤ self.old.at + (most_places + 4) }
    {
        self.put_word(b'n', b'o');
        self.put_number(number, b'\n');
    }

    fn put_ok(&mut self, kind: u8, rows: u32)
        requires { HasRoom self.old (most_places + most_places + 5) }
        ensures tells { Tells self.old (ok_text kind rows) self.new }
        ensures room_taken { self.new.at ≤ self.old.at + (most_places + most_places + 5) }
    {
        self.put_word(b'o', b'k');
        self.put_number(u32::from(kind), b' ');
        self.put_number(rows, b'\n');
    }

    fn put_row(&mut self, row: Row)
        requires { HasRoom self.old longest_row }
        ensures tells { Tells self.old (row_text (row_said row)) self.new }
        ensures room_taken { self.new.at ≤ self.old.at + longest_row }
    {
        self.put_cell(row.identity);
        self.put_number(u32::from(row.count.0), b' ');
        self.put_number(row.content, b'\n');
    }

    // An answer: "ok KIND ROWS", and a line for each of its rows.
    pub fn put_answer(&mut self, answer: &[u8])
        requires rows_there { answer_size current + row_size current * row_count current answer.now ≤ length answer.now }
        requires room_for_text { HasRoom self.old (most_places + most_places + 5 + longest_row * row_count current answer.now) }
        ensures tells { Tells self.old (answer_text (answer_of current answer.now)) self.new }
        ensures room_taken { self.new.at ≤ self.old.at + (most_places + most_places + 5 + longest_row * row_count current answer.now) }
    {
        let many = rows(answer);
        self.put_ok(kind(answer), many as u32);
        for k in 0..many {
            self.put_row(row_at(answer, k));
        }
    }
}
