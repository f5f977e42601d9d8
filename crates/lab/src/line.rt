// The line that tells of a command: its letter, a space, and what was answered or why it was refused.
ghost use Rattle.std.specs.Prelude.{◌≡◌, ◌*◌, ◌<◌, ◌≤◌, length, IfOk};
ghost use Rattle.lab.specs.Lines.{hex, hex_digit, decimal, number_or, layer_text, place_text, fault_text, shown_block, answer_text, told_text, line_text, onto};
ghost use Rattle.lab.specs.Pushes.{HasRoom, Pushes};

use crate::answer::Answer;
use crate::run::LEAST_LINE;
use script::reader::is_letter;
use shelf::roster::MOST_SIZE;
use tray::fault::{Fault, Layer};

// A digit of a byte in hexadecimal.
fn hex_digit(n: u8) -> u8
    requires { n < 16 }
    ensures { result ≡ hex_digit n }
{
    if n < 10 { b'0' + n } else { b'a' + (n - 10) }
}

// A line being written. Its text so far stands at the front of the caller's buffer. (`write!` may fail for all that its
// clauses say, also where there is room, and a line may not.)
#[derive(Drop)]
struct Line<'l> {
    buffer: &'l mut [u8],
    len: usize,
}

impl Line<'_> {
    fn push(&mut self, text: &[u8])
        requires { HasRoom self.old (length text.now) }
        ensures { Pushes self.old (length text.now) text.now self.new }
    {
        let end = self.len + text.len();
        self.buffer[self.len..end].copy_from_slice(text);
        self.len = end;
    }

    // The digits of a number: those before the last one, and the last one.
    fn push_digits(&mut self, n: u32)
        requires { HasRoom self.old (length (decimal n)) }
        ensures { Pushes self.old (length (decimal n)) (decimal n) self.new }
    {
        if n < 10 {
            return self.push(&[b'0' + n as u8]);
        }
        self.push_digits(n / 10);
        self.push(&[b'0' + (n % 10) as u8]);
    }

    // A u32 has ten digits at most.
    fn push_number(&mut self, n: u32)
        requires { HasRoom self.old 10 }
        ensures { Pushes self.old 10 (decimal n) self.new }
    {
        self.push_digits(n);
    }

    // A number, or `-` for an absent one.
    fn push_number_or_dash(&mut self, n: Option<u32>)
        requires { HasRoom self.old 10 }
        ensures { Pushes self.old 10 (number_or n) self.new }
    {
        match n {
            Some(n) => self.push_number(n),
            None => self.push(b"-"),
        }
    }

    // Two digits for each byte of a block.
    fn push_hex(&mut self, block: &[u8])
        requires { HasRoom self.old (2 * length block.now) }
        ensures { Pushes self.old (2 * length block.now) (hex block.now) self.new }
    {
        for byte in block {
            self.push(&[hex_digit(*byte / 16), hex_digit(*byte % 16)]);
        }
    }

    // A column and a row, either of which may be absent.
    fn push_place(&mut self, column: Option<u32>, row: Option<u32>)
        requires { HasRoom self.old 21 }
        ensures { Pushes self.old 21 (place_text column row) self.new }
    {
        self.push_number_or_dash(column);
        self.push(b" ");
        self.push_number_or_dash(row);
    }

    fn push_layer(&mut self, layer: Layer)
        requires { HasRoom self.old 6 }
        ensures { Pushes self.old 6 (layer_text layer) self.new }
    {
        match layer {
            Layer::Script => self.push(b"script"),
            Layer::Shelf => self.push(b"shelf"),
            Layer::Tray => self.push(b"tray"),
        }
    }

    // `no`, and the fault's number, layer, column and row.
    fn push_fault(&mut self, fault: Fault)
        requires { HasRoom self.old 42 }
        ensures { Pushes self.old 42 (fault_text fault) self.new }
    {
        self.push(b"no ");
        self.push_number(u32::from(fault.refusal.number()));
        self.push(b" ");
        self.push_layer(fault.layer);
        self.push(b" ");
        self.push_place(fault.column, fault.row);
    }

    // What an accepted command tells.
    fn push_answer(&mut self, answer: Answer<'_>)
        requires room { HasRoom self.old 1024 }
        requires block { length (shown_block answer) ≤ MOST_SIZE }
        ensures { Pushes self.old 1024 (answer_text answer.entry) self.new }
    {
        match answer {
            Answer::Done => self.push(b"ok"),
            Answer::Block(block) => self.push_hex(block),
            Answer::Count(n) => self.push_number(n),
            Answer::Found(None) => self.push(b"clean"),
            Answer::Found(Some((column, row))) => self.push_place(Some(column), Some(row)),
        }
    }

    // What a command tells, accepted or refused.
    fn push_told(&mut self, told: Result<Answer<'_>, Fault>)
        requires room { HasRoom self.old 1024 }
        requires block { IfOk told (λ answer. length (shown_block answer) ≤ MOST_SIZE) }
        ensures { Pushes self.old 1024 (told_text told.entry) self.new }
    {
        match told {
            Ok(answer) => self.push_answer(answer),
            Err(fault) => self.push_fault(fault),
        }
    }
}

// Writes the line that tells of a command, and answers its length.
pub(crate) fn write_line(buffer: &mut [u8], letter: char, told: Result<Answer<'_>, Fault>) -> usize
    requires room { LEAST_LINE ≤ length buffer.old }
    requires block { IfOk told (λ answer. length (shown_block answer) ≤ MOST_SIZE) }
    ensures len { result ≡ length (line_text letter told.entry) }
    ensures line { buffer.new ≡ onto (line_text letter told.entry) buffer.old }
{
    let mut line = Line { buffer, len: 0 };
    // an unknown letter is shown as `?`
    let shown = if is_letter(letter) {
        letter as u8
    } else {
        b'?'
    };
    line.push(&[shown, b' ']);
    line.push_told(told);
    line.push(b"\n");
    line.len
}
