// The text form of frames and answers: hexadecimal digits, the call that a line says, where a line ends, and the eleven bytes
// of an answer.
#![tactic(auto)]

ghost use Rattle.std.specs.Prelude.{◌≡◌, ◌%◌, ◌≤◌, length, position, nat_eq};
ghost use Rattle.rules.specs.Answers.{code_of, value_of};
ghost use Rattle.frames.specs.Hex.{digit_in, digit_out, number_in};
ghost use Rattle.frames.specs.Frames.{fields_of, unused_are_zero, uses_only, frame_of, decode};
ghost use Rattle.frames.specs.Lines.{line_end};
ghost use Rattle.frames.specs.AnswerLines.{line_of, answer_line, no_frame_line, too_long_line};

use tables::{Call, Outcome};

// The value of a byte that is a digit.
#[tactic(auto, using(crate::proofs::Digits::digits))]
fn digit_in(b: u8) -> Option<u8>
    ensures { result ≡ digit_in b }
{
    match b {
        b'0'..=b'9' => Some(b - b'0'),
        b'a'..=b'f' => Some(b - b'a' + 10),
        _ => None,
    }
}

// The lowest digit of a number.
fn low_digit(n: u32) -> u8
    ensures { result ≡ digit_out (n % 16) }
{
    let v = (n % 16) as u8;
    if v < 10 { b'0' + v } else { b'a' + (v - 10) }
}

// The number that up to sixteen digits say.
#[tactic(auto, using(crate::proofs::Digits::parses))]
fn parse(s: &[u8]) -> Option<u64>
    requires { length s.now ≤ 16 }
    ensures { result ≡ number_in s.now }
{
    let mut v: u64 = 0;
    for b in s {
        let d = digit_in(*b)?;
        v = v * 16 + u64::from(d);
    }
    Some(v)
}

// The parts of a frame: the call, three bytes and the number.
#[derive(Clone, Copy)]
struct Fields {
    call: u8,
    a: u8,
    b: u8,
    c: u8,
    n: u32,
}

// The parts of a number of 64 bits, high byte first.
impl From<u64> for Fields {
    ghost from_gives = { λ v f. f ≡ fields_of v };

    fn from(v: u64) -> Fields {
        let [call, a, b, c, n3, n2, n1, n0] = v.to_be_bytes();
        let n = u32::from_be_bytes([n3, n2, n1, n0]);
        Fields { call, a, b, c, n }
    }
}

impl Fields {
    // Whether a frame is 0 but for the first so many of its bytes, and for its number or not.
    fn unused_are_zero(self, bytes: u8, number: bool) -> bool
        ensures { result ≡ unused_are_zero self bytes number }
    {
        let a = 0 < bytes || self.a == 0;
        let b = 1 < bytes || self.b == 0;
        let c = 2 < bytes || self.c == 0;
        let n = number || self.n == 0;
        a && b && c && n
    }

    // The call, where what it does not use of the frame is 0.
    fn uses_only(self, bytes: u8, number: bool, call: Call) -> Option<Call>
        ensures { result ≡ uses_only self bytes number call }
    {
        self.unused_are_zero(bytes, number).then_some(call)
    }

    // The frame by its call: how many of the bytes the call uses, whether the number, and what its arguments are.
    #[tactic(auto, unfolding(crate::specs::Frames::by_call))]
    fn frame(self) -> Option<Call>
        ensures { result ≡ frame_of self }
    {
        let Fields { call, a, b, c, n } = self;
        match call {
            1 => self.uses_only(1, false, Call::Start { p: a }),
            2 => self.uses_only(1, true, Call::New { w: a, caller: n }),
            3 => self.uses_only(2, true, Call::Set { w: a, c: b, n }),
            4 => self.uses_only(3, false, Call::Bind { w: a, c: b, x: c }),
            5 => self.uses_only(3, false, Call::Export { w: a, c: b, to: c }),
            6 => self.uses_only(3, false, Call::Indirect { w: a, c: b, to: c }),
            7 => self.uses_only(3, false, Call::Transfer { w: a, c: b, to: c }),
            8 => self.uses_only(2, false, Call::Drop { w: a, c: b }),
            9 => self.uses_only(2, false, Call::ReadCell { w: a, c: b }),
            10 => self.uses_only(2, false, Call::AskWeight { w: a, c: b }),
            11 => self.uses_only(1, false, Call::Deliver { slot: a }),
            12 => self.uses_only(0, false, Call::Bound),
            _ => None,
        }
    }
}

// The call that a line says, without its newline, where it is a frame.
#[tactic(auto, unfolding(crate::specs::Frames::decode))]
pub fn decode(line: &[u8]) -> Option<Call>
    ensures { result ≡ decode line.now }
{
    if line.len() != 16 {
        return None;
    }
    Fields::from(parse(line)?).frame()
}

// Where the first newline of a text stands.
fn newline(text: &[u8]) -> Option<usize>
    ensures { result ≡ position (λ x. nat_eq x 10) text.now }
{
    text.iter().position(|b| *b == b'\n')
}

// Where the line that starts at a place ends: its newline's place, or the end of the text.
#[tactic(auto, using(crate::proofs::Lines::ends))]
pub fn line_end(text: &[u8], at: usize) -> usize
    ensures { result ≡ line_end text.now at }
{
    let Some(rest) = text.get(at..) else {
        return at;
    };
    at + newline(rest).unwrap_or(rest.len())
}

// The code of an answer. It and the next are functions and no From: the type stands in `tables`, and what they are equal to in `rules` (`code_of`).
pub fn code_of(answer: Outcome) -> u8
    ensures { result ≡ code_of answer }
{
    match answer {
        Outcome::Done(_) => 0,
        Outcome::Sent(_) => 0x40,
        Outcome::Waiting => 0x41,
        Outcome::Unbound => 0x42,
        Outcome::Refused(why) => why as u8,
    }
}

// The value of an answer.
pub fn value_of(answer: Outcome) -> u32
    ensures { result ≡ value_of answer }
{
    match answer {
        Outcome::Done(v) => v,
        Outcome::Sent(slot) => slot as u32,
        Outcome::Waiting | Outcome::Unbound | Outcome::Refused(_) => 0,
    }
}

// The line of a code and a value, digit by digit: a format into a buffer could fail, and this cannot.
#[tactic(auto, unfolding(crate::specs::AnswerLines::line_of))]
fn line_of(code: u8, value: u32) -> [u8; 11]
    ensures { result ≡ line_of code value }
{
    [
        low_digit(code as u32 / 0x10),
        low_digit(code as u32),
        low_digit(value / 0x1000_0000),
        low_digit(value / 0x0100_0000),
        low_digit(value / 0x0010_0000),
        low_digit(value / 0x0001_0000),
        low_digit(value / 0x1000),
        low_digit(value / 0x0100),
        low_digit(value / 0x10),
        low_digit(value),
        b'\n',
    ]
}

// The line of an answer.
pub fn answer_line(answer: Outcome) -> [u8; 11]
    ensures { result ≡ answer_line answer }
{
    line_of(code_of(answer), value_of(answer))
}

// The line that answers a line that is no frame. It and the next are two sentences of document 01 (`no_frame_line`, `too_long_line`).
pub fn no_frame_line() -> [u8; 11]
    ensures { result ≡ no_frame_line }
{
    line_of(0xff, 0)
}

// The one line that answers an input that is too long.
pub fn too_long_line() -> [u8; 11]
    ensures { result ≡ too_long_line }
{
    line_of(0xff, 0xffff_ffff)
}
