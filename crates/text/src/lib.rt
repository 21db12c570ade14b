// The text program's work: every line of a text is read through one reader, run, and answered into a lent buffer.
#![tactic(auto)]

ghost use Rattle.std.specs.Prelude.{◌≡◌, ◌++◌, ◌+◌, ◌*◌, ◌≤◌, length, drop, IfOk, Some, codes};
ghost use Rattle.tables.specs.Machine.{eight, tables, state};
ghost use Rattle.rules.specs.Calls.{closed};
ghost use Rattle.frames.specs.Lines.{lines_of};
ghost use Rattle.text.specs.Text.{printed, after, answers_from, run_text};
ghost use Rattle.text.specs.Room.{ran, written};

use reader::Reader;
use std::error::Error;
use std::fmt;
use tables::{Call, State};

// The answer to one line, written over eleven bytes, and the state after it.
fn answer(s: &mut State, frame: Option<Call>, line: &mut [u8])
    requires { length line.old ≡ 11 }
    ensures state_after { s.new ≡ state (after (tables s.old) frame) }
    ensures line_after { line.new ≡ printed (tables s.old) frame }
{
    let Some(call) = frame else {
        line.copy_from_slice(&frames::no_frame_line());
        return;
    };
    let reply = calls::step(*s, call);
    line.copy_from_slice(&frames::answer_line(reply.outcome));
    *s = reply.state;
}

// Answers the input's lines from the closed state, where out has room for them, and says how many bytes of answers stand at the front
// of out. One reader holds the input and the place in it, from the first line to the last.
fn run_lines(input: &[u8], out: &mut [u8]) -> usize
    requires { 11 * length input.now + 11 ≤ length out.old }
    ensures { (result ≡ length (answers_from (closed eight) (lines_of input.now))) × (out.new ≡ answers_from (closed eight) (lines_of input.now) ++ drop result out.old) }
{
    let mut s = changes::all_free(0);
    // How many bytes are written is where the next line goes, and what is answered at the end.
    let mut n = 0;
    for frame in Reader::new(input) {
        answer(&mut s, frame, &mut out[n..n + 11]);
        n += 11;
    }
    n
}

// The same, where the input is not too long; of one that is, the one line that says so.
#[tactic(auto, unfolding(crate::specs::Text::run_text))]
fn run_text(input: &[u8], out: &mut [u8]) -> usize
    requires { 11 * length input.now + 11 ≤ length out.old }
    ensures value { result ≡ length (run_text input.now) }
    ensures out_after { out.new ≡ run_text input.now ++ drop result out.old }
{
    if 65536 < input.len() {
        out[..11].copy_from_slice(&frames::too_long_line());
        return 11;
    }
    run_lines(input, out)
}

// The buffer has no room for a run, and is as it was.
#[derive(Clone, Copy, Debug, PartialEq, Eq)]
pub struct NoRoom;

impl fmt::Display for NoRoom {
    ghost output = { λ _. Some (codes "the buffer has no room for the answers") };

    fn fmt<W: fmt::Write>(&self, f: &mut fmt::Formatter<W>) -> fmt::Result {
        write!(f, "the buffer has no room for the answers")
    }
}

impl Error for NoRoom {}

// Runs a text from the closed state into a buffer, which has room where it has 11 bytes for each byte of the text and 11 more, and says how
// many bytes of answers stand at its front.
#[tactic(auto, unfolding(crate::specs::Room::ran, crate::specs::Room::written))]
pub fn run(input: &[u8], out: &mut [u8]) -> Result<usize, NoRoom>
    ensures value { result ≡ ran input.now out.old }
    ensures out_after { out.new ≡ written input.now out.old }
    ensures within { IfOk result (λ n. n ≤ length out.new) }
{
    if out.len() / 11 <= input.len() {
        return Err(NoRoom);
    }
    Ok(run_text(input, out))
}
