// The program: reads standard input to its end, or one byte more than is run, runs it and writes the answers.
#![tactic(auto)]

ghost use Rattle.std.specs.Prelude.{◌≡◌, ◌≤◌, length, IfOk};
ghost use Rattle.endrusp.specs.Counts.{Counts};

use std::io;
use std::io::{ErrorKind, Read};

// Room for N bytes; a function, so that no proof unfolds the whole array.
fn room<const N: usize>() -> [u8; N]
    ensures { N ≡ length result }
{
    [0; N]
}

// How many bytes of answers stand at the front of out; none where it has no room, which main's has.
fn answers(input: &[u8], out: &mut [u8]) -> usize
    ensures { Counts result out.new }
{
    text::run(input, out).unwrap_or(0)
}

// Reads until the buffer is full or the input ends, and answers how many bytes it put at the front of it. The memory is fixed, so the library's reading to
// the end, which needs a heap, is not to be had.
fn read_full<R: Read>(reader: &mut R, buffer: &mut [u8]) -> io::Result<usize>
    ensures { IfOk result (λ n. n ≤ length buffer.new) }
{
    let mut n = 0;
    for _ in 0..u64::MAX {
        match reader.read(&mut buffer[n..]) {
            Ok(0) => break,
            Ok(k) => n += k,
            Err(e) => {
                if e.kind() != ErrorKind::Interrupted {
                    return Err(e);
                }
            }
        }
    }
    Ok(n)
}

fn main(rt: HostRuntime) -> io::Result<()> {
    // Room for one byte more than is run, and for eleven bytes for each of those and eleven more.
    let mut input = room::<65537>();
    let mut out = room::<720918>();
    let n = read_full(&mut rt.stdin(), &mut input)?;
    let k = answers(&input[..n], &mut out);
    rt.write_all(&out[..k])
}
