// The text program's work for Rust and C to call.
#![tactic(auto)]

ghost use Rattle.std.specs.Prelude.{◌≡◌};
ghost use Rattle.text.specs.Room.{written};
ghost use Rattle.foreign.specs.Answer.{bytes_written};

// Runs input from the closed state into out, and says how many bytes of answers stand at its front; or the largest number, with out as it was,
// where out has not 11 bytes for each byte of input and 11 more: C has no Result.
#[unsafe(no_mangle)]
pub extern "C" fn endrusp_run(input: &[u8], out: &mut [u8]) -> usize
    ensures value { result ≡ bytes_written input.now out.old }
    ensures out_after { out.new ≡ written input.now out.old }
{
    text::run(input, out).unwrap_or(usize::MAX)
}
