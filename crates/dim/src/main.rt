// Reads one ideal record on standard input, to its end, and writes its answer record to standard output and nothing else. `answer` does so for
// every reader and writer whose bytes a contract can name. Standard input and output are not among them: that they carry these bytes is
// tested, not proved.
#![tactic(auto)]

ghost use Rattle.std.specs.Prelude.{◌≡◌, ◌<◌, All, IfSome, OnOk};
ghost use Rattle.std.specs.Io.KnownBytes.{Appends};
ghost use Rattle.dim.specs.Dim.{dim_bytes};

use monomials::refusal::{MAX_COUNT, MAX_WIDTH};
use numbers::hf_at::MAX_DEGREE;
use records::answer::ANSWER_SIZE;
use records::host::answer_record;
use records::ideal::MAX_RECORD;
use std::io;
use std::io::{Read, Write};
use streams::read_full;

// One byte more than the longest record has: a longer input is no record, and neither is what is read of it (`whole_input`).
const MAX_INPUT: usize = MAX_RECORD + 1;

fn main(rt: HostRuntime) -> io::Result<()> {
    answer(&mut rt.stdin(), &mut rt.stdout())
}

// Reads an input to its end and writes its answer record.
fn answer<R: Read, W: Write>(input: &mut R, output: &mut W) -> io::Result<()>
    ensures { OnOk result (IfSome (R.remaining input.old) (λ bytes. All (λ byte. byte < 256) bytes
        → Appends (W.contents output.old) (W.contents output.new) (dim_bytes MAX_WIDTH MAX_COUNT MAX_DEGREE ANSWER_SIZE bytes))) }
{
    let mut room = [0u8; MAX_INPUT];
    let size = read_full(input, &mut room)?;
    let out = answer_to(&room[0..size]);
    output.write_all(&out)
}

// The answer record of the input.
fn answer_to(input: &[u8]) -> [u8; ANSWER_SIZE]
    ensures { result ≡ dim_bytes MAX_WIDTH MAX_COUNT MAX_DEGREE ANSWER_SIZE input.now }
{
    let mut out = [0u8; ANSWER_SIZE];
    // what it refuses stands in the record
    let _ = answer_record(input, &mut out);
    out
}
