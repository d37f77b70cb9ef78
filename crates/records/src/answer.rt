// The answer record: a status, and where it is 0 a dimension and a top degree.
ghost use Rattle.std.specs.Prelude.{◌≡◌, ◌++◌, ◌≤◌, length, drop};
ghost use Rattle.laws.specs.Record.{answer_record};
ghost use Rattle.numbers.specs.Wide.{value};
ghost use Rattle.records.specs.Answer.{answer_outcome, answer_bytes};

use crate::bytes::put_bytes;
use monomials::refusal::Refusal;
use numbers::wide::Wide;

// The bytes of an answer record.
pub const ANSWER_SIZE: usize = 26;

// Writes the answer record with this status, dimension and top degree; past it the output is kept. Where the status is not 0 both numbers are
// written as 0. A status is a number and no refusal, since a caller may write one that no refusal has.
pub fn write_answer(status: u8, dimension: Wide, top: u32, out: &mut [u8]) -> Result<(), Refusal>
    ensures value { result ≡ answer_outcome ANSWER_SIZE out.old }
    ensures out_after { out.new ≡ answer_bytes ANSWER_SIZE status (value dimension) top out.old }
{
    if out.len() < ANSWER_SIZE {
        return Err(Refusal::Output);
    }
    if status == 0 {
        put_answer(0, dimension, top, out);
    } else {
        put_answer(status, Wide::ZERO, 0, out);
    }
    Ok(())
}

// The same into an output that has room for it.
pub(crate) fn put_answer(status: u8, dimension: Wide, top: u32, out: &mut [u8])
    requires { 26 ≤ length out.old }
    ensures { out.new ≡ answer_record status (value dimension) top ++ drop 26 out.old }
{
    out[0] = 1;
    put_bytes(out, 1, &21u32.to_be_bytes());
    out[5] = status;
    put_bytes(out, 6, &dimension.high.to_be_bytes());
    put_bytes(out, 14, &dimension.low.to_be_bytes());
    put_bytes(out, 22, &top.to_be_bytes());
}
