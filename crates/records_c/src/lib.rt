// The host call as C sees it: include/purlthicket.h declares it. It hands on to the call of that name in `records`, whose clauses it states.
#![tactic(auto)]

ghost use Rattle.std.specs.Prelude.{◌≡◌};
ghost use Rattle.records.specs.Host.{host_number, host_bytes};

use monomials::refusal::{MAX_COUNT, MAX_WIDTH};
use numbers::hf_at::MAX_DEGREE;
use records::answer::ANSWER_SIZE;

// Writes the answer record of an ideal record and tells its status.
#[unsafe(no_mangle)]
pub extern "C" fn purlthicket_dim(rec: &[u8], out: &mut [u8]) -> u8
    ensures value { result ≡ host_number MAX_WIDTH MAX_COUNT MAX_DEGREE ANSWER_SIZE rec.now out.old }
    ensures out_after { out.new ≡ host_bytes MAX_WIDTH MAX_COUNT MAX_DEGREE ANSWER_SIZE rec.now out.old }
{
    records::host::purlthicket_dim(rec, out)
}
