// The mask of a monomial.
ghost use Rattle.std.specs.Prelude.{◌≡◌};
ghost use Rattle.monomials.specs.Mask.{mask_answer};
ghost use Rattle.bridge.specs.Told.{number_in, values_in};
ghost use Rattle.bridge.specs.Monomials.{of_mask};

use crate::told::tell;
use monomials::refusal::MAX_WIDTH;

// The low word and the high word of the mask.
pub fn pt_mask(n: u64, max_deg: u16, exps: &[u16], values: &mut [u64; 4]) -> u8
    ensures value { result ≡ number_in (of_mask (mask_answer MAX_WIDTH n max_deg exps.now)) }
    ensures values_after { values.new ≡ values_in (of_mask (mask_answer MAX_WIDTH n max_deg exps.now)) values.old }
{
    tell(monomials::divmask::mask(n as usize, max_deg, exps), values)
}
