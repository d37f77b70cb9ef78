// The calls over numbers and slices alone, for C and Rust: `bridge_c` exports them. Each returns the call's number, 0 where it is done, and
// writes `values` only then.
#![tactic(auto)]

pub mod coefficients;
pub mod dimension;
pub mod hilbert;
pub mod ideal;
pub mod mask;
pub mod monomial;
pub mod numerator;
mod told;
