// Layer 1: monomials, their two orders and divisibility masks. Every call checks its own input and refuses by a numbered `Refusal`.
#![tactic(auto)]

mod cells;
pub mod divmask;
pub mod monomial;
pub mod refusal;
