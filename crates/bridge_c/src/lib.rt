// The calls of `bridge` as C sees them: tests/bridge/bridge.h declares them, and each hands on to the call of the same name, whose clauses it states.
#![tactic(auto)]

pub mod coefficients;
pub mod dimension;
pub mod hilbert;
pub mod ideal;
pub mod mask;
pub mod monomial;
pub mod numerator;
