// Layer 2: two-word numbers, coefficient lists, the numerator and its update, the Hilbert function and the dimension.
#![tactic(auto)]

mod asked;
mod branch;
pub mod coefficients;
mod columns;
pub mod dimension;
mod engine;
mod extent;
mod few;
pub mod hf_at;
mod hints;
mod leaf;
mod masks;
mod minimal;
mod narrow;
pub mod numerator;
mod parts;
mod pivot;
mod powers;
mod quotients;
mod rows;
pub mod signed;
pub mod update;
pub mod wide;
