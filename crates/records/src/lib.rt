// Layer 3: the ideal record, the answer record, and the call from one to the other. Every call checks its own input and refuses by a numbered `Refusal`.
#![tactic(auto)]

pub mod answer;
mod bytes;
mod choice;
pub mod host;
pub mod ideal;
mod list;
mod rows;
