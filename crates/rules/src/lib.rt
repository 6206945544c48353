#![tactic(auto)]
// The rules of the memory engine: what is asked, answered and handed out, the state that the rules speak of,
// and the micro-steps of one core.
//
// specs/ has the rules themselves, a page for each part of docs/RULES.md, whose sentences are cited by number
// (RULES 4.6), and proofs/ what follows from them alone: their laws, and what holds in every run. A public
// function takes any input, and its contract is an equation to a definition of specs/.
mod answers;
mod bytes;
mod cores;
mod entry;
mod kinds;
mod operations;
mod refusals;
mod state;

pub use answers::{Answer, Delivered, Record};
pub use bytes::{four_bytes, read_four, read_two, read_word, two_bytes, write_word};
pub use cores::{Core, MicroStep};
pub use entry::{EntryNumber, GuestAddress, entry_of};
pub use kinds::Kind;
pub use operations::{Locking, Operation, Shape};
pub use refusals::{Refusal, number_of};
pub use state::{Called, Machine};
