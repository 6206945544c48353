#![tactic(auto)]
// One line of script: its grammar, its effect on a machine, and the text of its answer.
//
// A public call takes any input. Its contract is an equation to a definition of specs/, which says
// what it answers and leaves, a refusal too.
mod bytes;
mod decimal;
mod effect;
mod grammar;
mod text;
mod turns;
mod words;

pub use effect::{Session, no_machine, set_up};
pub use grammar::{Command, Numbers, SHORT_STEP, read_line, short_step};
pub use text::{LineNumber, answer_line, counted_on, line_number, refused_line};
pub use turns::{Did, act, one_core_of};
pub use words::number_word;
