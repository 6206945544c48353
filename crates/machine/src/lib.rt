#![tactic(auto)]
// The memory engine: a machine of 1 to 8 guest cores, stepped one micro-step of one core at a time.
//
// A public call takes any input. Its contract is an equation to a definition of the crate `rules`,
// specs/Calls.antt, which says what it answers, hands out and leaves, a refusal too. The specs/ of this
// crate have no rule, only what its contracts need beside the rules.
mod address;
mod calls;
mod ranges;
mod sizes;

pub use calls::give::{give, give_core, give_in_place};
pub use calls::poke::{poke, poke_word};
pub use calls::show::{show, show_word};
pub use calls::start::start;
pub use calls::step::{Stepped, step, step_core, step_in_place};
pub use rules::{
    Answer, Called, Core, Delivered, GuestAddress, Kind, Machine, MicroStep, Operation, Record,
    Refusal, number_of,
};
pub use sizes::Sizes;
