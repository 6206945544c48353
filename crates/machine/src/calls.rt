// The five calls, a file each. A give, a step, a poke and a show each have a form for a caller that knows its machine
// to be in its ranges and keeps it (`give_core`, `step_core`, `poke_word`, `show_word`): it is handed the sizes and, for
// a give and a step, one core, and looks at nothing else of the state. Where the caller is wrong and what a call would
// touch is not there, it is refused as out of range and touches nothing. The call on a whole machine is that one, behind
// a look at the machine's ranges.
pub(crate) mod give;
pub(crate) mod poke;
pub(crate) mod show;
pub(crate) mod start;
pub(crate) mod step;
