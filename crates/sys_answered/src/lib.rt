// What a step or a start answers.
#![tactic(auto)]

use answers::Answer;
use sys_system::System;

// Where a step is refused, the system is the one that came. A struct and no Result: the refusal hands the system back too.
#[derive(Clone, Copy)]
pub struct Answered {
    pub answer: Answer,
    pub system: System,
}
