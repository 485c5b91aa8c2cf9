// What a step is made of, as far as code passes it by value. The definitions are in specs/.
#![tactic(auto)]

use refusals::Refusal;

// What a call reports: its refusal, the loop and the iteration that it performed, that its processor waits, or that it is finished.
#[derive(Clone, Copy)]
pub enum Report {
    Refused(Refusal),
    Performed { number: usize, index: usize },
    Waiting,
    Finished,
}
