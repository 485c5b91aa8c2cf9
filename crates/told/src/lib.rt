// What a call tells: its answer's four numbers and, of a step, its report's three, in what it is lent.
#![tactic(auto)]

ghost use Rattle.std.specs.Prelude.{◌≡◌};
ghost use Rattle.told.specs.Answers.{answered, reported, ReportFits};
ghost use Rattle.told.specs.Results.{error_of, number_of, refused_in};

use refusals::Refusal;
use stepping::Report;

// An answer is the ground's number, the place, and the two numbers that are named; 0 four times where nothing is refused.
pub fn write_answer<T: Copy>(answer: &mut [u64; 4], r: Result<T, Refusal>)
    ensures { answer.new ≡ answered (error_of r) answer.old }
{
    *answer = match r {
        Ok(_) => [0; 4],
        Err(r) => [
            r.ground as u64,
            r.place as u64,
            r.first as u64,
            r.second as u64,
        ],
    };
}

// The answer of a call that gives a number, as how many bytes it wrote; the result is that number, 0 where it is refused.
pub fn tell_outcome(answer: &mut [u64; 4], r: Result<usize, Refusal>) -> u64
    ensures answer_after { answer.new ≡ answered (error_of r) answer.old }
    ensures value { result ≡ number_of r }
{
    write_answer(answer, r);
    r.unwrap_or(0) as u64
}

// What a call reports: 1, a loop and an iteration; 2 where its processor waits; 3 where it is finished. A refused call leaves it as found, and 0 is
// never written, so that a report which was zeroed says no iteration.
#[tactic(auto, unfolding(crate::specs::Answers::reported, crate::specs::Answers::ReportFits))]
pub fn tell_report(report: &mut [u32; 3], r: Report)
    requires { ReportFits r }
    ensures { report.new ≡ reported r report.old }
{
    match r {
        Report::Refused(_) => {}
        Report::Performed { number, index } => *report = [1, number as u32, index as u32],
        Report::Waiting => *report = [2, 0, 0],
        Report::Finished => *report = [3, 0, 0],
    }
}

// What is refused by a call that reports this.
pub fn refusal_in(r: Report) -> Result<(), Refusal>
    ensures { result ≡ refused_in r }
{
    match r {
        Report::Refused(x) => Err(x),
        _ => Ok(()),
    }
}
