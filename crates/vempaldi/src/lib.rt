// The exported functions: thin, with plain numbers and slices. None requires anything: what it cannot take it refuses.
#![tactic(auto)]

ghost use Rattle.std.specs.Prelude.{◌≡◌, length};
ghost use Rattle.refusals.specs.Answers.{refusal_of};
ghost use Rattle.serial.specs.Serial.{table as accepts};
ghost use Rattle.outputs.specs.Given.{final, count_of};
ghost use Rattle.joins.specs.Joining.{joining};
ghost use Rattle.facts.specs.Facts.{facts_given};
ghost use Rattle.entries.specs.Entries.{amounts, thresholds, sweeps_given, blocks_given, fused_given, peeled_given, fused_ranges_given, peeled_ranges_given};
ghost use Rattle.plans.specs.Plans.{planned};
ghost use Rattle.plans.specs.Checking.{threshold_in};
ghost use Rattle.printing.specs.Printing.{listing_given};
ghost use Rattle.plain.specs.Plain.{plain_answer, plain_memory};
ghost use Rattle.stepping.specs.Step.{step};
ghost use Rattle.stepping.specs.Run.{run_answer, run_memory, run_idle};
ghost use Rattle.told.specs.Answers.{answered, reported, refusal_in, report_at};
ghost use Rattle.vempaldi.specs.Version.{version};

use plans::Settings;
use steps::Counts;
use told::{refusal_in, tell_outcome, tell_report, write_answer};

// The version: 10,000 times the first of its numbers, 100 times the second, and the third.
const VERSION: u32 = 500;

#[unsafe(no_mangle)]
pub extern "C" fn vempaldi_version() -> u32
    ensures { result ≡ version }
{
    VERSION
}

// Whether a table is accepted, or the refusal.
#[unsafe(no_mangle)]
pub extern "C" fn vempaldi_check(table: &[u8], answer: &mut [u64; 4])
    ensures { answer.new ≡ answered (refusal_of (accepts table.now)) answer.old }
{
    write_answer(answer, serial::check(table));
}

// Joins two tables into the lent bytes; answers how many bytes were written, 0 where it refuses.
#[unsafe(no_mangle)]
pub extern "C" fn vempaldi_join(
    left: &[u8],
    right: &[u8],
    out: &mut [u8],
    answer: &mut [u64; 4],
) -> u64
    ensures answer_after { answer.new ≡ answered (refusal_of (joining left.now right.now (length out.old))) answer.old }
    ensures value { result ≡ count_of (joining left.now right.now (length out.old)) }
    ensures out_after { out.new ≡ final (joining left.now right.now (length out.old)) out.old }
{
    tell_outcome(answer, joining::join(left, right, out))
}

// Facts of a table, four bytes each; answers how many bytes were written, 0 where it refuses.
#[unsafe(no_mangle)]
pub extern "C" fn vempaldi_facts(table: &[u8], out: &mut [u8], answer: &mut [u64; 4]) -> u64
    ensures answer_after { answer.new ≡ answered (refusal_of (facts_given table.now (length out.old))) answer.old }
    ensures value { result ≡ count_of (facts_given table.now (length out.old)) }
    ensures out_after { out.new ≡ final (facts_given table.now (length out.old)) out.old }
{
    tell_outcome(answer, facts::facts(table, out))
}

// Shift and peel of each loop, four bytes each; answers how many bytes were written, 0 where it refuses.
#[unsafe(no_mangle)]
pub extern "C" fn vempaldi_shifts_and_peels(
    table: &[u8],
    out: &mut [u8],
    answer: &mut [u64; 4],
) -> u64
    ensures answer_after { answer.new ≡ answered (refusal_of (amounts table.now (length out.old))) answer.old }
    ensures value { result ≡ count_of (amounts table.now (length out.old)) }
    ensures out_after { out.new ≡ final (amounts table.now (length out.old)) out.old }
{
    tell_outcome(answer, entries::shifts_and_peels(table, out))
}

// The listing of a plan; answers how many bytes were written, 0 where it refuses.
#[unsafe(no_mangle)]
pub extern "C" fn vempaldi_listing(
    table: &[u8],
    settings: Settings,
    out: &mut [u8],
    answer: &mut [u64; 4],
) -> u64
    ensures answer_after { answer.new ≡ answered (refusal_of (listing_given table.now settings (length out.old))) answer.old }
    ensures value { result ≡ count_of (listing_given table.now settings (length out.old)) }
    ensures out_after { out.new ≡ final (listing_given table.now settings (length out.old)) out.old }
{
    tell_outcome(answer, printing::print_listing(table, settings, out))
}

// The threshold, four bytes; answers how many bytes were written, 0 where it refuses.
#[unsafe(no_mangle)]
pub extern "C" fn vempaldi_threshold(table: &[u8], out: &mut [u8], answer: &mut [u64; 4]) -> u64
    ensures answer_after { answer.new ≡ answered (refusal_of (thresholds table.now (length out.old))) answer.old }
    ensures value { result ≡ count_of (thresholds table.now (length out.old)) }
    ensures out_after { out.new ≡ final (thresholds table.now (length out.old)) out.old }
{
    tell_outcome(answer, entries::threshold(table, out))
}

// Whether a plan is accepted, the one by hand or the table's own, or the refusal; answers its threshold, 0 where it refuses.
#[unsafe(no_mangle)]
pub extern "C" fn vempaldi_check_plan(
    table: &[u8],
    settings: Settings,
    answer: &mut [u64; 4],
) -> u64
    ensures answer_after { answer.new ≡ answered (refusal_of (planned table.now settings)) answer.old }
    ensures value { result ≡ threshold_in (planned table.now settings) }
{
    tell_outcome(answer, plans::check_plan(table, settings))
}

// Sweeps before and after fusion, four bytes each; answers how many bytes were written, 0 where it refuses.
#[unsafe(no_mangle)]
pub extern "C" fn vempaldi_sweeps(table: &[u8], out: &mut [u8], answer: &mut [u64; 4]) -> u64
    ensures answer_after { answer.new ≡ answered (refusal_of (sweeps_given table.now (length out.old))) answer.old }
    ensures value { result ≡ count_of (sweeps_given table.now (length out.old)) }
    ensures out_after { out.new ≡ final (sweeps_given table.now (length out.old)) out.old }
{
    tell_outcome(answer, entries::sweeps(table, out))
}

// First and last index of each block, four bytes each; answers how many bytes were written, 0 where it refuses.
#[unsafe(no_mangle)]
pub extern "C" fn vempaldi_blocks(
    table: &[u8],
    settings: Settings,
    out: &mut [u8],
    answer: &mut [u64; 4],
) -> u64
    ensures answer_after { answer.new ≡ answered (refusal_of (blocks_given table.now settings (length out.old))) answer.old }
    ensures value { result ≡ count_of (blocks_given table.now settings (length out.old)) }
    ensures out_after { out.new ≡ final (blocks_given table.now settings (length out.old)) out.old }
{
    tell_outcome(answer, entries::blocks(table, settings, out))
}

// Loop and iteration of each in a processor's fused list, four bytes each; answers how many bytes were written, 0 where it refuses.
#[unsafe(no_mangle)]
pub extern "C" fn vempaldi_fused_list(
    table: &[u8],
    settings: Settings,
    processor: u32,
    out: &mut [u8],
    answer: &mut [u64; 4],
) -> u64
    ensures answer_after { answer.new ≡ answered (refusal_of (fused_given table.now settings processor (length out.old))) answer.old }
    ensures value { result ≡ count_of (fused_given table.now settings processor (length out.old)) }
    ensures out_after { out.new ≡ final (fused_given table.now settings processor (length out.old)) out.old }
{
    tell_outcome(answer, entries::list(table, 0, settings, processor, out))
}

// Loop and iteration of each in a processor's peeled list, four bytes each; answers how many bytes were written, 0 where it refuses.
#[unsafe(no_mangle)]
pub extern "C" fn vempaldi_peeled_list(
    table: &[u8],
    settings: Settings,
    processor: u32,
    out: &mut [u8],
    answer: &mut [u64; 4],
) -> u64
    ensures answer_after { answer.new ≡ answered (refusal_of (peeled_given table.now settings processor (length out.old))) answer.old }
    ensures value { result ≡ count_of (peeled_given table.now settings processor (length out.old)) }
    ensures out_after { out.new ≡ final (peeled_given table.now settings processor (length out.old)) out.old }
{
    tell_outcome(answer, entries::list(table, 1, settings, processor, out))
}

// Of each loop the range that a processor runs before the barrier, four bytes each number; answers how many bytes were written, 0 where it refuses.
#[unsafe(no_mangle)]
pub extern "C" fn vempaldi_fused_ranges(
    table: &[u8],
    settings: Settings,
    processor: u32,
    out: &mut [u8],
    answer: &mut [u64; 4],
) -> u64
    ensures answer_after { answer.new ≡ answered (refusal_of (fused_ranges_given table.now settings processor (length out.old))) answer.old }
    ensures value { result ≡ count_of (fused_ranges_given table.now settings processor (length out.old)) }
    ensures out_after { out.new ≡ final (fused_ranges_given table.now settings processor (length out.old)) out.old }
{
    tell_outcome(answer, entries::ranges(table, 0, settings, processor, out))
}

// And past it.
#[unsafe(no_mangle)]
pub extern "C" fn vempaldi_peeled_ranges(
    table: &[u8],
    settings: Settings,
    processor: u32,
    out: &mut [u8],
    answer: &mut [u64; 4],
) -> u64
    ensures answer_after { answer.new ≡ answered (refusal_of (peeled_ranges_given table.now settings processor (length out.old))) answer.old }
    ensures value { result ≡ count_of (peeled_ranges_given table.now settings processor (length out.old)) }
    ensures out_after { out.new ≡ final (peeled_ranges_given table.now settings processor (length out.old)) out.old }
{
    tell_outcome(answer, entries::ranges(table, 1, settings, processor, out))
}

// The plain run of a table in the lent memory. A refused run leaves the memory as found.
#[unsafe(no_mangle)]
pub extern "C" fn vempaldi_plain_run(table: &[u8], memory: &mut [f64], answer: &mut [u64; 4])
    ensures answer_after { answer.new ≡ answered (refusal_of (plain_answer table.now (length memory.old))) answer.old }
    ensures memory_after { memory.new ≡ plain_memory table.now memory.old }
{
    write_answer(answer, plain::plain_run(table, memory));
}

// One step of a processor: the counts and the memory are as the step before left them, first all counts 0.
#[unsafe(no_mangle)]
pub extern "C" fn vempaldi_step(
    table: &[u8],
    settings: Settings,
    processor: u32,
    counts: &mut [u32; 64],
    memory: &mut [f64],
    report: &mut [u32; 3],
    answer: &mut [u64; 4],
)
    ensures counts_after { counts.new ≡ (step table.now settings processor counts.old memory.old).counts }
    ensures memory_after { memory.new ≡ (step table.now settings processor counts.old memory.old).memory }
    ensures report_after { report.new ≡ reported (report_at table.now settings processor counts.old memory.old) report.old }
    ensures answer_after { answer.new ≡ answered (refusal_in (report_at table.now settings processor counts.old memory.old)) answer.old }
{
    let done = *counts;
    let stepped = Counts { done }.step(table, settings, processor, memory);
    let left = stepped.counts.done;
    *counts = left;
    tell_report(report, stepped.report);
    write_answer(answer, refusal_in(stepped.report));
}

// A run in a caller's order, whose bytes name processors; answers how many of its calls were idle. A refused run leaves the memory as found.
#[unsafe(no_mangle)]
pub extern "C" fn vempaldi_run(
    table: &[u8],
    settings: Settings,
    order: &[u8],
    memory: &mut [f64],
    answer: &mut [u64; 4],
) -> u64
    ensures answer_after { answer.new ≡ answered (refusal_of (run_answer table.now settings (length memory.old))) answer.old }
    ensures memory_after { memory.new ≡ run_memory table.now settings order.now memory.old }
    ensures value { result ≡ run_idle table.now settings order.now memory.old }
{
    tell_outcome(answer, running::run(table, settings, order, memory))
}
