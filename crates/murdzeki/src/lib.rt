// The library for C (include/murdzeki.h): the exported functions, each with the contract of its operation.
#![tactic(auto)]

ghost use Rattle.model.specs.Outcomes.{RunOutcome, GroupRunOutcome};

use model::LaneCount;

// *Whole run*.
#[unsafe(no_mangle)]
pub extern "C" fn murdzeki_plan(input: &[u8], output: &mut [u8]) -> usize
    ensures { RunOutcome input.now output.old result output.new }
{
    run::whole_run(input, output)
}

// The second whole run, for a press with so many lanes.
#[unsafe(no_mangle)]
pub extern "C" fn murdzeki_group(input: &[u8], output: &mut [u8], lanes: usize) -> usize
    ensures { GroupRunOutcome lanes input.now output.old result output.new }
{
    run::group_run(input, output, LaneCount(lanes))
}
