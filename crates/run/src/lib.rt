// *Whole run* (document 01, "What each operation turns away"), from a table's bytes to the bytes of its plan, and the second one beside it, for a press with more lanes
// (document 02, 2026-07).
#![tactic(auto)]

mod print;

ghost use Rattle.std.specs.Prelude.{◌≡◌, true, ◌<◌, replicate};
ghost use Rattle.model.specs.Answers.{reason_number};
ghost use Rattle.model.specs.Tree.{FFFF};
ghost use Rattle.model.specs.Jobs.{Table};
ghost use Rattle.model.specs.Table.{read, read_table};
ghost use Rattle.model.specs.Output.{plan_bytes, refusal_bytes, group_reading_bytes};
ghost use Rattle.model.specs.Outcomes.{RunOutcome, GroupRunOutcome};
ghost use Rattle.settle.specs.Spanned.{Spanned};
ghost use Rattle.jobs.specs.Accepted.{Accepted};
ghost use Rattle.jobs.specs.Columns.{table_with, jobs_in, SameColumns};
ghost use Rattle.reading.specs.Steps.{BuffersReady};
ghost use Rattle.table.specs.Whole.{LinesOutcome};
ghost use Rattle.lines.specs.Writing.{Printed};
ghost use Rattle.passes.specs.Making.{Roomy};
ghost use Rattle.groups.specs.GroupPlan.{GroupsMade};
ghost use Rattle.run.specs.Whole.{ArraysFor, press_known, press_bytes, Told};
ghost use Rattle.run.specs.Presses.{PressOutcome};

use buffers::TableBuffers;
use jobs::JobColumns;
use lines::Writer;
use model::{Counts, JobNumber, LaneCount, LayoutNumber, Reason, Refusal};
use settle::SettledTree;

// Bytes of output that the whole run needs.
pub const OUTPUT: usize = 40960;

// A table of few bytes is run in arrays for few jobs, so that little memory is touched: FEW jobs take FEW_BYTES bytes, so a table that has no more bytes has no
// more jobs.
const FEW: usize = 128;

const FEW_BYTES: usize = FEW * frame::LONG_LINE;

const FEW_WORK: usize = 8 * FEW;

const SOME: usize = 1024;

const SOME_BYTES: usize = SOME * frame::LONG_LINE;

const SOME_WORK: usize = 8 * SOME;

// The press that a run is for: one with two lanes, which runs a job alone where it has no partner, or one that takes full passes alone.
#[derive(Clone, Copy)]
enum Press {
    TwoLanes,
    FullPasses(LaneCount),
}

impl Press {
    // Whether there are such presses.
    fn is_known(self) -> bool
        ensures { result ≡ press_known self }
    {
        match self {
            Press::TwoLanes => true,
            Press::FullPasses(lanes) => lanes.is_known(),
        }
    }
}

// A press that there is.
#[derive(Clone, Copy)]
struct KnownPress {
    press: Press,
    ghost known: { press_known press ≡ true },
}

// Prints a refusal.
fn print_refusal(output: &mut [u8; OUTPUT], refusal: Refusal) -> usize
    ensures { Printed (refusal_bytes (reason_number refusal.reason) refusal.place) output.old result output.new }
{
    let mut writer = Writer::new(output);
    writer.put_refusal(refusal.reason.number(), refusal.place);
    writer.finish()
}

// Plans a table that was read and settled, and prints the plan. The tops and marks are used up: making the passes puts the highest layouts in the place of the tops.
fn print_table(
    parents: &[u16],
    tree: &SettledTree,
    columns: &mut JobColumns,
    work: &mut [u16],
    output: &mut [u8; OUTPUT],
) -> usize
    requires accepted { Accepted (table_with parents.now columns.old) }
    requires spanned { Spanned parents.now tree.now }
    requires roomy { Roomy (jobs_in columns.old) work.old }
    ensures same_columns { SameColumns columns.old columns.new }
    ensures printed { Printed (plan_bytes (table_with parents.now columns.old)) output.old result output.new }
{
    let totals = passes::make_passes(parents, tree, columns, work);
    let bottoms = columns.bottoms;
    print::print_plan(parents, tree, columns.tops, bottoms, work, totals, output)
}

// Prints the groups of a table that was read and settled, or turns it away where one of them is not full.
fn print_grouping(
    parents: &[u16],
    tree: &SettledTree,
    bottoms: &[u16],
    work: &[u16],
    members: &[u16],
    lanes: LaneCount,
    groups: Option<usize>,
    output: &mut [u8; OUTPUT],
) -> Result<usize, Refusal>
    requires groups_made { (tb : Table) × GroupsMade tb lanes.0 parents.now tree.now bottoms.now «groups» members.now work.now }
    ensures { (tb : Table) → GroupsMade tb lanes.0 parents.now tree.now bottoms.now «groups» members.now work.now → Told (group_reading_bytes lanes.0 (read tb)) output.old output.new result }
{
    let Some(groups) = groups else {
        return Err(Refusal {
            reason: Reason::NoFullGrouping,
            place: 0,
        });
    };
    Ok(group_lines::print_groups(parents, tree, bottoms, work, members, lanes, groups, output))
}

// Reads a table into clear arrays, and settles its layouts.
fn read_into(
    input: &[u8],
    parents: &mut [u16],
    tops: &mut [u16],
    bottoms: &mut [u16],
    marks: &mut [u8],
    windows: &mut [u8],
    tree: &mut SettledTree,
) -> Result<Counts, Refusal>
    requires { BuffersReady input.now parents.old tops.old bottoms.old marks.old windows.old }
    ensures { LinesOutcome (read_table input.now) parents.new tops.new bottoms.new marks.new windows.new tree.new result }
{
    let mut buffers = TableBuffers {
        parents,
        tops,
        bottoms,
        marks,
        windows,
    };
    table::read_lines(input, &mut buffers, tree)
}

// A run in lent arrays that have room for the jobs of the input. For a press that takes full passes alone the places of the groups stand in the place of the tops.
fn run_in(
    input: &[u8],
    output: &mut [u8; OUTPUT],
    tops: &mut [u16],
    bottoms: &mut [u16],
    marks: &mut [u8],
    windows: &mut [u8],
    work: &mut [u16],
    press: KnownPress,
) -> Result<usize, Refusal>
    requires arrays_for { ArraysFor input.now tops.old bottoms.old marks.old windows.old work.old }
    ensures { Told (press_bytes «press».press (read_table input.now)) output.old output.new result }
{
    let mut parents = [model::ABSENT; LayoutNumber::LIMIT];
    let mut tree = SettledTree::new();
    let counts = read_into(
        input,
        &mut parents,
        tops,
        bottoms,
        marks,
        windows,
        &mut tree,
    )?;
    let jobs = usize::from(counts.jobs);
    let parents = &parents[..usize::from(counts.layouts)];
    let tops = &mut tops[..jobs];
    let bottoms = &bottoms[..jobs];
    let marks = &mut marks[..jobs];
    let windows = &windows[..jobs];
    let mut columns = JobColumns {
        tops,
        bottoms,
        marks,
        windows,
    };
    match press.press {
        Press::TwoLanes => Ok(print_table(parents, &tree, &mut columns, work, output)),
        Press::FullPasses(lanes) => {
            let groups = groups::make_groups(parents, &tree, &mut columns, work, lanes);
            print_grouping(
                parents,
                &tree,
                bottoms,
                work,
                columns.tops,
                lanes,
                groups,
                output,
            )
        }
    }
}

// The run in arrays for so many jobs.
fn run_with<const JOBS: usize, const WORK: usize>(
    input: &[u8],
    output: &mut [u8; OUTPUT],
    press: KnownPress,
) -> Result<usize, Refusal>
    requires jobs_bound { JOBS < 65536 }
    requires work_bound { WORK < 65536 }
    requires arrays_for { ArraysFor input.now (replicate JOBS FFFF) (replicate JOBS FFFF) (replicate JOBS 0) (replicate JOBS 0) (replicate WORK 0) }
    ensures { Told (press_bytes «press».press (read_table input.now)) output.old output.new result }
{
    let mut tops = [model::ABSENT; JOBS];
    let mut bottoms = [model::ABSENT; JOBS];
    let mut marks = [0; JOBS];
    let mut windows = [0; JOBS];
    let mut work = [0; WORK];
    run_in(
        input,
        output,
        &mut tops,
        &mut bottoms,
        &mut marks,
        &mut windows,
        &mut work,
        press,
    )
}

// The run in arrays by the size of the input. It stays a function of its own, so that what is refused before it takes no arrays on the stack.
#[inline(never)]
fn run_sized(input: &[u8], output: &mut [u8; OUTPUT], press: KnownPress) -> Result<usize, Refusal>
    ensures { Told (press_bytes «press».press (read_table input.now)) output.old output.new result }
{
    if input.len() <= FEW_BYTES {
        return run_with::<FEW, FEW_WORK>(input, output, press);
    }
    if input.len() <= SOME_BYTES {
        return run_with::<SOME, SOME_WORK>(input, output, press);
    }
    run_with::<{ JobNumber::LIMIT }, { schedule::WORK }>(input, output, press)
}

// The run for a press: 8 and 13, and then what the table comes to.
fn run_for(input: &[u8], output: &mut [u8], press: Press) -> usize
    ensures { PressOutcome input.now output.old result output.new «press» }
{
    let Some((front, rest)) = output.split_first_chunk_mut::<OUTPUT>() else {
        return 0;
    };
    rest.fill(0);
    if !press.is_known() {
        return print_refusal(
            front,
            Refusal {
                reason: Reason::UnknownPress,
                place: 0,
            },
        );
    }
    match run_sized(input, front, KnownPress { press }) {
        Ok(length) => length,
        Err(refusal) => print_refusal(front, refusal),
    }
}

// Reads a table's bytes, plans its passes and prints the plan, or the refusal; the answer is how many bytes were printed. Output below
// 40,960 bytes is refusal 8: the answer is 0, and nothing is written.
pub fn whole_run(input: &[u8], output: &mut [u8]) -> usize
    ensures { RunOutcome input.now output.old result output.new }
{
    run_for(input, output, Press::TwoLanes)
}

// The same for a press with so many lanes that takes full passes alone: the jobs in groups, or the refusal, which is 13 where there is no such press and 14 where no
// full grouping exists.
pub fn group_run(input: &[u8], output: &mut [u8], lanes: LaneCount) -> usize
    ensures { GroupRunOutcome lanes.0 input.now output.old result output.new }
{
    run_for(input, output, Press::FullPasses(lanes))
}
