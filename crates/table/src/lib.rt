// *Read a table* (document 01, "What each operation turns away"): from bytes to parents, tops, bottoms, solo marks and windows.
#![tactic(auto)]

ghost use Rattle.std.specs.Prelude.{◌≡◌, not, length};
ghost use Rattle.model.specs.Verdict.{refuse_if};
ghost use Rattle.model.specs.Jobs.{Table};
ghost use Rattle.model.specs.Table.{read_table};
ghost use Rattle.model.specs.Outcomes.{ReadOutcome};
ghost use Rattle.jobs.specs.Checks.{check_verdict};
ghost use Rattle.buffers.specs.Lent.{SameBuffers};
ghost use Rattle.reading.specs.Steps.{judged_at_end};
ghost use Rattle.reading.specs.Lent.{ReadyFor, ReadInto};
ghost use Rattle.table.specs.Whole.{Placed, Told};
ghost use Rattle.table.specs.Lent.{LongBuffers, LinesInto, TableInto, sizes_verdict};

use buffers::TableBuffers;
use jobs::WrongJob;
use model::{Counts, JobNumber, LayoutNumber, Reason, Refusal};
use reading::Ended;
use settle::SettledTree;

// The answer for a table with a right end, once its jobs are checked: the first wrong one, at its own line, comes before what stands after the end.
fn answer(bytes: &[u8], ended: Ended, check: Result<(), WrongJob>) -> Result<Counts, Refusal>
    requires { Placed bytes.now «check» }
    ensures { (tb : Table) → length tb.parents ≡ ended.counts.layouts → length tb.tops ≡ ended.counts.jobs → Told (judged_at_end bytes.now tb ended.after (check_verdict «check»)) tb result }
{
    if let Err(wrong) = check {
        return Err(Refusal {
            reason: wrong.reason,
            place: own_line::line_of_job(bytes, wrong.job),
        });
    }
    match ended.after {
        Some(refusal) => Err(refusal),
        None => Ok(ended.counts),
    }
}

// Settles the layouts of a table that was read to a right end, and checks its jobs in their tree.
fn settle_and_check(
    bytes: &[u8],
    ended: Ended,
    buffers: &TableBuffers,
    tree: &mut SettledTree,
) -> Result<Counts, Refusal>
    requires { ReadInto bytes.now buffers.now (Ok ended) }
    ensures { LinesInto (read_table bytes.now) buffers.now tree.new result }
{
    let layouts = usize::from(ended.counts.layouts);
    let jobs = usize::from(ended.counts.jobs);
    tree.settle(&buffers.parents[..layouts]);
    let check = jobs::check_jobs(
        tree,
        layouts,
        &buffers.tops[..jobs],
        &buffers.bottoms[..jobs],
        &buffers.windows[..jobs],
    );
    answer(bytes, ended, check)
}

// Reads the lines into clear buffers, with room for every job that the bytes can hold within the limit, and hands the settled layouts on with the
// table, so that a caller who plans it need not settle them again. What a refusal leaves in buffers and tree is open.
pub fn read_lines(
    bytes: &[u8],
    buffers: &mut TableBuffers,
    tree: &mut SettledTree,
) -> Result<Counts, Refusal>
    requires { ReadyFor bytes.now buffers.old }
    ensures same { SameBuffers buffers.old buffers.new }
    ensures outcome { LinesInto (read_table bytes.now) buffers.new tree.new result }
{
    let ended = reading::read_unchecked(bytes, buffers)?;
    settle_and_check(bytes, ended, buffers, tree)
}

// Whether the buffers are as long as asked for.
#[tactic(auto, using(std::proofs::lemmas::Bool::Decides::nat_tests), unfolding(model::specs::Table::buffers_verdict))]
fn long_enough(buffers: &TableBuffers) -> bool
    ensures { sizes_verdict buffers.now ≡ refuse_if (not result) 8 0 }
{
    LayoutNumber::LIMIT <= buffers.parents.len()
        && JobNumber::LIMIT <= buffers.tops.len()
        && JobNumber::LIMIT <= buffers.bottoms.len()
        && JobNumber::LIMIT <= buffers.marks.len()
        && JobNumber::LIMIT <= buffers.windows.len()
}

// Reads a table into buffers that are long enough. After a refusal they are clear.
fn read_into(bytes: &[u8], buffers: &mut TableBuffers) -> Result<Counts, Refusal>
    requires { LongBuffers buffers.old }
    ensures same { SameBuffers buffers.old buffers.new }
    ensures read { TableInto (read_table bytes.now) buffers.old result buffers.new }
{
    let mut tree = SettledTree::new();
    buffers.clear();
    let answer = read_lines(bytes, buffers, &mut tree);
    if answer.is_err() {
        buffers.clear();
    }
    answer
}

// Reads a table: N and M with the table in the buffers, or a refusal. Refusal 8 leaves them as they were; after any other every number
// cell is FFFF and every mark and window 0, as unused cells are on success.
pub fn read_table(
    bytes: &[u8],
    parents: &mut [u16],
    tops: &mut [u16],
    bottoms: &mut [u16],
    marks: &mut [u8],
    windows: &mut [u8],
) -> Result<Counts, Refusal>
    ensures { ReadOutcome bytes.now parents.old tops.old bottoms.old marks.old windows.old result parents.new tops.new bottoms.new marks.new windows.new }
{
    let mut buffers = TableBuffers {
        parents,
        tops,
        bottoms,
        marks,
        windows,
    };
    if !long_enough(&buffers) {
        return Err(Refusal {
            reason: Reason::WrongBuffers,
            place: 0,
        });
    }
    read_into(bytes, &mut buffers)
}
