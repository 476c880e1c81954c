// The pass planner (document 01, *Plan*): a table's schedule, the sweep over it, and the passes handed back by job number.
#![tactic(auto)]

ghost use Rattle.std.specs.Prelude.{◌≡◌, ◌≤◌, ◌++◌, true, false, length, drop};
ghost use Rattle.model.specs.Verdict.{refused};
ghost use Rattle.model.specs.Jobs.{table_of, job_limit};
ghost use Rattle.model.specs.Planning.{jobs_verdict, plan_verdict};
ghost use Rattle.model.specs.Outcomes.{PlannedAs, PlanOutcome};
ghost use Rattle.tree_laws.specs.WellFormed.{Tree};
ghost use Rattle.settle.specs.Spanned.{Spanned};
ghost use Rattle.jobs.specs.Accepted.{Accepted, Lent};
ghost use Rattle.planner.specs.Columns.{table_in};
ghost use Rattle.planner.specs.Planned.{Room, Filled};

use jobs::JobColumns;
use model::{JobNumber, Reason, Refusal, Totals};
use schedule::WORK;
use settle::SettledTree;

// A table as it is lent, by its columns.
#[derive(Clone, Copy)]
struct Columns<'a> {
    parents: &'a [u16],
    tops: &'a [u16],
    bottoms: &'a [u16],
    marks: &'a [u8],
    windows: &'a [u8],
}

// Copies tops and marks to the first of other cells, which may be used up.
fn copy_columns(tops: &[u16], marks: &[u8], uppers: &mut [u16], quiet: &mut [u8])
    requires marks_len { length marks.now ≡ length tops.now }
    requires uppers_room { length tops.now ≤ length uppers.old }
    requires quiet_room { length tops.now ≤ length quiet.old }
    ensures uppers_after { uppers.new ≡ tops.now ++ drop (length tops.now) uppers.old }
    ensures quiet_after { quiet.new ≡ marks.now ++ drop (length tops.now) quiet.old }
{
    // `copy_from_slice` between two lent slices would call `memmove`, which an archive needs for nothing else.
    for j in 0..tops.len() {
        uppers[j] = tops[j];
    }
    quiet[..marks.len()].copy_from_slice(marks);
}

// Plans an accepted table into results of one cell for each job; the work cells end as 0. The uppers hold its tops at first, and the marks are used up.
fn plan_accepted(
    table: Columns,
    tree: &SettledTree,
    marks: &mut [u8],
    partners: &mut [u16],
    uppers: &mut [u16],
    printed: &mut [u16],
    work: &mut [u16],
) -> Totals
    requires accepted { Accepted (table_of table.parents.now uppers.old table.bottoms.now marks.old table.windows.now) }
    requires spanned { Spanned table.parents.now tree.now }
    requires room { Room (length uppers.old) partners.old printed.old work.old }
    ensures { Filled (table_of table.entry.parents.now uppers.old table.entry.bottoms.now marks.old table.entry.windows.now) result partners.new uppers.new printed.new work.new }
{
    let mut columns = JobColumns {
        tops: uppers,
        bottoms: table.bottoms,
        marks,
        windows: table.windows,
    };
    let totals = passes::make_passes(table.parents, tree, &mut columns, work);
    let count = usize::from(totals.pairs) + usize::from(totals.singles);
    hand_back::hand_back(
        table.parents,
        tree,
        table.bottoms,
        work,
        count,
        partners,
        columns.tops,
        printed,
    );
    work.fill(0);
    totals
}

// Plans a table whose layouts are right, once its jobs are found right.
fn plan_jobs(
    table: Columns,
    partners: &mut [u16],
    uppers: &mut [u16],
    printed: &mut [u16],
    work: &mut [u16],
) -> Result<Totals, Refusal>
    requires lent { Lent (table_in «table») (length partners.old) (length uppers.old) (length printed.old) (length work.old) }
    requires tops_len_bound { length table.tops.now ≤ job_limit }
    requires tree { Tree table.parents.now }
    ensures { PlannedAs (jobs_verdict (table_in table.entry)) (table_in table.entry) partners.old uppers.old printed.old work.old result partners.new uppers.new printed.new work.new }
{
    let mut tree = SettledTree::new();
    tree.settle(table.parents);
    jobs::check_jobs(
        &tree,
        table.parents.len(),
        table.tops,
        table.bottoms,
        table.windows,
    )
    .map_err(|wrong| Refusal {
        reason: wrong.reason,
        place: wrong.job.0,
    })?;
    let count = table.tops.len();
    let mut quiet = [0u8; JobNumber::LIMIT];
    copy_columns(table.tops, table.marks, uppers, &mut quiet);
    let totals = plan_accepted(
        table,
        &tree,
        &mut quiet[..count],
        &mut partners[..count],
        &mut uppers[..count],
        &mut printed[..count],
        &mut work[..WORK],
    );
    Ok(totals)
}

// Whether what is lent fits together and is long enough: columns of one length, results with a cell for each job, and the work cells.
fn is_enough(
    table: Columns,
    partners: &[u16],
    uppers: &[u16],
    printed: &[u16],
    work: &[u16],
) -> bool
    ensures enough { result ≡ true → Lent (table_in table.entry) (length partners.now) (length uppers.now) (length printed.now) (length work.now) }
    ensures short { result ≡ false → plan_verdict (table_in table.entry) (length partners.now) (length uppers.now) (length printed.now) (length work.now) ≡ refused 8 0 }
{
    let Columns {
        tops,
        bottoms,
        marks,
        windows,
        ..
    } = table;
    let count = tops.len();
    if bottoms.len() != count || marks.len() != count || windows.len() != count {
        return false;
    }
    if partners.len() < count
        || uppers.len() < count
        || printed.len() < count
        || work.len() < WORK
    {
        return false;
    }
    true
}

// Plans the passes of a table already read (document 01, *Plan*).
pub fn plan(
    parents: &[u16],
    tops: &[u16],
    bottoms: &[u16],
    marks: &[u8],
    windows: &[u8],
    partners: &mut [u16],
    uppers: &mut [u16],
    printed: &mut [u16],
    work: &mut [u16],
) -> Result<Totals, Refusal>
    ensures { PlanOutcome parents.now tops.now bottoms.now marks.now windows.now partners.old uppers.old printed.old work.old result partners.new uppers.new printed.new work.new }
{
    let table = Columns {
        parents,
        tops,
        bottoms,
        marks,
        windows,
    };
    if !is_enough(table, partners, uppers, printed, work) {
        return Err(Refusal {
            reason: Reason::WrongBuffers,
            place: 0,
        });
    }
    if JobNumber::LIMIT < tops.len() {
        return Err(Refusal {
            reason: Reason::TooMany,
            place: 0,
        });
    }
    settle::check_layouts(parents)?;
    plan_jobs(table, partners, uppers, printed, work)
}
