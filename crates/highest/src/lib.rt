// What planning goes by in the place of a job's top and mark: its highest layout other than 0, and whether it asks nobody.
#![tactic(auto)]

ghost use Rattle.std.specs.Prelude.{◌≡◌, cond, not, ◌<◌, length, get_or, eqb};
ghost use Rattle.model.specs.Tree.{layout_limit};
ghost use Rattle.highest.specs.Columns.{unmarked, HighestSet};

use jobs::layout_at;
use model::{JobNumber, LayoutNumber};
use settle::SettledTree;

// Whether a job asks nobody: its mark is not 0.
pub fn asks_nobody(quiet: &[u8], job: JobNumber) -> bool
    requires { job.0 < length quiet.now }
    ensures { result ≡ not (unmarked quiet.now job.0) }
{
    quiet[usize::from(job.0)] != 0
}

// The highest layout other than 0 on a job's path: its top, or the branch of its bottom where the top is layout 0; 0 for a job 0-0.
fn highest_of(tree: &SettledTree, top: LayoutNumber, bottom: LayoutNumber) -> LayoutNumber
    requires { bottom.0 < layout_limit }
    ensures { result.0 ≡ cond (eqb top.0 0) (get_or tree.now.branches bottom.0 0) top.0 }
{
    let branch = tree.branch(bottom);
    if top == LayoutNumber(0) { branch } else { top }
}

// A mark for a job that asks nobody: its own, or 1 where it has no highest layout.
fn quiet_mark(mark: u8, highest: LayoutNumber) -> u8
    ensures { result ≡ cond (eqb highest.0 0) 1 mark }
{
    if highest == LayoutNumber(0) { 1 } else { mark }
}

// Puts a job's highest layout in the place of its top, and a mark at a job that asks nobody; answers the layout.
pub fn set_highest(
    tree: &SettledTree,
    tops: &mut [u16],
    marks: &mut [u8],
    job: JobNumber,
    bottom: LayoutNumber,
) -> LayoutNumber
    requires job_in_bounds { job.0 < length tops.old }
    requires marks_len { length marks.old ≡ length tops.old }
    requires bottom_lt_layout_limit { bottom.0 < layout_limit }
    ensures { HighestSet tree.now bottom.0 job.0 tops.old marks.old result.0 tops.new marks.new }
{
    let at = usize::from(job.0);
    let highest = highest_of(tree, layout_at(tops, job), bottom);
    let mark = quiet_mark(marks[at], highest);
    tops[at] = highest.0;
    marks[at] = mark;
    highest
}
