// The jobs of a table: their tops, bottoms and windows, and whether they can be planned (document 01, "What each operation turns away", refusals 5, 6 and 9).
#![tactic(auto)]

ghost use Rattle.std.specs.Prelude.{◌<◌, ◌≤◌, ◌≡◌, length, get_or};
ghost use Rattle.model.specs.Tree.{layout_limit};
ghost use Rattle.model.specs.Jobs.{job_limit};
ghost use Rattle.jobs.specs.Checks.{JobChecked, JobsChecked};

use model::{JobNumber, LayoutNumber, Reason, WindowNumber};
use settle::SettledTree;

// The columns of a table's jobs, by number. Planning uses tops and marks up.
#[derive(Drop)]
pub struct JobColumns<'a, 'b> {
    pub tops: &'a mut [u16],
    pub bottoms: &'b [u16],
    pub marks: &'a mut [u8],
    pub windows: &'b [u8],
}

// The layout that a column of tops, of bottoms or of highest layouts has for a job.
pub fn layout_at(column: &[u16], job: JobNumber) -> LayoutNumber
    requires { job.0 < length column.now }
    ensures { result.0 ≡ get_or column.now job.0 0 }
{
    LayoutNumber(column[usize::from(job.0)])
}

// The window of a job.
pub fn window_of(windows: &[u8], job: JobNumber) -> WindowNumber
    requires { job.0 < length windows.now }
    ensures { result.0 ≡ get_or windows.now job.0 0 }
{
    WindowNumber(windows[usize::from(job.0)])
}

// The smallest job that is wrong, and the reason of its refusal.
#[derive(Clone, Copy, PartialEq, Eq)]
pub struct WrongJob {
    pub reason: Reason,
    pub job: JobNumber,
}

// Checks one job: refusal 5, a top or bottom that is no layout; 6, a bottom not at or below its top; 9, a window above 15.
fn check_job(
    tree: &SettledTree,
    layouts: usize,
    top: LayoutNumber,
    bottom: LayoutNumber,
    window: WindowNumber,
) -> Result<(), Reason>
    requires { layouts ≤ layout_limit }
    ensures { JobChecked layouts top.0 bottom.0 window.0 tree.now result }
{
    if !top.is_among(layouts) || !bottom.is_among(layouts) {
        return Err(Reason::UnknownLayout);
    }
    if !tree.is_ancestor(top, bottom) {
        return Err(Reason::NotBelow);
    }
    if !window.is_known() {
        return Err(Reason::UnknownWindow);
    }
    Ok(())
}

// Checks the jobs by number, the smallest first.
pub fn check_jobs(
    tree: &SettledTree,
    layouts: usize,
    tops: &[u16],
    bottoms: &[u16],
    windows: &[u8],
) -> Result<(), WrongJob>
    requires layouts_le_layout_limit { layouts ≤ layout_limit }
    requires tops_len_bound { length tops.now ≤ job_limit }
    requires bottoms_len { length bottoms.now ≡ length tops.now }
    requires windows_len { length windows.now ≡ length tops.now }
    ensures { JobsChecked layouts tops.now bottoms.now windows.now tree.now result }
{
    for j in 0..tops.len() {
        let job = JobNumber(j as u16);
        let top = layout_at(tops, job);
        let bottom = layout_at(bottoms, job);
        let window = window_of(windows, job);
        if let Err(reason) = check_job(tree, layouts, top, bottom, window) {
            return Err(WrongJob { reason, job });
        }
    }
    Ok(())
}
