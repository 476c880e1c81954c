// The schedule that the sweep goes by, in the work cells: what it has to know of a table, by place in the running order. It lies in parts of as many
// cells as there are places, numbered below; part k begins at k times the number of places.
#![tactic(auto)]

ghost use Rattle.std.specs.Prelude.{◌≡◌, ◌+◌, ◌*◌, ◌<◌, length, get_or, set};
ghost use Rattle.model.specs.Cells.{place_in, cell_of};
ghost use Rattle.model.specs.Jobs.{job_limit, window_limit};
ghost use Rattle.schedule.specs.InWork.{order_cell, job_in, window_in, to_part, mate_part, opener_part};

use model::{JobNumber, Rank, WindowNumber};

// The job at each place, and its window.
pub const ORDER: usize = 0;

// They share a cell, which has this much for each number of the window: no job number reaches it.
const WINDOW_STEP: u16 = JobNumber::LIMIT as u16;

// The slot at each place.
pub const SLOT: usize = 1;

// The span of slots that a lookup at each place asks for. It ends at 0 where a place asks nobody, and begins at FFFF then.
pub const FROM: usize = 2;

pub const TO: usize = 3;

// The places that can be found, in the order in which the sweep reaches them.
pub const REACHED: usize = 4;

// How many of these are reached at the turn of each place.
pub const DUE: usize = 5;

// The segment tree, with up to four times as many cells as there are places.
pub const NODES: usize = 6;

// What the sweep leaves in the place of what it has used: the mate of each place, and the places that open a pass.
pub const MATE: usize = FROM;

pub const OPENER: usize = DUE;

// A cell for each window, where its shelf begins, and one more, where the last ends.
pub const STARTS: usize = WindowNumber::LIMIT + 1;

// Work cells for the most jobs.
pub const WORK: usize = 8 * JobNumber::LIMIT;

// The job at a place.
pub fn job_at(work: &[u16], place: Rank) -> JobNumber
    requires { place.0 < length work.now }
    ensures { result.0 ≡ job_in work.now place.0 }
{
    let at = usize::from(place.0);
    JobNumber(work[at] % WINDOW_STEP)
}

// The window of the job at a place.
pub fn window_at(work: &[u16], place: Rank) -> WindowNumber
    requires place_in_bounds { place.0 < length work.now }
    requires place_bound { window_in work.now place.0 < window_limit }
    ensures { result.0 ≡ window_in work.now place.0 }
{
    let at = usize::from(place.0);
    WindowNumber((work[at] / WINDOW_STEP) as u8)
}

// Puts a job at its place, with its window.
pub fn set_job(work: &mut [u16], place: Rank, job: JobNumber, window: WindowNumber)
    requires place_in_bounds { place.0 < length work.old }
    requires job_lt_job_limit { job.0 < job_limit }
    requires window_lt_window_limit { window.0 < window_limit }
    ensures { work.new ≡ set work.old place.0 (order_cell job.0 window.0) }
{
    let at = usize::from(place.0);
    work[at] = job.0 + u16::from(window.0) * WINDOW_STEP;
}

// The place that a gap ahead of another leads to.
pub fn near_to(gaps: &[u8], place: Rank) -> Rank
    requires place_in_bounds { place.0 < length gaps.now }
    requires place_bound { place.0 + get_or gaps.now place.0 0 < 65536 }
    ensures { result.0 ≡ place.0 + get_or gaps.now place.0 0 }
{
    let at = usize::from(place.0);
    Rank(place.0 + u16::from(gaps[at]))
}

// A cell of a part.
fn cell_in<const PART: usize>(work: &[u16], count: usize, at: usize) -> u16
    requires { PART * count + at < length work.now }
    ensures { result ≡ get_or work.now (PART * count + at) 0 }
{
    work[PART * count + at]
}

// Writes a cell of a part.
fn set_cell<const PART: usize>(work: &mut [u16], count: usize, at: usize, cell: u16)
    requires { PART * count + at < length work.old }
    ensures { work.new ≡ set work.old (PART * count + at) cell }
{
    work[PART * count + at] = cell;
}

// The number that a part has at a place: its slot, where the span begins or ends that it asks for, how many places are reached at its turn.
pub fn number_in<const PART: usize>(work: &[u16], count: usize, place: Rank) -> usize
    requires { PART * count + place.0 < length work.now }
    ensures { result ≡ get_or work.now (PART * count + place.0) 0 }
{
    usize::from(cell_in::<PART>(work, count, usize::from(place.0)))
}

// The place that a part has behind `before` others: that is reached after so many, or opens the pass after so many.
pub fn place_in<const PART: usize>(work: &[u16], count: usize, before: usize) -> Rank
    requires { PART * count + before < length work.now }
    ensures { result.0 ≡ get_or work.now (PART * count + before) 0 }
{
    Rank(cell_in::<PART>(work, count, before))
}

// The mate of a place.
pub fn mate_at(work: &[u16], count: usize, place: Rank) -> Option<Rank>
    requires { mate_part * count + place.0 < length work.now }
    ensures { result ≡ place_in (get_or work.now (mate_part * count + place.0) 0) }
{
    Rank::in_cell(cell_in::<MATE>(work, count, usize::from(place.0)))
}

// Leaves the mate of a place.
pub fn set_mate(work: &mut [u16], count: usize, place: Rank, mate: Option<Rank>)
    requires { mate_part * count + place.0 < length work.old }
    ensures { work.new ≡ set work.old (mate_part * count + place.0) (cell_of mate) }
{
    set_cell::<MATE>(work, count, usize::from(place.0), Rank::cell_of(mate));
}

// Leaves the place that opens pass `pass`.
pub fn set_opener(work: &mut [u16], count: usize, pass: usize, place: Rank)
    requires { opener_part * count + pass < length work.old }
    ensures { work.new ≡ set work.old (opener_part * count + pass) place.0 }
{
    set_cell::<OPENER>(work, count, pass, place.0);
}

// A place that has been taken asks nobody.
pub fn end_asking(work: &mut [u16], count: usize, place: Rank)
    requires { to_part * count + place.0 < length work.old }
    ensures { work.new ≡ set work.old (to_part * count + place.0) 0 }
{
    set_cell::<TO>(work, count, usize::from(place.0), 0);
}
