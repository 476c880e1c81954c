// A job's own line, which a refusal of the job has as its place. No buffer holds it, so it is looked for in the bytes again: only a refusal pays for it.
#![tactic(auto)]

ghost use Rattle.std.specs.Prelude.{◌≡◌, ◌<◌};
ghost use Rattle.frame.specs.Lines.{job_width};
ghost use Rattle.own_line.specs.OwnLine.{own_line};

use frame::{LAYOUT_LINE, LONG_LINE, WINDOW_LINE};
use model::JobNumber;

// Where a layout's line has its 0A, and where that of a job without a window.
const LAYOUT_END: usize = LAYOUT_LINE - 1;

const LONG_END: usize = LONG_LINE - 1;

// How many bytes the line of a job has.
fn job_width(s: &[u8]) -> usize
    ensures { result ≡ job_width s.now }
{
    if frame::ends_after(s, LONG_END) {
        LONG_LINE
    } else {
        WINDOW_LINE
    }
}

// The line of a job that was read, counted from 1. All lines up to it are frames, so that where a line ends tells a layout from a job, and a job with a
// window from one without, and nothing is parsed.
pub fn line_of_job(bytes: &[u8], job: JobNumber) -> u16
    requires job_nonzero { 0 < own_line bytes.now job.0 }
    requires job_bound { own_line bytes.now job.0 < 65536 }
    ensures { result ≡ own_line bytes.now job.0 }
{
    let mut at = 0;
    let mut line = 1usize;
    let mut before = job.0;
    while at < bytes.len() {
        let left = &bytes[at..];
        if frame::ends_after(left, LAYOUT_END) {
            line += 1;
            at += LAYOUT_LINE;
        } else if before == 0 {
            return line as u16;
        } else {
            before -= 1;
            line += 1;
            at += job_width(left);
        }
    }
    0
}
