// Reads the lines into the buffers, in one pass. The jobs are not checked here: 5 and 6 need the whole tree, which is known at the end.
#![tactic(auto)]

ghost use Rattle.std.specs.Prelude.{◌≡◌, false, ◌+◌, ◌<◌, ◌≤◌, length, leb};
ghost use Rattle.model.specs.Jobs.{job_limit};
ghost use Rattle.model.specs.Table.{layout_frame, end_frame, beyond_windows};
ghost use Rattle.model.specs.Answers.{frame_case, reason_number};
ghost use Rattle.reading.specs.Steps.{Counted, ended_at, FrameJudged, JobJudged, LineJudged, Stopped};
ghost use Rattle.buffers.specs.Lent.{SameBuffers};
ghost use Rattle.reading.specs.Lent.{ReadyFor, ReadInto};

use buffers::TableBuffers;
use frame::{DigitTable, LAYOUT_LINE, LONG_LINE, WINDOW_LINE};
use model::{Counts, Frame, JobNumber, LayoutNumber, Reason, Refusal, WindowNumber};

// What the next line is: a layout with its parent, a job and whether it is solo, a job with its window, or the end.
#[derive(Clone, Copy)]
enum Step {
    Layout(LayoutNumber),
    Job(LayoutNumber, LayoutNumber, bool),
    Windowed(LayoutNumber, LayoutNumber, WindowNumber),
    End,
}

// What lines with an end of right counts come to. A refusal after the end waits for the jobs to be checked: a wrong one comes first.
#[derive(Clone, Copy)]
pub struct Ended {
    pub counts: Counts,
    pub after: Option<Refusal>,
}

// How far the reading has come: where the next line begins, and how many layouts, jobs and ends stand before it.
#[derive(Clone, Copy)]
struct Progress {
    at: usize,
    layouts: usize,
    jobs: usize,
    ends: usize,
    ghost counted: { Counted layouts jobs ends },
}

impl Progress {
    // The number of the next line, counted from 1.
    fn line_number(self) -> u16
        ensures { result ≡ self.layouts + self.jobs + self.ends + 1 }
    {
        (self.layouts + self.jobs + self.ends + 1) as u16
    }

    // The next line, turned away.
    fn refuse(self, reason: Reason) -> Refusal
        ensures { result ≡ record { reason = reason; place = self.layouts + self.jobs + self.ends + 1 } }
    {
        Refusal {
            reason,
            place: self.line_number(),
        }
    }

    // A layout before the end: 3 beyond the limit, 4 with a wrong parent.
    fn judge_layout(self, parent: LayoutNumber) -> Result<Step, Refusal>
        ensures { FrameJudged self.layouts self.jobs self.ends false (layout_frame parent.0) result }
    {
        if LayoutNumber::LIMIT <= self.layouts {
            return Err(self.refuse(Reason::TooMany));
        }
        if !settle::right_parent(LayoutNumber(self.layouts as u16), parent) {
            return Err(self.refuse(Reason::WrongParent));
        }
        Ok(Step::Layout(parent))
    }

    // A job before the end: 3 beyond the limit.
    fn judge_job(self, job: Step) -> Result<Step, Refusal>
        ensures { JobJudged (leb job_limit self.jobs) (self.layouts + self.jobs + self.ends + 1) job result }
    {
        if JobNumber::LIMIT <= self.jobs {
            return Err(self.refuse(Reason::TooMany));
        }
        Ok(job)
    }

    // The first end: 2 without a layout, 7 with wrong counts.
    fn judge_end(self, n: usize, m: usize) -> Result<Step, Refusal>
        ensures { FrameJudged self.layouts self.jobs self.ends false (end_frame n m) result }
    {
        if self.layouts == 0 {
            return Err(self.refuse(Reason::Misplaced));
        }
        if n != self.layouts {
            return Err(self.refuse(Reason::WrongEnd));
        }
        if m != self.jobs {
            return Err(self.refuse(Reason::WrongEnd));
        }
        Ok(Step::End)
    }

    // A line by its frame, which has no window above 0F: 2 after the end.
    fn judge(self, line_frame: Frame) -> Result<Step, Refusal>
        requires { beyond_windows (frame_case line_frame) ≡ false }
        ensures { FrameJudged self.layouts self.jobs self.ends (ended_at self.ends) (frame_case line_frame) result }
    {
        if self.ends != 0 {
            return Err(self.refuse(Reason::Misplaced));
        }
        match line_frame {
            Frame::Job(top, bottom) => self.judge_job(Step::Job(top, bottom, false)),
            Frame::Solo(top, bottom) => self.judge_job(Step::Job(top, bottom, true)),
            Frame::Windowed(top, bottom, window) => {
                self.judge_job(Step::Windowed(top, bottom, window))
            }
            Frame::Layout(parent) => self.judge_layout(parent),
            Frame::End(n, m) => self.judge_end(n, m),
        }
    }

    // The next line, where bytes are left.
    fn next_step(self, digits: &DigitTable, bytes: &[u8]) -> Result<Step, Refusal>
        requires { self.at < length bytes.now }
        ensures { LineJudged bytes.now self.at self.layouts self.jobs self.ends result }
    {
        let line_frame = frame::read_frame(digits, bytes, self.at, self.line_number())?;
        self.judge(line_frame)
    }

    // A table that was read to its end, and what stands after it.
    fn ended(self, after: Option<Refusal>) -> Ended
        ensures { result ≡ record { counts = record { layouts = self.layouts; jobs = self.jobs }; after = after } }
    {
        let counts = Counts {
            layouts: self.layouts as u16,
            jobs: self.jobs as u16,
        };
        Ended { counts, after }
    }

    // What the lines come to where the next one is refused.
    fn stopped(self, refusal: Refusal) -> Result<Ended, Refusal>
        ensures { Stopped self.layouts self.jobs self.ends (Some refusal) (reason_number refusal.reason) refusal.place result }
    {
        if self.ends == 0 {
            Err(refusal)
        } else {
            Ok(self.ended(Some(refusal)))
        }
    }

    // Where no line is left: bytes that stop with no end line are refused.
    fn at_last(self) -> Result<Ended, Refusal>
        ensures { Stopped self.layouts self.jobs self.ends None 7 (self.layouts + self.jobs + self.ends + 1) result }
    {
        if self.ends == 0 {
            Err(self.refuse(Reason::WrongEnd))
        } else {
            Ok(self.ended(None))
        }
    }
}

// Reads the lines into clear buffers, whose marks and windows are 0: a line without a window leaves its window so, and one with a window its mark.
pub fn read_unchecked(bytes: &[u8], buffers: &mut TableBuffers) -> Result<Ended, Refusal>
    requires { ReadyFor bytes.now buffers.old }
    ensures same { SameBuffers buffers.old buffers.new }
    ensures read { ReadInto bytes.now buffers.new result }
{
    let parents = &mut *buffers.parents;
    let tops = &mut *buffers.tops;
    let bottoms = &mut *buffers.bottoms;
    let marks = &mut *buffers.marks;
    let windows = &mut *buffers.windows;
    let digits = DigitTable::new();
    let mut p = Progress {
        at: 0,
        layouts: 0,
        jobs: 0,
        ends: 0,
    };
    while p.at < bytes.len() {
        match p.next_step(&digits, bytes) {
            Ok(Step::Layout(parent)) => {
                parents[p.layouts] = parent.0;
                p.layouts += 1;
                p.at += LAYOUT_LINE;
            }
            Ok(Step::Job(t, b, solo)) => {
                tops[p.jobs] = t.0;
                bottoms[p.jobs] = b.0;
                marks[p.jobs] = u8::from(solo);
                p.jobs += 1;
                p.at += LONG_LINE;
            }
            Ok(Step::Windowed(top, bottom, window)) => {
                tops[p.jobs] = top.0;
                bottoms[p.jobs] = bottom.0;
                windows[p.jobs] = window.0;
                p.jobs += 1;
                p.at += WINDOW_LINE;
            }
            Ok(Step::End) => {
                p.ends = 1;
                p.at += LONG_LINE;
            }
            Err(refusal) => return p.stopped(refusal),
        }
    }
    p.at_last()
}
