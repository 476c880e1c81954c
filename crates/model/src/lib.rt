// The numbers and answers that every part of the planner speaks in, and, in specs/, what document 01 says of them.
#![tactic(auto)]

ghost use Rattle.std.specs.Prelude.{◌≡◌, ◌&&◌, eqb, leb, ltb};
ghost use Rattle.model.specs.Tree.{FFFF};
ghost use Rattle.model.specs.Answers.{reason_number};
ghost use Rattle.model.specs.Cells.{place_in, cell_of};
ghost use Rattle.model.specs.Jobs.{window_limit};
ghost use Rattle.model.specs.Grouping.{least_lanes, most_lanes};

// What stands for no layout, no job and no place: FFFF in the table and in lent number cells.
pub const ABSENT: u16 = 0xFFFF;

// The number of a layout, a node of the tree.
#[derive(Clone, Copy, PartialEq, Eq, PartialOrd, Ord)]
pub struct LayoutNumber(pub u16);

impl LayoutNumber {
    // At most 1,024 layouts.
    pub const LIMIT: usize = 1024;

    // Whether it stands for no layout.
    pub fn is_none(self) -> bool
        ensures { result ≡ eqb self.0 FFFF }
    {
        self.0 == ABSENT
    }

    // Whether it is one of so many layouts, numbered from 0.
    pub fn is_among(self, layouts: usize) -> bool
        ensures { result ≡ ltb self.0 layouts }
    {
        usize::from(self.0) < layouts
    }
}

// The number of a job, a downward path in the tree.
#[derive(Clone, Copy, PartialEq, Eq, PartialOrd, Ord)]
pub struct JobNumber(pub u16);

impl JobNumber {
    // At most 4,096 jobs; no jobs is allowed.
    pub const LIMIT: usize = 4096;
}

// The number of a printing window.
#[derive(Clone, Copy, PartialEq, Eq, PartialOrd, Ord)]
pub struct WindowNumber(pub u8);

impl WindowNumber {
    // Windows 0 to 15.
    pub const LIMIT: usize = 16;

    // Whether there is such a window.
    pub fn is_known(self) -> bool
        ensures { result ≡ ltb self.0 window_limit }
    {
        usize::from(self.0) < Self::LIMIT
    }
}

// How many lanes a press has.
#[derive(Clone, Copy, PartialEq, Eq, PartialOrd, Ord)]
pub struct LaneCount(pub usize);

impl LaneCount {
    // From 2 lanes.
    pub const LEAST: usize = 2;

    // To 8.
    pub const MOST: usize = 8;

    // Whether there are presses with so many.
    pub fn is_known(self) -> bool
        ensures { result ≡ (leb least_lanes self.0 && leb self.0 most_lanes) }
    {
        (Self::LEAST..=Self::MOST).contains(&self.0)
    }
}

// A place in the running order (000: a position in the bottom-up enumeration).
#[derive(Clone, Copy, PartialEq, Eq, PartialOrd, Ord)]
pub struct Rank(pub u16);

impl Rank {
    // The place that a cell holds.
    pub fn in_cell(cell: u16) -> Option<Rank>
        ensures { result ≡ place_in cell }
    {
        if cell == ABSENT {
            return None;
        }
        Some(Rank(cell))
    }

    // The cell that holds a place, or none.
    pub fn cell_of(place: Option<Rank>) -> u16
        ensures { result ≡ cell_of place }
    {
        place.map_or(ABSENT, |place| place.0)
    }
}

// Why an input is turned away, with document 01's number.
#[derive(Clone, Copy, PartialEq, Eq)]
pub enum Reason {
    // A line that is no frame.
    NoFrame = 1,
    // A line after the end, or an end without a layout.
    Misplaced = 2,
    // More layouts or jobs than a table may have.
    TooMany = 3,
    // A parent that is no layout before its own.
    WrongParent = 4,
    // A top or a bottom that is no layout.
    UnknownLayout = 5,
    // A bottom that is not at or below its top.
    NotBelow = 6,
    // An end with wrong counts, or none.
    WrongEnd = 7,
    // Lent buffers that are too short or do not fit together.
    WrongBuffers = 8,
    // A window that no press has.
    UnknownWindow = 9,
    // A number of lanes that no press has.
    UnknownPress = 13,
    // No full grouping exists.
    NoFullGrouping = 14,
}

impl Reason {
    // Document 01's number.
    pub fn number(self) -> u16
        ensures { result ≡ reason_number self }
    {
        self as u16
    }
}

// The reason and the place: what a refusal tells.
#[derive(Clone, Copy, PartialEq, Eq)]
pub struct Refusal {
    pub reason: Reason,
    pub place: u16,
}

// One line of the table.
#[derive(Clone, Copy)]
pub enum Frame {
    Layout(LayoutNumber),
    Job(LayoutNumber, LayoutNumber),
    Solo(LayoutNumber, LayoutNumber),
    Windowed(LayoutNumber, LayoutNumber, WindowNumber),
    // The counts are whole words: a frame that fits one word would be passed packed into it, and taken apart again.
    End(usize, usize),
}

// How many layouts and jobs a table has.
#[derive(Clone, Copy)]
pub struct Counts {
    pub layouts: u16,
    pub jobs: u16,
}

// What a plan comes to: its pairs, its singles, and the cells that document 01 counts for its lookups.
#[derive(Clone, Copy)]
pub struct Totals {
    pub pairs: u16,
    pub singles: u16,
    pub visits: u32,
}
