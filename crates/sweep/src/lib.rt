// The sweep over a schedule (000, Algorithm 2): each place still free at its turn takes the smallest place that waits in the span that it asks for. It
// knows places, slots, spans of slots, and shelves by window; no tree of layouts, layout or job.
#![tactic(auto)]

ghost use Rattle.std.specs.Prelude.{◌≡◌, ◌≢◌, false, ℕ, ◌+◌, ◌*◌, ◌<◌, ◌≤◌, length, get_or, IfSome};
ghost use Rattle.model.specs.Cells.{place_in, cell_of};
ghost use Rattle.model.specs.Tree.{FFFF};
ghost use Rattle.schedule.specs.Schedule.{Schedule};
ghost use Rattle.schedule.specs.InWork.{slot_part, from_part, tree_part, Swept};
ghost use Rattle.sweep_laws.specs.SegmentTree.{entries_in, insert_entry, remove_entry, smallest};
ghost use Rattle.sweep_laws.specs.WorkCells.{tree_in, TreeChanged};
ghost use Rattle.sweep_laws.specs.Sweeping.{Sweepable, ShelfKnown, ShelfAt, Sweeping, UpTo, PlaceInsertable, PlaceRemovable, MateTakable, MateTaken, MateSearchable, PassedBy, Asking, Chosen, Steppable, ReachedAt, SteppedFrom};

use model::Rank;
use schedule::{DUE, FROM, NODES, REACHED, SLOT, STARTS, TO};
use segment_tree::{Candidates, Shape, Shelf};

// What a sweep comes to: how many passes have two places, and how many nodes document 01 counts for its lookups.
#[derive(Clone, Copy)]
pub struct Matched {
    pub pairs: u16,
    pub visits: u32,
}

// How far the sweep has reached: how many of the places that can be found, and a place that none of these comes after.
#[derive(Clone, Copy)]
pub struct Reached {
    pub next: usize,
    pub last: Rank,
}

// How far a sweep has come: what it has reached, and what it has made.
#[derive(Clone, Copy)]
struct Progress {
    reached: Reached,
    passes: usize,
    pairs: u16,
    visits: u32,
}

// How the work cells of a sweep are divided: parts with a cell for each of `count` places, and behind them a segment tree of this shape.
#[derive(Clone, Copy)]
pub struct Partition {
    pub count: usize,
    pub shape: Shape,
}

// What the turn of a place that asks comes to: its mate, if one is found, and how many nodes document 01 counts for its lookup.
#[derive(Clone, Copy)]
struct Found {
    mate: Option<Rank>,
    visits: u32,
}

// A span of so many slots is wide: a search of it takes longer than a few tries.
const WIDE_SPAN: usize = 256;

// How many places are tried in a wide span, at most.
const TRIES: usize = 8;

// The shelf of a place, that of its job's window.
fn shelf_of(work: &[u16], starts: &[u16; STARTS], place: Rank) -> Shelf
    requires { ShelfKnown starts.now place.0 work.now }
    ensures { ShelfAt starts.now work.now place.0 result.base result.size }
{
    let window = usize::from(schedule::window_at(work, place).0);
    Shelf::between(starts[window], starts[window + 1])
}

impl Partition {
    // A place comes to wait in the tree.
    fn insert_place(self, work: &mut [u16], place: Rank)
        requires { PlaceInsertable self.count self.shape.kept self.shape.width place.0 work.old }
        ensures { TreeChanged self.count self.shape.kept self.shape.width (insert_entry (get_or work.old (slot_part * self.count + place.0) 0) place.0 (entries_in self.shape.width (tree_in self.count work.old))) work.old work.new }
    {
        let slot = schedule::number_in::<SLOT>(work, self.count, place);
        self.shape
            .insert(&mut work[NODES * self.count..], slot, place);
    }

    // A place waits no longer.
    pub fn remove_place(self, work: &mut [u16], place: Rank)
        requires { PlaceRemovable self.count self.shape.kept self.shape.width place.0 work.old }
        ensures { TreeChanged self.count self.shape.kept self.shape.width (remove_entry (get_or work.old (slot_part * self.count + place.0) 0) (entries_in self.shape.width (tree_in self.count work.old))) work.old work.new }
    {
        let slot = schedule::number_in::<SLOT>(work, self.count, place);
        self.shape.remove(&mut work[NODES * self.count..], slot);
    }

    // Inserts what is reached at the turn of a place, and answers what is reached then.
    pub fn insert_reached(self, work: &mut [u16], place: Rank, before: Reached) -> Reached
        requires { (s : Schedule) × (place.0 < self.count) × Sweeping s self.count self.shape.kept self.shape.width place.0 before.next work.old × UpTo s self.count before.next before.last.0 }
        ensures { ReachedAt self.count self.shape.kept self.shape.width place.0 before.next before.last.0 work.old result.next result.last.0 work.new }
    {
        let due = schedule::number_in::<DUE>(work, self.count, place);
        let mut last = before.last;
        for at in before.next..due {
            let reached = schedule::place_in::<REACHED>(work, self.count, at);
            self.insert_place(work, reached);
            last = last.max(reached);
        }
        Reached { next: due, last }
    }

    // Whether a place waits in the slots from `from` up to `to`. Only `false` is promised: where the answer is `true`, the lookup tests the place again.
    fn waits(self, work: &[u16], place: Rank, from: usize, to: usize) -> bool
        requires place_in_bounds { slot_part * self.count + place.0 < length work.now }
        requires width_in_bounds { tree_part * self.count + 2 * self.shape.width ≤ length work.now }
        requires to_le_width { to ≤ self.shape.width }
        ensures { result ≡ false → PassedBy self.count self.shape.width from to place.0 work.now }
    {
        let slot = schedule::number_in::<SLOT>(work, self.count, place);
        if slot < from || to <= slot {
            return false;
        }
        let leaf = NODES * self.count + self.shape.width + slot;
        place == Rank(work[leaf])
    }

    // The first place that can be the mate of a place, further on than told where its span is wide: up to TRIES places that do not wait there are passed by.
    fn approach(self, work: &[u16], place: Rank, candidates: Candidates, to: usize) -> Rank
        requires { MateSearchable self.count self.shape.kept self.shape.width place.0 candidates.first.0 candidates.last.0 to work.now }
        ensures { MateSearchable self.count self.shape.kept self.shape.width place.0 result.0 candidates.last.0 to work.now }
    {
        let from = schedule::number_in::<FROM>(work, self.count, place);
        let last = candidates.last;
        let mut first = candidates.first;
        if from.max(to) - from < WIDE_SPAN {
            return first;
        }
        for _ in 0..TRIES {
            if last < first || self.waits(work, first, from, to) {
                return first;
            }
            first = Rank(first.0 + 1);
        }
        first
    }

    // Looks for the mate of a place that waits no longer, in the span that it asks for, which ends at `to`.
    pub fn find_mate(
        self,
        work: &[u16],
        place: Rank,
        candidates: Candidates,
        to: usize,
    ) -> Option<Rank>
        requires { MateSearchable self.count self.shape.kept self.shape.width place.0 candidates.first.0 candidates.last.0 to work.now }
        ensures { result ≡ place_in (smallest (entries_in self.shape.width (tree_in self.count work.now)) (get_or work.now (from_part * self.count + place.0) 0) to) }
    {
        let from = schedule::number_in::<FROM>(work, self.count, place);
        // No slot where the first comes after the last place of all: then the lookup does not look at it.
        let slot = schedule::number_in::<SLOT>(work, self.count, candidates.first);
        self.shape
            .lookup(&work[NODES * self.count..], from, to, slot, candidates)
    }

    // A place takes the mate that is found, if one is: it waits no longer and asks nobody any more.
    pub fn take_mate(self, work: &mut [u16], place: Rank, mate: Option<Rank>)
        requires { MateTakable self.count self.shape.kept self.shape.width (cell_of mate) work.old }
        ensures { MateTaken self.count self.shape.kept self.shape.width place.0 (cell_of mate) work.old work.new }
    {
        // FFFF is no place, so such a mate is none.
        let Some(mate) = Rank::in_cell(Rank::cell_of(mate)) else {
            return;
        };
        self.remove_place(work, mate);
        schedule::set_mate(work, self.count, mate, Some(place));
        schedule::end_asking(work, self.count, mate);
    }

    // The turn of a place that asks for a span of its shelf that ends at `to`: it waits no longer, and has the mate that it takes, or none.
    fn match_place(
        self,
        work: &mut [u16],
        shelf: Shelf,
        place: Rank,
        candidates: Candidates,
        to: usize,
    ) -> Found
        requires { (s : Schedule) × (next : ℕ) × Asking s self.count self.shape.kept self.shape.width shelf.base shelf.size place.0 candidates.first.0 candidates.last.0 next to work.old }
        ensures chosen { (s : Schedule) (next : ℕ) → Asking s self.count self.shape.kept self.shape.width shelf.base shelf.size place.0 candidates.first.0 candidates.last.0 next to work.old → Chosen s self.count self.shape.kept self.shape.width place.0 next work.old (cell_of result.mate) result.visits work.new }
        ensures mate_is_a_place { IfSome result.mate (λ mate. mate.0 ≢ FFFF) }
    {
        self.remove_place(work, place);
        let from = schedule::number_in::<FROM>(work, self.count, place);
        let visits = shelf.lookup_visits(from, to);
        let last = candidates.last;
        let first = self.approach(work, place, candidates, to);
        let further = Candidates { first, last };
        let mate = self.find_mate(work, place, further, to);
        self.take_mate(work, place, mate);
        schedule::set_mate(work, self.count, place, mate);
        Found { mate, visits }
    }

    // The turn of a place: what is due is reached, and the place, unless it is taken, opens a pass, with the mate that it finds or alone.
    fn step(
        self,
        work: &mut [u16],
        starts: &[u16; STARTS],
        gaps: &[u8],
        place: Rank,
        progress: Progress,
    ) -> Progress
        requires { Steppable self.count starts.now gaps.now self.shape.kept self.shape.width place.0 progress.reached.next progress.reached.last.0 progress.passes progress.pairs progress.visits work.old }
        ensures { SteppedFrom self.count starts.now gaps.now self.shape.kept self.shape.width place.0 progress.reached.next progress.reached.last.0 progress.passes progress.pairs progress.visits work.old result.reached.next result.reached.last.0 result.passes result.pairs result.visits work.new }
    {
        let reached = self.insert_reached(work, place, progress.reached);
        // The span ends at 0 where the place asks nobody, or is taken.
        let to = schedule::number_in::<TO>(work, self.count, place);
        if 0 < to {
            let shelf = shelf_of(work, starts, place);
            let first = schedule::near_to(gaps, place);
            let last = reached.last;
            let candidates = Candidates { first, last };
            let found = self.match_place(work, shelf, place, candidates, to);
            schedule::set_opener(work, self.count, progress.passes, place);
            let pairs = match found.mate {
                Some(_) => progress.pairs + 1,
                None => progress.pairs,
            };
            return Progress {
                reached,
                passes: progress.passes + 1,
                pairs,
                visits: progress.visits + found.visits,
            };
        }
        // A place that is taken has a mate, which opened their pass.
        if schedule::mate_at(work, self.count, place).is_some() {
            return Progress {
                reached,
                ..progress
            };
        }
        schedule::set_opener(work, self.count, progress.passes, place);
        Progress {
            reached,
            passes: progress.passes + 1,
            ..progress
        }
    }
}

// How many slots the longest shelf has. Only the speed depends on it, so nothing is promised.
pub fn longest_shelf(starts: &[u16; STARTS]) -> usize {
    let mut longest = 0;
    for shelf in starts.windows(2) {
        longest = longest.max(shelf[1].saturating_sub(shelf[0]));
    }
    usize::from(longest)
}

// Every place has its turn, in the running order. `starts` tells by window where its shelf begins, `gaps` by place how far ahead to look first for its mate.
pub fn sweep(work: &mut [u16], count: usize, starts: &[u16; STARTS], gaps: &[u8]) -> Matched
    requires { Sweepable count starts.now gaps.now work.old }
    ensures { Swept count starts.now work.old result.pairs result.visits work.new }
{
    let shape = Shape::for_places(count, longest_shelf(starts));
    let partition = Partition { count, shape };
    shape.clear(&mut work[NODES * count..]);
    let mut progress = Progress {
        reached: Reached {
            next: 0,
            last: Rank(0),
        },
        passes: 0,
        pairs: 0,
        visits: 0,
    };
    for i in 0..count {
        progress = partition.step(work, starts, gaps, Rank(i as u16), progress);
    }
    Matched {
        pairs: progress.pairs,
        visits: progress.visits,
    }
}
