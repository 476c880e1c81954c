// The sweep for a press with more lanes (000, Algorithm 3): each place still free at its turn takes the first places that wait in the span that it asks for, one for each
// other lane.
#![tactic(auto)]

ghost use Rattle.std.specs.Prelude.{ℕ, List};
ghost use Rattle.std.specs.Option.{is_some};
ghost use Rattle.schedule.specs.Schedule.{Schedule};
ghost use Rattle.group_sweep.specs.Grouped.{Groupable, GroupSwept, GroupAsking, GroupTaken, GroupSteppable, GroupStepped};

use model::{LaneCount, Rank};
use schedule::{NODES, STARTS, TO};
use segment_tree::{Candidates, Shape};
use sweep::{Partition, Reached};

// A place that asks: the places that can wait in its span, and where that ends.
#[derive(Clone, Copy)]
struct Asked {
    place: Rank,
    candidates: Candidates,
    to: usize,
}

// How far a sweep has come: what is reached, and how many groups are made.
#[derive(Clone, Copy)]
struct Progress {
    reached: Reached,
    groups: usize,
}

// The group of a place that asks, into the members' cells from `at` on: the place, and the first that wait in its span. None where it is not full.
fn take_group(
    partition: Partition,
    work: &mut [u16],
    gaps: &[u8],
    asked: Asked,
    lanes: LaneCount,
    members: &mut [u16],
    at: usize,
) -> Option<()>
    requires { (s : Schedule) × (next : ℕ) × (base : ℕ) × (size : ℕ) × GroupAsking s partition.count lanes.0 gaps.now partition.shape.kept partition.shape.width base size asked.place.0 asked.candidates.first.0 asked.candidates.last.0 next asked.to at members.old work.old }
    ensures { (s : Schedule) (next base size : ℕ) → GroupAsking s partition.count lanes.0 gaps.now partition.shape.kept partition.shape.width base size asked.place.0 asked.candidates.first.0 asked.candidates.last.0 next asked.to at members.old work.old → GroupTaken s partition.count lanes.0 partition.shape.kept partition.shape.width asked.place.0 next at work.old members.old (is_some result) members.new work.new }
{
    let place = asked.place;
    let to = asked.to;
    let last = asked.candidates.last;
    let mut first = asked.candidates.first;
    partition.remove_place(work, place);
    members[at] = place.0;
    for taken in 1..lanes.0 {
        let further = Candidates { first, last };
        let Some(mate) = partition.find_mate(work, place, further, to) else {
            return None;
        };
        partition.take_mate(work, place, Some(mate));
        members[at + taken] = mate.0;
        first = schedule::near_to(gaps, mate);
    }
    Some(())
}

// The turn of a place: what is due is reached, and the place, unless it is taken, takes its group. None where that is not full.
fn group_step(
    partition: Partition,
    work: &mut [u16],
    gaps: &[u8],
    lanes: LaneCount,
    members: &mut [u16],
    place: Rank,
    progress: Progress,
) -> Option<Progress>
    requires { (starts : List ℕ) × GroupSteppable partition.count lanes.0 starts gaps.now partition.shape.kept partition.shape.width place.0 progress.reached.next progress.reached.last.0 progress.groups members.old work.old }
    ensures { (starts : List ℕ) → GroupSteppable partition.count lanes.0 starts gaps.now partition.shape.kept partition.shape.width place.0 progress.reached.next progress.reached.last.0 progress.groups members.old work.old → GroupStepped partition.count lanes.0 starts gaps.now partition.shape.kept partition.shape.width place.0 progress.reached.next progress.reached.last.0 progress.groups members.old work.old result members.new work.new }
{
    let reached = partition.insert_reached(work, place, progress.reached);
    // The span ends at 0 where the place asks nobody, or is taken.
    let to = schedule::number_in::<TO>(work, partition.count, place);
    if 0 < to {
        let first = schedule::near_to(gaps, place);
        let last = reached.last;
        let candidates = Candidates { first, last };
        let asked = Asked {
            place,
            candidates,
            to,
        };
        let at = progress.groups * lanes.0;
        take_group(partition, work, gaps, asked, lanes, members, at)?;
        return Some(Progress {
            reached,
            groups: progress.groups + 1,
        });
    }
    // One that is free and asks nobody has no group.
    schedule::mate_at(work, partition.count, place)?;
    Some(Progress {
        reached,
        ..progress
    })
}

// Every place has its turn, in the running order, until a group is not full: then the answer is None, else how many groups stand one after the other in the members' cells.
// `starts` tells by window where its shelf begins, `gaps` by place how far ahead to look first.
pub fn group_sweep(
    work: &mut [u16],
    count: usize,
    starts: &[u16; STARTS],
    gaps: &[u8],
    lanes: LaneCount,
    members: &mut [u16],
) -> Option<usize>
    requires { Groupable count lanes.0 starts.now gaps.now members.old work.old }
    ensures { GroupSwept count lanes.0 starts.now work.old result members.new work.new }
{
    let shape = Shape::for_places(count, sweep::longest_shelf(starts));
    let partition = Partition { count, shape };
    shape.clear(&mut work[NODES * count..]);
    let mut progress = Progress {
        reached: Reached {
            next: 0,
            last: Rank(0),
        },
        groups: 0,
    };
    for turn in 0..count {
        let place = Rank(turn as u16);
        progress = group_step(partition, work, gaps, lanes, members, place, progress)?;
    }
    Some(progress.groups)
}
