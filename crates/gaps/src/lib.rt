// By place, how far ahead the next place of the same window is, in the cells of the marks.
#![tactic(auto)]

ghost use Rattle.std.specs.Prelude.{ℕ, List, length};
ghost use Rattle.gaps.specs.Gaps.{WindowsKnown, GapTo, GapsSet};

use model::{Rank, WindowNumber};
use schedule::{STARTS, window_at};

// The gap from a place to a later one, as far as a cell can tell; 0 where that one is not later.
fn gap_to(place: Rank, later: Rank) -> u8
    ensures { GapTo place.0 later.0 result }
{
    later.0.saturating_sub(place.0).min(255) as u8
}

// Sets the gap from each place to the next of its window, from the last place up.
fn set_gaps(work: &[u16], gaps: &mut [u8])
    requires { WindowsKnown (length gaps.old) work.now }
    ensures { GapsSet (length gaps.old) work.now gaps.new }
{
    let mut nearest = [0u16; WindowNumber::LIMIT];
    for p in (0..gaps.len()).rev() {
        let place = Rank(p as u16);
        let window = usize::from(window_at(work, place).0);
        gaps[p] = gap_to(place, Rank(nearest[window]));
        nearest[window] = place.0;
    }
}

// Sets every gap to the next place, whatever its window.
fn set_next(gaps: &mut [u8])
    ensures { (work : List ℕ) → GapsSet (length gaps.old) work gaps.new }
{
    gaps.fill(1);
    if let Some(last) = gaps.last_mut() {
        *last = 0;
    }
}

// How far ahead each place is to look first for its mate. Where window 0 has every slot, that is the next place.
pub fn set_near(starts: &[u16; STARTS], work: &[u16], gaps: &mut [u8])
    requires { WindowsKnown (length gaps.old) work.now }
    ensures { GapsSet (length gaps.old) work.now gaps.new }
{
    if usize::from(starts[1]) == gaps.len() {
        set_next(gaps);
    } else {
        set_gaps(work, gaps);
    }
}
