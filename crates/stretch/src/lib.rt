// The shared stretch of two lists of layout numbers (document 01, "What each operation turns away", as 2026-02 changed it), handed back as a part of the list that it
// begins.
#![tactic(auto)]

ghost use Rattle.std.specs.Prelude.{◌≡◌, length, position, take_while, zip, eqb};
ghost use Rattle.model.specs.Stretch.{leading, dropped, StretchOutcome};
ghost use Rattle.stretch.specs.StretchLaws.{StretchGiven};

use model::LayoutNumber;

// The shared stretch: a leading part of one of the two lists, after one leading 0 is dropped from each that begins with it.
pub fn shared_stretch<'a>(first: &'a [u16], second: &'a [u16]) -> &'a [u16]
    ensures { StretchOutcome first.entry second.entry result }
{
    let first_dropped = dropped(first);
    let second_dropped = dropped(second);
    stretch_of(&first[first_dropped..], &second[second_dropped..])
}

// How many cells are dropped from a list: one, where it begins with layout 0.
fn dropped(list: &[u16]) -> usize
    ensures { result ≡ dropped list.now }
{
    let Some(&head) = list.first() else {
        return 0;
    };
    if LayoutNumber(head) == LayoutNumber(0) {
        return 1;
    }
    0
}

// The stretch of two lists as they are.
fn stretch_of<'a>(first: &'a [u16], second: &'a [u16]) -> &'a [u16]
    ensures { StretchGiven first.entry second.entry result }
{
    let count = leading(first, second);
    if 0 < count {
        return &first[..count];
    }
    let exchanged = leading(second, first);
    if 0 < exchanged {
        return &second[..exchanged];
    }
    &first[..0]
}

// How many leading numbers of `list` agree with `other` from where the first of them first stands there; 0 where it does not.
fn leading(list: &[u16], other: &[u16]) -> usize
    ensures { result ≡ leading list.now other.now }
{
    let Some(&head) = list.first() else {
        return 0;
    };
    match position_of(LayoutNumber(head), other) {
        Some(from) => agreement(list, &other[from..]),
        None => 0,
    }
}

// The position at which a layout first stands in `list`.
fn position_of(layout: LayoutNumber, list: &[u16]) -> Option<usize>
    ensures { result ≡ position (λ x. eqb layout.0 x) list.now }
{
    for position in 0..list.len() {
        if layout == LayoutNumber(list[position]) {
            return Some(position);
        }
    }
    None
}

// How many leading numbers are the same in both lists.
fn agreement(list: &[u16], other: &[u16]) -> usize
    ensures { result ≡ length (take_while (λ p. eqb p.0 p.1) (zip list.now other.now)) }
{
    // The parts are of one length, so that for each number the end of one list is tested, and not of both.
    let shorter = list.len().min(other.len());
    list[..shorter]
        .iter()
        .zip(&other[..shorter])
        .take_while(|(here, there)| here == there)
        .count()
}
