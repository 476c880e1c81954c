// The five buffers that a caller lends for a table.
#![tactic(auto)]

use model::ABSENT;

// The five buffers that a table's columns are read into: a number cell for each parent, top and bottom, a byte for each solo mark and window.
#[derive(Drop)]
pub struct TableBuffers<'a> {
    pub parents: &'a mut [u16],
    pub tops: &'a mut [u16],
    pub bottoms: &'a mut [u16],
    pub marks: &'a mut [u8],
    pub windows: &'a mut [u8],
}

impl TableBuffers<'_> {
    ghost use Rattle.buffers.specs.Lent.{SameBuffers, Cleared};

    // As they are where nothing is used.
    pub fn clear(&mut self)
        ensures same { SameBuffers self.old self.new }
        ensures cleared { Cleared self.new }
    {
        self.parents.fill(ABSENT);
        self.tops.fill(ABSENT);
        self.bottoms.fill(ABSENT);
        self.marks.fill(0);
        self.windows.fill(0);
    }
}
