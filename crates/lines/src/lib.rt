// Lines of output (document 01, "The plan"), written one after the other.
#![tactic(auto)]

ghost use Rattle.std.specs.Prelude.{◌≤◌, length};

use model::{JobNumber, LayoutNumber, Totals};

// The digits of upper-case hexadecimal.
static DIGITS: [u8; 16] = *b"0123456789ABCDEF";

// An output, and how many of its bytes are written: each method appends to them.
#[derive(Drop)]
pub struct Writer<'a> {
    pub out: &'a mut [u8],
    pub at: usize,
    pub ghost within: { at ≤ length out.now },
}

impl<'a> Writer<'a> {
    ghost use Rattle.std.specs.Prelude.{◌≤◌, length};
    ghost use Rattle.model.specs.Output.{hex, line, pair_line, single_line, totals_line, group_count_line, refusal_bytes};
    ghost use Rattle.lines.specs.Writers.{Begun, Room, Put, Cleared};

    // Nothing is written yet.
    pub fn new(out: &'a mut [u8]) -> Writer<'a>
        ensures { Begun out.entry result }
    {
        Writer { out, at: 0 }
    }

    // These bytes.
    fn put_bytes(&mut self, bytes: &[u8])
        requires { Room self.old (length bytes.now) }
        ensures { Put (length bytes.now) bytes.now self.old self.new }
    {
        let end = self.at + bytes.len();
        self.out[self.at..end].copy_from_slice(bytes);
        self.at = end;
    }

    // A number in N digits.
    fn put_digits<const N: usize>(&mut self, value: u32)
        requires digits { N ≤ 8 }
        requires room { Room self.old N }
        ensures { Put N (hex N value) self.old self.new }
    {
        let end = self.at + N;
        let digits = &mut self.out[self.at..end];
        for k in 0..N {
            let digit = (value >> (4 * (N - 1 - k))) % 16;
            digits[k] = DIGITS[digit as usize];
        }
        self.at = end;
    }

    // A number in four digits.
    fn put_four(&mut self, value: u16)
        requires { Room self.old 4 }
        ensures { Put 4 (hex 4 value) self.old self.new }
    {
        self.put_digits::<4>(u32::from(value));
    }

    // The line of a pair: its jobs, the earlier first, and the highest and the deepest layout that they share.
    pub fn put_pair(
        &mut self,
        one: JobNumber,
        other: JobNumber,
        upper: LayoutNumber,
        lower: LayoutNumber,
    )
        requires { Room self.old 19 }
        ensures { Put 19 (pair_line one.0 other.0 upper.0 lower.0) self.old self.new }
    {
        self.put_bytes(b"11");
        self.put_four(one.0);
        self.put_four(other.0);
        self.put_four(upper.0);
        self.put_four(lower.0);
        self.put_bytes(b"\n");
    }

    // The line of a job that runs alone.
    pub fn put_single(&mut self, job: JobNumber)
        requires { Room self.old 7 }
        ensures { Put 7 (single_line job.0) self.old self.new }
    {
        self.put_bytes(b"12");
        self.put_four(job.0);
        self.put_bytes(b"\n");
    }

    // The kind of a group's line. The jobs of the group come after it, and its layout ends the line.
    pub fn start_group(&mut self)
        requires { Room self.old 2 }
        ensures { Put 2 (hex 2 0x13) self.old self.new }
    {
        self.put_bytes(b"13");
    }

    // A job of a group.
    pub fn put_job(&mut self, job: JobNumber)
        requires { Room self.old 4 }
        ensures { Put 4 (hex 4 job.0) self.old self.new }
    {
        self.put_four(job.0);
    }

    // The layout that a group prints on, the last of its line.
    pub fn end_group(&mut self, layout: LayoutNumber)
        requires { Room self.old 5 }
        ensures { Put 5 (line (hex 4 layout.0)) self.old self.new }
    {
        self.put_four(layout.0);
        self.put_bytes(b"\n");
    }

    // The line of the number of groups.
    pub fn put_group_count(&mut self, groups: u16)
        requires { Room self.old 7 }
        ensures { Put 7 (group_count_line groups) self.old self.new }
    {
        self.put_bytes(b"1F");
        self.put_four(groups);
        self.put_bytes(b"\n");
    }

    // The line of the totals: pairs, singles and cell count.
    pub fn put_totals(&mut self, totals: Totals)
        requires { Room self.old 19 }
        ensures { Put 19 (totals_line totals.pairs totals.singles totals.visits) self.old self.new }
    {
        self.put_bytes(b"1F");
        self.put_four(totals.pairs);
        self.put_four(totals.singles);
        self.put_digits::<8>(totals.visits);
        self.put_bytes(b"\n");
    }

    // The line of a refusal: its number and its place.
    pub fn put_refusal(&mut self, number: u16, place: u16)
        requires { Room self.old 9 }
        ensures { Put 9 (refusal_bytes number place) self.old self.new }
    {
        self.put_bytes(b"1E");
        self.put_digits::<2>(u32::from(number));
        self.put_four(place);
        self.put_bytes(b"\n");
    }

    // Zeros behind what is written; the answer is how many bytes that is.
    pub fn finish(self) -> usize
        ensures { Cleared self.entry result self.exit.0.now }
    {
        let Writer { out, at } = self;
        out[at..].fill(0);
        at
    }
}
