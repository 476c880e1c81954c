// One line of a table, to its frame (document 01, "The table", as 2026-05 changed it). A frame's line is 6, 10 or 12 digits and byte 0A,
// so its bytes stand at fixed positions, and nothing is searched for.
#![tactic(auto)]

ghost use Rattle.std.specs.Prelude.{true, false, ◌≡◌, ◌+◌, ◌<◌, ◌≤◌, length, drop};
ghost use Rattle.model.specs.Table.{first_line, frame_of, beyond_windows};
ghost use Rattle.model.specs.Answers.{frame_case, frame_answer, line_answer};
ghost use Rattle.frame.specs.Fields.{digit_read, DigitByte, DigitValues, number_at, frame_found, ends_after};

use model::{Frame, LayoutNumber, Reason, Refusal, WindowNumber};

// How many bytes the line of a layout has, with its 0A, that of a job with a window, and that of any other frame.
pub const LAYOUT_LINE: usize = 7;

pub const WINDOW_LINE: usize = 13;

pub const LONG_LINE: usize = 11;

// Byte 0A, which ends each line.
const LINE_END: u8 = b'\n';

// What a wrong digit counts: more than any field of four right ones.
const WRONG_DIGIT: u32 = 65536;

// The byte of a digit.
fn digit_byte(digit: u8) -> u8
    requires { digit < 16 }
    ensures { DigitByte digit result }
{
    if digit < 10 {
        b'0' + digit
    } else {
        b'A' - 10 + digit
    }
}

// What each byte counts as a digit of upper-case hexadecimal. A caller makes them once and lends them to every read: which digit comes next is not to be foreseen,
// so tests would cost more than the table.
#[derive(Clone, Copy)]
pub struct DigitTable {
    pub counts: [u32; 256],
    pub ghost right: { DigitValues counts },
}

impl DigitTable {
    pub fn new() -> DigitTable {
        let mut counts = [WRONG_DIGIT; 256];
        for digit in 0..16 {
            counts[usize::from(digit_byte(digit))] = u32::from(digit);
        }
        DigitTable { counts }
    }

    // The value of a digit, WRONG_DIGIT for a byte that is none.
    fn count(&self, byte: u8) -> u32
        ensures { (result ≡ digit_read byte) × (result ≤ 65536) }
    {
        self.counts[usize::from(byte)]
    }

    // The field of four digits at `at`; none where one of them is wrong, which makes the sum too large.
    fn field(&self, s: &[u8], at: usize) -> Option<u16>
        requires { at + 4 ≤ length s.now }
        ensures { result ≡ number_at 4 at s.now }
    {
        let sum = self.count(s[at]) * 4096
            + self.count(s[at + 1]) * 256
            + self.count(s[at + 2]) * 16
            + self.count(s[at + 3]);
        u16::try_from(sum).ok()
    }

    // The window's two digits at `at`; none where one of them is wrong.
    fn window_field(&self, s: &[u8], at: usize) -> Option<u8>
        requires { at + 2 ≤ length s.now }
        ensures { result ≡ number_at 2 at s.now }
    {
        u8::try_from(self.count(s[at]) * 16 + self.count(s[at + 1])).ok()
    }
}

// Byte 0A stands after n bytes.
pub fn ends_after(s: &[u8], n: usize) -> bool
    ensures { result ≡ ends_after n s.now }
{
    n < s.len() && s[n] == LINE_END
}

// 01 P.
fn short_frame(digits: &DigitTable, s: &[u8]) -> Option<Frame>
    requires { ends_after 6 s.now ≡ true }
    ensures { frame_found result ≡ frame_of (first_line s.now) }
{
    let parent = digits.field(s, 2)?;
    match s {
        [b'0', b'1', ..] => Some(Frame::Layout(LayoutNumber(parent))),
        _ => None,
    }
}

// 02 T B, 04 T B and 03 N M.
fn long_frame(digits: &DigitTable, s: &[u8]) -> Option<Frame>
    requires { (ends_after 6 s.now ≡ false) × (ends_after 10 s.now ≡ true) }
    ensures { frame_found result ≡ frame_of (first_line s.now) }
{
    let first = digits.field(s, 2)?;
    let second = digits.field(s, 6)?;
    match s {
        [b'0', b'2', ..] => Some(Frame::Job(LayoutNumber(first), LayoutNumber(second))),
        [b'0', b'4', ..] => Some(Frame::Solo(LayoutNumber(first), LayoutNumber(second))),
        [b'0', b'3', ..] => Some(Frame::End(usize::from(first), usize::from(second))),
        _ => None,
    }
}

// 05 T B V, with any window.
fn windowed_frame(digits: &DigitTable, s: &[u8]) -> Option<Frame>
    requires { (ends_after 6 s.now ≡ false) × (ends_after 10 s.now ≡ false) }
    ensures { frame_found result ≡ frame_of (first_line s.now) }
{
    if !ends_after(s, 12) {
        return None;
    }
    let top = digits.field(s, 2)?;
    let bottom = digits.field(s, 6)?;
    let window = digits.window_field(s, 10)?;
    match s {
        [b'0', b'5', ..] => Some(Frame::Windowed(
            LayoutNumber(top),
            LayoutNumber(bottom),
            WindowNumber(window),
        )),
        _ => None,
    }
}

// The frame of the first line, with any window.
fn first_frame(digits: &DigitTable, s: &[u8]) -> Option<Frame>
    ensures { frame_found result ≡ frame_of (first_line s.now) }
{
    if ends_after(s, 6) {
        return short_frame(digits, s);
    }
    if ends_after(s, 10) {
        return long_frame(digits, s);
    }
    windowed_frame(digits, s)
}

// Whether the frame has a window above 0F.
fn is_beyond_windows(frame: Frame) -> bool
    ensures { result ≡ beyond_windows (frame_case frame) }
{
    match frame {
        Frame::Windowed(_, _, window) => !window.is_known(),
        _ => false,
    }
}

// The frame of the line that begins at `at`, or a refusal at `line`, the line's own number: 1 for a line without its 0A, an unknown kind,
// a wrong length or a wrong digit, 9 for a window above 0F.
pub fn read_frame(digits: &DigitTable, bytes: &[u8], at: usize, line: u16) -> Result<Frame, Refusal>
    ensures { frame_answer result ≡ line_answer line (frame_of (first_line (drop at bytes.now))) }
{
    let no_frame = Refusal {
        reason: Reason::NoFrame,
        place: line,
    };
    if bytes.len() < at {
        return Err(no_frame);
    }
    let Some(frame) = first_frame(digits, &bytes[at..]) else {
        return Err(no_frame);
    };
    if is_beyond_windows(frame) {
        return Err(Refusal {
            reason: Reason::UnknownWindow,
            place: line,
        });
    }
    Ok(frame)
}
