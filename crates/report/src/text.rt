// Lines, written into lent bytes one after another. Where there is no room for the longest line, nothing is written, and
// the position stays. No `write!` here: its contract says what is written where it answers `Ok`, and none says that it
// does where there is room. So a mark has its word by a function, and no `Display`, and digits come from `itoa`,
// except a single digit.
ghost use Rattle.std.specs.Prelude.{◌≡◌, [], ◌∷◌, ◌++◌, ◌+◌, ◌≤◌, length};
ghost use Rattle.report.specs.Text.{mark_word, decimal_of, space, header_line, line_of, refused_line, odd_line};
ghost use Rattle.report.specs.Writing.{longest, room, put, put_end, Pushes, Puts};

use itoa::Buffer;
use link::decode::{Delivered, Mark};

// A line has no more bytes.
pub(crate) const LONGEST: usize = 43;

// Lent bytes, and the position after the lines that stand in them.
#[derive(Drop)]
pub(crate) struct Lines<'a> {
    pub bytes: &'a mut [u8],
    pub end: usize,
}

impl<'a> Lines<'a> {
    pub(crate) fn new(bytes: &'a mut [u8]) -> Lines<'a>
        ensures same_reference { result.bytes.ghost_name ≡ bytes.entry.ghost_name }
        ensures bytes { result.bytes.now ≡ bytes.old }
        ensures end { result.end ≡ 0 }
    {
        Lines { bytes, end: 0 }
    }

    fn has_room(&self) -> bool
        ensures { result ≡ room self.now.bytes.now self.now.end }
    {
        self.end <= self.bytes.len() && LONGEST <= self.bytes.len() - self.end
    }

    #[inline(always)]
    fn push(&mut self, text: &[u8])
        requires { self.old.end + length text.now ≤ length self.old.bytes.now }
        ensures { Pushes text.now self.old self.new }
    {
        let end = self.end + text.len();
        let bytes = &mut *self.bytes;
        bytes[self.end..end].copy_from_slice(text);
        self.end = end;
    }

    // One byte is stored; nothing is copied by a call.
    fn push_byte(&mut self, byte: u8)
        requires { self.old.end + 1 ≤ length self.old.bytes.now }
        ensures { Pushes (byte ∷ []) self.old self.new }
    {
        let bytes = &mut *self.bytes;
        bytes[self.end] = byte;
        self.end += 1;
    }

    // The digits of a number. A single digit, such as the error 0, is stored, and no buffer is made.
    fn push_digits(&mut self, number: u64)
        requires { self.old.end + length (decimal_of number) ≤ length self.old.bytes.now }
        ensures { Pushes (decimal_of number) self.old self.new }
    {
        if number < 10 {
            self.push_byte(b'0' + number as u8);
            return;
        }
        let mut digits = Buffer::new();
        self.push(digits.format(number).as_bytes());
    }

    // A number, and the byte after it.
    fn push_number(&mut self, number: u64, after: u8)
        requires { self.old.end + length (decimal_of number ++ (after ∷ [])) ≤ length self.old.bytes.now }
        ensures { Pushes (decimal_of number ++ (after ∷ [])) self.old self.new }
    {
        self.push_digits(number);
        self.push_byte(after);
    }

    // A mark's word and a space. Each is pushed as a constant: its bytes are stored, and not copied by a call.
    fn push_word(&mut self, mark: Mark)
        requires { self.old.end + 10 ≤ length self.old.bytes.now }
        ensures { Pushes (mark_word mark ++ (space ∷ [])) self.old self.new }
    {
        match mark {
            Mark::Clean => self.push(b"clean "),
            Mark::Corrected(_) => self.push(b"corrected "),
            Mark::Parity(_) => self.push(b"parity "),
            Mark::Doubtful => self.push(b"doubtful "),
            Mark::Held => self.push(b"held "),
        }
    }

    fn push_delivery(&mut self, number: u64, d: Delivered)
        requires { self.old.end + longest ≤ length self.old.bytes.now }
        ensures line { Pushes (line_of number d) self.old self.new }
        ensures short { self.new.end ≤ self.old.end + longest }
    {
        let mark = d.mark;
        self.push_number(number, b' ');
        self.push_number(d.info as u64, b' ');
        self.push_word(mark);
        self.push_number(mark.error() as u64, b'\n');
    }

    // A line that is always the same.
    fn fixed(&mut self, line: &[u8])
        requires { length line.now ≤ longest }
        ensures { Puts line.now self.old self.new }
    {
        if self.has_room() {
            self.push(line);
        }
    }

    // ---- what the crate calls

    // The line of a delivery.
    pub(crate) fn delivery(&mut self, number: u64, d: Delivered)
        ensures line { Puts (line_of number d) self.old self.new }
        ensures short { self.new.end ≤ self.old.end + longest }
    {
        if self.has_room() {
            self.push_delivery(number, d);
        }
    }

    // The line of a refusal, of making a table or of a step: what they share is the number.
    pub(crate) fn refusal(&mut self, number: u64)
        ensures { Puts (refused_line number) self.old self.new }
    {
        if self.has_room() {
            self.push(b"refused ");
            self.push_number(number, b'\n');
        }
    }

    pub(crate) fn odd_byte(&mut self)
        ensures { Puts odd_line self.old self.new }
    {
        self.fixed(b"odd byte\n");
    }

    pub(crate) fn header(&mut self)
        ensures { Puts header_line self.old self.new }
    {
        self.fixed(b"block info mark error\n");
    }
}
