// Numbers and words put into lent memory, one part behind the other.
#![tactic(auto)]

ghost use Rattle.std.specs.Prelude.{[], ◌∷◌, ◌≤◌, ◌≡◌, length, take};
ghost use Rattle.writing.specs.Written.{Fits, Writes};
ghost use Rattle.writing.specs.Writing.{decimal, field, counted, letter_with, hyphenated};

// Bytes by their names; specs/Writing.antt has each of them.
pub const SPACE: u8 = 32;

pub const EXCLAMATION: u8 = 33;

pub const ZERO_DIGIT: u8 = 48;

pub const QUESTION: u8 = 63;

// A lent room, and where writing goes on in it. No Vec, since a project without a heap has none, and no Cursor, whose contracts don't say
// that the room in it stays the one that was lent. That the place lies in the room is no invariant: `Fits` says it, and of the text's end.
#[derive(Drop)]
pub struct Writer<'a> {
    pub room: &'a mut [u8],
    pub at: usize,
}

impl<'a> Writer<'a> {
    // Begins a room.
    pub fn new(room: &'a mut [u8]) -> Writer<'a>
        ensures room { result.room.ghost_name ≡ room.entry.ghost_name }
        ensures now { result.room.now ≡ room.old }
        ensures at { result.at ≡ 0 }
    {
        Writer { room, at: 0 }
    }

    // What stands before the place where writing goes on.
    pub fn written(&self) -> &[u8]
        requires { self.now.at ≤ length self.now.room.now }
        ensures { result.now ≡ take self.now.at self.now.room.now }
    {
        &self.room[..self.at]
    }

    // One byte.
    pub fn put_byte(&mut self, b: u8)
        requires { Fits (b ∷ []) self.old }
        ensures { Writes (b ∷ []) self.old self.new }
    {
        self.room[self.at] = b;
        self.at += 1;
    }

    // Bytes as they stand. One by one: the library's `copy_from_slice` makes the archive for C need `memmove`, and it is to need `memcpy` and
    // `memset` alone.
    pub fn put_text(&mut self, text: &[u8])
        requires { Fits text.now self.old }
        ensures { Writes text.now self.old self.new }
    {
        for (i, b) in text.iter().enumerate() {
            self.room[self.at + i] = *b;
        }
        self.at += text.len();
    }

    // A number in decimal digits.
    pub fn put_decimal(&mut self, n: u64)
        requires { Fits (decimal n) self.old }
        ensures { Writes (decimal n) self.old self.new }
    {
        let mut digits = itoa::Buffer::new();
        self.put_text(digits.format(n).as_bytes())
    }

    // A space and a number.
    #[tactic(auto, using(crate::proofs::Parts::both_parts))]
    pub fn put_field(&mut self, n: u64)
        requires { Fits (field n) self.old }
        ensures { Writes (field n) self.old self.new }
    {
        self.put_byte(SPACE);
        self.put_decimal(n)
    }

    // A label and a number.
    #[tactic(auto, using(crate::proofs::Parts::both_parts))]
    pub fn put_counted(&mut self, label: &[u8], n: u64)
        requires { Fits (counted label.now n) self.old }
        ensures { Writes (counted label.now n) self.old self.new }
    {
        self.put_text(label);
        self.put_field(n)
    }

    // A letter, with the sign of a break before it where it has a mark.
    fn put_letter(&mut self, sign: &[u8], mark: u8, b: u8)
        requires { Fits (letter_with sign.now mark b) self.old }
        ensures { Writes (letter_with sign.now mark b) self.old self.new }
    {
        if mark == 0 {
            return self.put_byte(b);
        }
        self.put_text(sign);
        self.put_byte(b)
    }

    // A word with its breaks, each as a sign before the letter. Marks and word are two slices, since C's break room is the marks alone.
    pub fn put_hyphenated(&mut self, sign: &[u8], marks: &[u8], word: &[u8])
        requires { (length word.now ≤ length marks.now) × Fits (hyphenated sign.now marks.now word.now) self.old }
        ensures { Writes (hyphenated sign.now marks.now word.now) self.old self.new }
    {
        for (mark, b) in marks.iter().zip(word) {
            self.put_letter(sign, *mark, *b);
        }
    }
}
