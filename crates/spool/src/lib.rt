// Words on standard input, one a line, and a line for each on standard output: what the programs that break single words share. How a
// word's line is made is the program's own.
#![tactic(auto)]

ghost use Rattle.std.specs.Prelude.{◌≡◌, ℕ, ◌+◌, ◌≤◌, length};
ghost use Rattle.spool.specs.State.{Grows, label_limit, piece};

use console::{PIECE, Stream};
use std::io::Read;
use writing::Writer;

// The last line has no more bytes, its label at most label_limit of them (specs/State.antt).
const SUMS_LIMIT: usize = 128;

// How a program breaks a word. What has a clause is a function: a constant has none to repeat, where an impl on a type with a lifetime, as
// `hyphenate` has one, must.
pub trait Breaker {
    // How many bytes every line of a word fits into, and a break room's.
    ghost LINE_LIMIT: { ℕ };

    ghost ROOM_SIZE: { ℕ };

    // The program's name.
    const NAME: &'static [u8];

    fn line_limit() -> usize
        ensures { result ≡ LINE_LIMIT };

    // What the program's sum is called in its last line.
    fn label() -> &'static [u8]
        ensures { length result.now ≤ label_limit };

    // Makes the line of a word. Answers what the word adds to the sum, nothing where it is refused.
    fn put_word(&self, word: &[u8], marks: &mut [u8], w: &mut Writer) -> Option<usize>
        requires { (ROOM_SIZE ≤ length marks.old) × (w.old.at + LINE_LIMIT ≤ length w.old.room.now) }
        ensures { Grows w.old w.new };
}

// Whether there is more to be read, and what became of it where not: all of it was read, reading failed, or a line could not be written.
#[derive(Clone, Copy, PartialEq, Eq)]
enum Stage {
    Reading,
    Ended,
    Unread,
    Lost,
}

// How far the words have come: bytes of the present line that are held, a break room, lines not yet written, and the sums. The bytes held
// lie in their buffer, the lines not yet written in theirs, and both rooms are large enough for one more word.
#[derive(Drop)]
struct Spool<'a, B: Breaker> {
    breaker: &'a B,
    held: Writer<'a>,
    marks: &'a mut [u8],
    out: Writer<'a>,
    words: u64,
    refused: u64,
    sum: u64,
    stage: Stage,

    ghost within: { held.at ≤ length held.room.now },
    ghost marked: { B.ROOM_SIZE ≤ length marks.now },
    ghost filled: { out.at ≤ length out.room.now },
    ghost roomy: { B.LINE_LIMIT ≤ length out.room.now },
}

impl<'a, B: Breaker> Spool<'a, B> {
    // Begins the words.
    fn new(
        breaker: &'a B,
        held: &'a mut [u8],
        marks: &'a mut [u8],
        out: &'a mut [u8],
    ) -> Spool<'a, B>
        requires { (B.ROOM_SIZE ≤ length marks.old) × (B.LINE_LIMIT ≤ length out.old) }
    {
        Spool {
            breaker,
            held: Writer::new(held),
            marks,
            out: Writer::new(out),
            words: 0,
            refused: 0,
            sum: 0,
            stage: Stage::Reading,
        }
    }

    // Writes the lines that are ready where another might not fit behind them.
    fn make_space(&mut self, rt: &HostRuntime)
        ensures { self.new.out.at + B.LINE_LIMIT ≤ length self.new.out.room.now }
    {
        if self.out.room.len() - self.out.at < B::line_limit() {
            self.stage = write_lines::<B>(rt, self.out.written(), self.stage);
            self.out.at = 0;
        }
    }

    // The line has ended: its word's line is made ready.
    fn end_line(&mut self, rt: &HostRuntime) {
        self.make_space(rt);
        match self
            .breaker
            .put_word(self.held.written(), self.marks, &mut self.out)
        {
            Some(summed) => self.sum = self.sum.wrapping_add(summed as u64),
            None => self.refused = self.refused.wrapping_add(1),
        }
        self.words = self.words.wrapping_add(1);
        self.held.at = 0;
    }

    // One byte of the words. Only the first bytes of a line are held: where it has more of them than a word may have, they show it.
    fn take_byte(&mut self, rt: &HostRuntime, b: u8) {
        if b == words::LINE_FEED {
            self.end_line(rt);
        } else if self.held.at < self.held.room.len() {
            self.held.put_byte(b);
        }
    }

    // A piece of the words.
    fn take_piece(&mut self, rt: &HostRuntime, piece: &[u8]) {
        for b in piece {
            self.take_byte(rt, *b);
        }
    }

    // Reads a piece of the words, if there is one. `flow` has a turn like it: one for both would take the step as a closure, whose
    // contract says of any step what the ghost fields say of this one, and be longer than the two.
    fn read_piece(&mut self, rt: &HostRuntime) {
        let mut buffer = [0u8; PIECE];
        match rt.stdin().read(&mut buffer) {
            Ok(0) => self.stage = Stage::Ended,
            Ok(n) => self.take_piece(rt, &buffer[..n]),
            Err(e) => {
                console::tell(rt, B::NAME, b"standard input", e);
                self.stage = Stage::Unread;
            }
        }
    }

    // All words, up to the end of the input. What is held then is the last word, unless reading failed: nobody knows how that word goes
    // on. Where a line could not be written it may be a part of a word, but nothing goes out any more. A proved loop has to end, and
    // nothing says that the input does: so its turns are counted, up to a number that no run reaches.
    fn take_words(&mut self, rt: &HostRuntime) {
        for _ in 0..u64::MAX {
            self.read_piece(rt);
            if self.stage != Stage::Reading {
                break;
            }
        }
        if self.held.at > 0 && self.stage != Stage::Unread {
            self.end_line(rt);
        }
    }

    // The last line.
    fn print_sums(&self, rt: &HostRuntime) {
        let mut line = [0u8; SUMS_LIMIT];
        let mut w = Writer::new(&mut line);
        report::put_sums(self.words, self.refused, B::label(), self.sum, &mut w);
        write_lines::<B>(rt, w.written(), self.stage);
    }
}

// Writes lines. Behind a lost one nothing is written any more: what is cut short has no gap inside.
fn write_lines<B: Breaker>(rt: &HostRuntime, lines: &[u8], stage: Stage) -> Stage {
    if stage == Stage::Lost {
        return stage;
    }
    match console::write(rt, Stream::Output, lines) {
        Ok(()) => stage,
        Err(e) => {
            console::tell(rt, B::NAME, b"standard output", e);
            Stage::Lost
        }
    }
}

// All words, with room for the bytes of a line that are held, and a break room. Without the last line the words were not all read or
// written. PIECE is `piece` of specs/State.antt.
pub fn print_words<B: Breaker>(rt: &HostRuntime, breaker: &B, held: &mut [u8], marks: &mut [u8])
    requires { (B.ROOM_SIZE ≤ length marks.old) × (B.LINE_LIMIT ≤ piece) }
{
    let mut out = [0u8; PIECE];
    let mut spool = Spool::new(breaker, held, marks, &mut out);
    spool.take_words(rt);
    match write_lines::<B>(rt, spool.out.written(), spool.stage) {
        Stage::Reading | Stage::Ended => spool.print_sums(rt),
        Stage::Unread | Stage::Lost => (),
    }
}
