// Breaks the words of a running text. Its arguments are a pattern file, the customer's exception file and the house exception file; the
// text comes on standard input, in pieces as large as they are read, and goes to standard output with a backslash and a hyphen in every
// break.
#![tactic(auto)]

use base::Ground;
use console::{PIECE, Stream};
use hyphenation::Setting;
use running::{Taken, Written};
use states::TextState;
use std::io::Read;

// The program's name.
const NAME: &[u8] = b"flow";

// The output room serves for a piece and for what is held.
const ROOM: usize = base::ROOM_PER_BYTE * (PIECE + base::HELD_LIMIT);

// Whether there is more to be read. Where not, the text has come to its end, or it was cut: refused, or not to be read or written.
#[derive(Clone, Copy, PartialEq, Eq)]
enum Stage {
    Reading,
    Ended,
    Cut,
}

// How far the text has come: what breaks it, the output room, its state, whether the output stands at the beginning of a line, and
// whether there is more to be read.
#[derive(Drop)]
struct Progress<'s, 'r> {
    setting: &'s Setting<'s>,
    room: &'r mut [u8],
    state: TextState,
    fresh: bool,
    stage: Stage,
}

// Writes the first bytes of the room. Answers whether the output stands at the beginning of a line then, and nothing where it is lost.
fn write_text(rt: &HostRuntime, room: &[u8], size: usize, fresh: bool) -> Option<bool> {
    let text = room.get(..size)?;
    let Some(last) = text.last() else {
        return Some(fresh);
    };
    if let Err(e) = console::write(rt, Stream::Output, text) {
        console::tell(rt, NAME, b"standard output", e);
        return None;
    }
    Some(*last == words::LINE_FEED)
}

// The line of a refusal, which no other bytes stand on.
fn print_refused(rt: &HostRuntime, ground: Ground, fresh: bool) {
    if !fresh {
        console::print(rt, NAME, Stream::Output, b"\n");
    }
    console::print_refusal(rt, NAME, Stream::Output, ground);
}

impl<'s, 'r> Progress<'s, 'r> {
    // What a call of the text answered: its output is written, or its refusal told.
    fn follow(&mut self, rt: &HostRuntime, taken: Taken) {
        let fresh = self.fresh;
        self.state = taken.state;
        match taken.answer {
            Ok(Written { length, .. }) => match write_text(rt, self.room, length, fresh) {
                Some(fresh) => self.fresh = fresh,
                None => self.stage = Stage::Cut,
            },
            Err(g) => {
                print_refused(rt, g, fresh);
                self.stage = Stage::Cut;
            }
        }
    }

    // A piece of the text.
    fn take_piece(&mut self, rt: &HostRuntime, piece: &[u8]) {
        let taken = running::take_piece(self.state, self.setting, piece, self.room);
        self.follow(rt, taken);
    }

    // Reads a piece of the text, if there is one.
    fn read_piece(&mut self, rt: &HostRuntime) {
        let mut buffer = [0u8; PIECE];
        match rt.stdin().read(&mut buffer) {
            Ok(0) => self.stage = Stage::Ended,
            Ok(n) => self.take_piece(rt, &buffer[..n]),
            Err(e) => {
                console::tell(rt, NAME, b"standard input", e);
                self.stage = Stage::Cut;
            }
        }
    }

    // The whole text, up to the end of the input. A proved loop has to end, and nothing says that the input does: so its turns are
    // counted, up to a number that no run reaches.
    fn take_text(&mut self, rt: &HostRuntime) {
        for _ in 0..u64::MAX {
            self.read_piece(rt);
            if self.stage != Stage::Reading {
                break;
            }
        }
    }

    // The end of the text. What is held goes out, unless the text was cut: nobody knows how that word goes on.
    fn end_text(&mut self, rt: &HostRuntime) {
        if self.stage == Stage::Cut {
            return;
        }
        let taken = running::end_text(self.state, self.setting, self.room);
        self.follow(rt, taken);
    }
}

// The text over judged lists and a packed table. Every piece is judged with them, but they are told before anything is read.
fn print_text(rt: &HostRuntime, setting: &Setting) {
    let mut room = [0u8; ROOM];
    let mut progress = Progress {
        setting,
        room: &mut room,
        state: states::new_text(),
        fresh: true,
        stage: Stage::Reading,
    };
    progress.take_text(rt);
    progress.end_text(rt);
}

fn main(rt: HostRuntime) {
    judged::run(&rt, NAME, |setting| print_text(&rt, setting));
}
