// Breaks words as the machine of 1980 did, for archive reprints. It takes no arguments; the words come on standard input, one a line,
// and go to standard output with a hyphen at every break.
#![tactic(auto)]

ghost use Rattle.base.specs.Limits.{room_size1980};
ghost use Rattle.reprint.specs.Reprint.{line_limit1980};

use console::Stream;
use spool::Breaker;
use writing::Writer;

// The machine of 1980.
struct Machine;

impl Breaker for Machine {
    ghost LINE_LIMIT = { line_limit1980 };

    ghost ROOM_SIZE = { room_size1980 };

    const NAME: &'static [u8] = b"archive";

    fn line_limit() -> usize {
        report::line_limit(base::WORD_LIMIT_1980)
    }

    fn label() -> &'static [u8] {
        b" instructions"
    }

    fn put_word(&self, word: &[u8], marks: &mut [u8], w: &mut Writer) -> Option<usize> {
        reprint::put_reprint(word, marks, w)
    }
}

// The first argument is the program's own name.
fn main(rt: HostRuntime) {
    if console::has_argument(&rt, 1) {
        console::print_undone(&rt, Machine::NAME, Stream::Output);
        return;
    }
    let mut held = [0u8; base::WORD_LIMIT_1980 + 1];
    let mut marks = [0u8; base::ROOM_SIZE_1980];
    spool::print_words(&rt, &Machine, &mut held, &mut marks);
}
