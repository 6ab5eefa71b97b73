// Breaks words. Its arguments are a pattern file, the customer's exception file and the house exception file; the words come on
// standard input, one a line, and go to standard output with a hyphen at every break.
#![tactic(auto)]

ghost use Rattle.std.specs.Prelude.{◌≡◌, ◌≤◌, length};
ghost use Rattle.base.specs.Limits.{room_size};
ghost use Rattle.report.specs.Report.{line_limit};
ghost use Rattle.spool.specs.State.{label_limit};

use hyphenation::Setting;
use spool::Breaker;
use writing::Writer;

// Breaks by judged lists and a packed table. Two functions of the impl repeat clauses of the trait: the check gives them to none on a type
// with a lifetime.
#[derive(Clone, Copy)]
struct Lists<'a>(&'a Setting<'a>);

impl<'a> Breaker for Lists<'a> {
    ghost LINE_LIMIT = { line_limit };

    ghost ROOM_SIZE = { room_size };

    const NAME: &'static [u8] = b"hyphenate";

    fn line_limit() -> usize
        ensures { result ≡ line_limit }
    {
        report::line_limit(base::WORD_LIMIT)
    }

    fn label() -> &'static [u8]
        ensures { length result.now ≤ label_limit }
    {
        b" probes"
    }

    fn put_word(&self, word: &[u8], marks: &mut [u8], w: &mut Writer) -> Option<usize> {
        report::put_word(self.0, word, marks, w)
    }
}

// The words over judged lists and a packed table. `archive` lends two rooms of its own sizes: they are the Breaker's, and Rattle has no
// computed const argument by which `spool` could make them.
fn print_words(rt: &HostRuntime, setting: &Setting) {
    let mut held = [0u8; base::WORD_LIMIT + 1];
    let mut marks = [0u8; base::ROOM_SIZE];
    spool::print_words(rt, &Lists(setting), &mut held, &mut marks);
}

fn main(rt: HostRuntime) {
    judged::run(&rt, Lists::NAME, |setting| print_words(&rt, setting));
}
