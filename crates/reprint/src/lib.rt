// The line of a word that the 1980 machine breaks, put into lent memory.
#![tactic(auto)]

ghost use Rattle.std.specs.Prelude.{length};
ghost use Rattle.writing.specs.Written.{Fits};
ghost use Rattle.reprint.specs.Reprint.{reprint_line, Reprinted};

use machine1980::Reprint;
use writing::Writer;

// The line of a word, and the instructions that the program sums, none where the word is refused. `marks` is a break room. No word runs
// out of instructions; where one did, its line would tell no ground.
pub fn put_reprint(word: &[u8], marks: &mut [u8], w: &mut Writer) -> Option<usize>
    requires { Fits (reprint_line word.now (length marks.old)) w.old }
    ensures { Reprinted word.now marks.old w.old result marks.new w.new }
{
    let found = match machine1980::hyphenate_1980(word, marks) {
        Ok(found) => found,
        Err(g) => {
            report::put_refusal(writing::QUESTION, g, w);
            return None; // the word is judged before anything runs
        }
    };
    match found {
        Some(Reprint { executed, .. }) => {
            report::put_line(marks, word, w);
            Some(executed)
        }
        None => {
            report::put_told(writing::QUESTION, 0, 0, 0, w);
            None
        }
    }
}
