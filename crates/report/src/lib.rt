// The lines that the programs write, put into lent memory.
#![tactic(auto)]

ghost use Rattle.std.specs.Prelude.{[], ◌∷◌, ◌++◌, ◌≡◌, ◌≤◌, length};
ghost use Rattle.writing.specs.Writing.{hyphenated};
ghost use Rattle.writing.specs.Written.{Fits, Writes};
ghost use Rattle.words.specs.Symbols.{line_feed, hyphen};
ghost use Rattle.report.specs.Report.{list_field, told_line, refusal_line, sums_line, line_limit_of, line_for, Reports};

use base::Ground;
use hyphenation::{Found, Setting};
use writing::Writer;

// Every line of a word fits into this many bytes: its letters, as many hyphens at most, and the line feed. A bound, with one byte to spare:
// a line that tells a refusal fits too.
pub fn line_limit(word_limit: usize) -> usize
    requires { line_limit_of word_limit ≤ usize.MAX }
    ensures { result ≡ line_limit_of word_limit }
{
    2 * word_limit + 2
}

// A space and the number of a list, nothing where no list is told: 0, as `list_field` and `told` have it.
fn put_list(list: u64, w: &mut Writer)
    requires { Fits (list_field list) w.old }
    ensures { Writes (list_field list) w.old w.new }
{
    if list != 0 {
        w.put_field(list);
    }
}

// A line with a sign and what is told of a refusal.
pub fn put_told(sign: u8, number: u64, list: u64, place: u64, w: &mut Writer)
    requires { Fits (told_line sign number list place) w.old }
    ensures { Writes (told_line sign number list place) w.old w.new }
{
    w.put_byte(sign);
    w.put_field(number);
    put_list(list, w);
    w.put_field(place);
    w.put_byte(words::LINE_FEED);
}

// The line of a refusal.
pub fn put_refusal(sign: u8, ground: Ground, w: &mut Writer)
    requires { Fits (refusal_line sign ground) w.old }
    ensures { Writes (refusal_line sign ground) w.old w.new }
{
    let number = ground.number();
    let list = ground.list();
    let place = ground.place();
    put_told(sign, number as u64, list as u64, place as u64, w)
}

// The last line of the words: how many, how many refused, and with its label what the program sums beside them.
pub fn put_sums(words: u64, refused: u64, label: &[u8], sum: u64, w: &mut Writer)
    requires { Fits (sums_line words refused label.now sum) w.old }
    ensures { Writes (sums_line words refused label.now sum) w.old w.new }
{
    w.put_counted(b"words", words);
    w.put_counted(b" refused", refused);
    w.put_counted(label, sum);
    w.put_byte(words::LINE_FEED);
}

// A word with its breaks, and a line feed.
pub fn put_line(marks: &[u8], word: &[u8], w: &mut Writer)
    requires { (length word.now ≤ length marks.now) × Fits (hyphenated (hyphen ∷ []) marks.now word.now ++ (line_feed ∷ [])) w.old }
    ensures { Writes (hyphenated (hyphen ∷ []) marks.now word.now ++ (line_feed ∷ [])) w.old w.new }
{
    w.put_hyphenated(b"-", marks, word);
    w.put_byte(words::LINE_FEED); // behind the word
}

// The line of a word, where margins, lists and table were judged before, and the looks that the program sums, none where the word is
// refused. `marks` is a break room. It, the word and the writer go together here, in `reprint` and in
// `spool::Breaker` only: a struct of them would be made anew for each word, and taken apart at once.
pub fn put_word(setting: &Setting, word: &[u8], marks: &mut [u8], w: &mut Writer) -> Option<usize>
    requires { Fits (line_for setting.now.left setting.now.right word.now setting.now.customer.now setting.now.house.now setting.now.table.now (length marks.old)) w.old }
    ensures { Reports setting.now.left setting.now.right word.now setting.now.customer.now setting.now.house.now setting.now.table.now marks.old w.old result marks.new w.new }
{
    match hyphenation::hyphenate_word(setting, word, marks) {
        Ok(Found { looks, .. }) => {
            put_line(marks, word, w);
            Some(looks)
        }
        Err(g) => {
            put_refusal(writing::QUESTION, g, w);
            None
        }
    }
}
