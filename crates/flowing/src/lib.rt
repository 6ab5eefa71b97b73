// A running text taken byte by byte: words are held until they are finished, and go out with their breaks.
#![tactic(auto)]

ghost use Rattle.std.specs.Prelude.{true, [], ◌∷◌, ◌++◌, ◌≡◌, ◌+◌, ◌*◌, ◌≤◌, ◌<◌, length, take};
ghost use Rattle.base.specs.Limits.{room_per_byte};
ghost use Rattle.words.specs.Symbols.{letter, apostrophe};
ghost use Rattle.writing.specs.Written.{Fits};
ghost use Rattle.runs.specs.Held.{last_of};
ghost use Rattle.runs.specs.Reached.{can_be_held};
ghost use Rattle.flowing.specs.Output.{broken, word_looks, finished_text, finished_looks};
ghost use Rattle.flowing.specs.Post.{Shows, Holds, Goes, Finishes, Ready, Steps, Flows};

use hyphenation::Setting;
use words::Word;
use writing::Writer;

// A text as far as it is taken: the bytes held, how many of their buffer they are (fixed memory, no heap), the run, and the looks so far.
// The run is a number, which C's state keeps as a byte: `held_by` goes by it, and a piece hands it on as it was.
// The writer of the output stands beside it: inside, the proof didn't close, as of a `&mut` two structs deep its lender doesn't learn what it
// ends as.
#[derive(Clone, Copy)]
pub struct Flow {
    pub held: [u8; base::HELD_LIMIT],
    pub size: usize,
    pub run: u8,
    pub looks: usize,
}

// A judged word with its breaks. Tells how many cells were looked at for it. Setting and writer come one by one here and below: one is a whole
// text's, and the other a call's.
fn put_word(setting: &Setting, word: &Word, out: &mut Writer) -> usize
    requires { out.old.at + room_per_byte * length word.now.bytes.now ≤ length out.old.room.now }
    ensures { Shows (broken setting.now.left setting.now.right setting.now.customer.now setting.now.house.now setting.now.table.now word.now.bytes.now) (word_looks setting.now.customer.now setting.now.house.now setting.now.table.now word.now.bytes.now) out.old result out.new }
{
    let mut marks = [0u8; base::ROOM_SIZE];
    match hyphenation::hyphenate_word(setting, word.bytes, &mut marks) {
        Ok(found) => {
            out.put_hyphenated(b"\\-", &marks, word.bytes);
            found.looks
        }
        Err(_) => 0, // no word that was judged is refused
    }
}

// What is held, finished: the word, and the apostrophe that waits behind it. Tells the looks.
pub fn put_held(setting: &Setting, held: &[u8], out: &mut Writer) -> usize
    requires { (can_be_held held.now ≡ true) × (out.old.at + room_per_byte * length held.now ≤ length out.old.room.now) }
    ensures { Shows (finished_text setting.now.left setting.now.right setting.now.customer.now setting.now.house.now setting.now.table.now held.now) (finished_looks setting.now.customer.now setting.now.house.now setting.now.table.now held.now) out.old result out.new }
{
    match held {
        [] => 0,
        [word @ .., words::APOSTROPHE] => {
            let looks = put_word(setting, &Word { bytes: word }, out);
            out.put_byte(words::APOSTROPHE);
            looks
        }
        _ => put_word(setting, &Word { bytes: held }, out),
    }
}

// Is the last of these bytes a letter?
#[tactic(auto, using(crate::proofs::Laws::last_none))]
fn ends_letter(held: &[u8]) -> bool
    ensures { result ≡ letter (last_of held.now) }
{
    match held {
        [.., b] => words::is_letter(*b),
        [] => false,
    }
}

impl Flow {
    // A byte behind those that are held.
    fn hold_byte(&mut self, b: u8)
        requires { self.old.size < length self.old.held }
        ensures { Holds b self.old self.new }
    {
        self.held[self.size] = b;
        self.size += 1;
    }

    // A byte of a run that was let go, which goes on as a run of this kind.
    fn pass_on(&mut self, b: u8, run: u8, out: &mut Writer)
        requires { Fits (b ∷ []) out.old }
        ensures { Goes (b ∷ []) 0 self.old.size run self.old out.old self.new out.new }
    {
        out.put_byte(b);
        self.run = run;
    }

    // The run passes the word limit with this byte: all that is held goes out, and the byte.
    fn let_go(&mut self, b: u8, out: &mut Writer)
        requires { (self.old.size ≤ length self.old.held) × (out.old.at + (self.old.size + 1) ≤ length out.old.room.now) }
        ensures { Goes (take self.old.size self.old.held ++ (b ∷ [])) 0 0 1 self.old out.old self.new out.new }
    {
        out.put_text(&self.held[..self.size]);
        out.put_byte(b);
        self.size = 0;
        self.run = states::GONE;
    }

    // The byte ends what is held: the word goes out with its breaks, and the byte.
    fn finish_word(&mut self, setting: &Setting, b: u8, out: &mut Writer)
        requires { Finishes self.old out.old }
        ensures { Goes (finished_text setting.now.left setting.now.right setting.now.customer.now setting.now.house.now setting.now.table.now (take self.old.size self.old.held) ++ (b ∷ [])) (finished_looks setting.now.customer.now setting.now.house.now setting.now.table.now (take self.old.size self.old.held)) 0 0 self.old out.old self.new out.new }
    {
        self.looks += put_held(setting, &self.held[..self.size], out);
        out.put_byte(b);
        self.size = 0;
        self.run = states::HOLDING;
    }

    // An apostrophe: behind a run that was let go it goes out at once, behind a letter it is held, and else it ends what is held.
    fn take_apostrophe(&mut self, setting: &Setting, b: u8, out: &mut Writer)
        requires { (b ≡ apostrophe) × Ready 1 self.old out.old }
        ensures { Steps setting.now.left setting.now.right setting.now.customer.now setting.now.house.now setting.now.table.now b self.old out.old self.new out.new }
    {
        if self.run == states::GONE {
            return self.pass_on(b, states::GONE_MARKED, out);
        }
        if ends_letter(&self.held[..self.size]) {
            return self.hold_byte(b); // its right neighbour isn't known yet
        }
        self.finish_word(setting, b, out)
    }

    // One byte of the text.
    fn take_byte(&mut self, setting: &Setting, b: u8, out: &mut Writer)
        requires { Ready 1 self.old out.old }
        ensures { Steps setting.now.left setting.now.right setting.now.customer.now setting.now.house.now setting.now.table.now b self.old out.old self.new out.new }
    {
        if words::is_letter(b) {
            if self.run != states::HOLDING {
                return self.pass_on(b, states::GONE, out); // a letter of the run that was let go
            }
            if self.size < base::WORD_LIMIT {
                return self.hold_byte(b);
            }
            return self.let_go(b, out);
        }
        if b == words::APOSTROPHE {
            return self.take_apostrophe(setting, b, out);
        }
        self.finish_word(setting, b, out) // any other byte
    }

    // The bytes of a piece.
    pub fn take_bytes(&mut self, setting: &Setting, piece: &[u8], out: &mut Writer)
        requires { Ready (length piece.now) self.old out.old }
        ensures { Flows setting.now.left setting.now.right setting.now.customer.now setting.now.house.now setting.now.table.now piece.now self.old out.old self.new out.new }
    {
        for b in piece {
            self.take_byte(setting, *b, out);
        }
    }
}
