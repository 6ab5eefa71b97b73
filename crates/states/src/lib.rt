// The state of a running text: what is kept of it between two calls, and which states the calls could have left.
#![tactic(auto)]

ghost use Rattle.std.specs.Prelude.{[], ◌≡◌, ◌≤◌, length, drop};
ghost use Rattle.base.specs.Limits.{held_limit};
ghost use Rattle.runs.specs.Text.{Holding};
ghost use Rattle.runs.specs.Reached.{is_word, can_be_held, is_reached};
ghost use Rattle.states.specs.Bytes.{state_size, of_bytes, state_bytes};
ghost use Rattle.states.specs.State.{state_of, all_zero, is_gone, are_left, is_left, Reads};

// How a run stands between two calls. Numbers and no enum, since C keeps the state as bytes and any byte may stand there: `run_of` of
// specs/State.antt says which number is whose, `held_by` what each comes to, and `is_left` which are none.
pub const HOLDING: u8 = 0;

pub const GONE: u8 = 1;

pub const GONE_MARKED: u8 = 2;

// How many bytes a state has before those that are held, and in all (specs/Bytes.antt).
pub const HEAD_SIZE: usize = 8;

pub const STATE_SIZE: usize = HEAD_SIZE + base::HELD_LIMIT;

// The bytes held, how many they are, the run, and how many bytes the text has so far. Bytes behind those held are 0. So they stand in C's
// 72 bytes (`state_bytes`), the number beside its buffer; and so this is another struct than `flowing::Flow`, which counts looks and has no
// total.
#[derive(Clone, Copy)]
pub struct TextState {
    pub held: [u8; base::HELD_LIMIT],
    pub size: u8,
    pub run: u8,
    pub total: u32,
}

// A new text's.
#[tactic(auto, unfolding(crate::specs::State::state_of, crate::specs::State::padded))]
pub fn new_text() -> TextState
    ensures { result ≡ state_of (Holding []) 0 }
{
    TextState {
        held: [0u8; base::HELD_LIMIT],
        size: 0,
        run: HOLDING,
        total: 0,
    }
}

// Are all bytes 0?
fn are_zero(bytes: &[u8]) -> bool
    ensures { result ≡ all_zero bytes.now }
{
    bytes.iter().all(|b| *b == 0)
}

// Does the hyphenating call take these bytes for a word?
fn is_word(bytes: &[u8]) -> bool
    ensures { result ≡ is_word bytes.now }
{
    words::judge_word(bytes, base::WORD_LIMIT).is_ok()
}

// Nothing, a word, or a word and an apostrophe behind it.
#[tactic(auto, unfolding(runs::specs::Reached::can_be_held, runs::specs::Held::waits))]
fn can_be_held(bytes: &[u8]) -> bool
    ensures { result ≡ can_be_held bytes.now }
{
    if bytes.is_empty() {
        return true;
    }
    if is_word(bytes) {
        return true;
    }
    match bytes {
        [word @ .., words::APOSTROPHE] => is_word(word),
        _ => false,
    }
}

// Could a text of so many bytes leave these bytes held?
#[tactic(auto, unfolding(runs::specs::Reached::is_reached))]
fn is_holding(bytes: &[u8], total: usize) -> bool
    ensures { result ≡ is_reached (Holding bytes.now) total }
{
    can_be_held(bytes) && bytes.len() <= total
}

// Could a text of so many bytes be in this run, which is let go?
#[tactic(auto, unfolding(crate::specs::State::is_gone, runs::specs::Reached::is_reached))]
fn is_gone(run: u8, total: usize) -> bool
    ensures { result ≡ is_gone run total }
{
    // `is_reached` has them so: letters past the limit, and an apostrophe behind. HELD_LIMIT is another thing's, which is as long.
    match run {
        GONE => base::WORD_LIMIT + 1 <= total,
        GONE_MARKED => base::WORD_LIMIT + 2 <= total,
        _ => false,
    }
}

// The parts of a state: could the calls have left it?
#[tactic(auto, unfolding(crate::specs::State::are_left))]
fn are_left(held: &[u8], size: usize, run: u8, total: usize) -> bool
    ensures { result ≡ are_left held.now size run total }
{
    if base::RUNNING_TEXT < total {
        return false;
    }
    if held.len() < size {
        return false;
    }
    if !are_zero(&held[size..]) {
        return false;
    }
    if run == HOLDING {
        return is_holding(&held[..size], total);
    }
    if size != 0 {
        return false; // a run that was let go holds nothing
    }
    is_gone(run, total)
}

// Is this a state that the calls could have left? (That its array has the length it is declared with is a fact for the caller's proof.)
#[tactic(auto, unfolding(crate::specs::State::is_left))]
pub fn is_left(s: TextState) -> bool
    ensures test { result ≡ is_left s }
    ensures wide { length s.held ≡ held_limit }
{
    let held = s.held;
    are_left(&held, s.size as usize, s.run, s.total as usize)
}

// A state as it is read: one that the calls couldn't have left is a new text's.
pub fn read_state(s: TextState) -> TextState
    ensures { Reads s result }
{
    if is_left(s) {
        return s;
    }
    new_text()
}

// A state by its bytes. Where the two that are always 0 aren't, it is none that the calls could have left.
#[tactic(auto, unfolding(crate::specs::Bytes::of_bytes, crate::specs::Bytes::total_of))]
pub fn read_bytes(bytes: &[u8]) -> TextState
    requires { length bytes.now ≡ state_size }
    ensures { result ≡ of_bytes bytes.now }
{
    let [size, run, high, second, third, low, 0, 0, kept @ ..] = bytes else {
        return new_text();
    };
    let mut held = [0u8; base::HELD_LIMIT];
    held.copy_from_slice(kept);
    TextState {
        held,
        size: *size,
        run: *run,
        total: u32::from_be_bytes([*high, *second, *third, *low]),
    }
}

// A state's bytes.
#[tactic(auto, unfolding(crate::specs::Bytes::state_bytes))]
pub fn put_bytes(s: TextState, bytes: &mut [u8])
    requires { length bytes.old ≡ state_size }
    ensures { bytes.new ≡ state_bytes s }
{
    let held = s.held;
    let [high, second, third, low] = s.total.to_be_bytes();
    bytes[..HEAD_SIZE].copy_from_slice(&[s.size, s.run, high, second, third, low, 0, 0]);
    bytes[HEAD_SIZE..].copy_from_slice(&held);
}
