// The call of the 1980 machine: phases 2 to 5 of source document 004 for archive reprints. CR 4.
#![tactic(auto)]

ghost use Rattle.std.specs.Prelude.{[], ◌≡◌, ◌+◌, ◌<◌, ◌≤◌, length};
ghost use Rattle.base.specs.Limits.{word_limit1980, room_size1980, short_word1980, budget1980};
ghost use Rattle.base.specs.Grounds.{Finds, says, first_of};
ghost use Rattle.words.specs.Words.{judge_letters};
ghost use Rattle.rooms.specs.Rooms.{written, bit};
ghost use Rattle.sheet1980.specs.Sheet.{Sheet};
ghost use Rattle.prefix1980.specs.Prefixes.{phase3};
ghost use Rattle.machine1980.specs.Run.{from_prefixes, run};
ghost use Rattle.machine1980.specs.Breaks.{shows, break_sheet};
ghost use Rattle.machine1980.specs.Calls.{grounds1980, Reprints};
ghost use Rattle.machine1980.specs.Post.{joined, Answered};

use base::Ground;

// What the call finds: how many breaks it put into the room, and how many instructions were executed. Where one more instruction is
// needed than there is budget for, it finds none.
#[derive(Clone, Copy)]
pub struct Reprint {
    pub breaks: usize,
    pub executed: usize,
}

// What came out, by its number (specs/Calls.antt): the bits of the C interface tell it.
pub const ANSWERED_OUTCOME: usize = 0;

pub const RAN_OUT_OUTCOME: usize = 1;

// What the machines come to on a sheet.
#[derive(Clone, Copy)]
pub struct Made {
    pub finale: usize,
    pub executed: usize,
}

// Hyphens show before letters 3 to n - 2, that is in gaps 2 to n - 3: this is the first, and these are the letters behind the last.
const FIRST_GAP: usize = 2;

const LAST_LETTERS: usize = 3;

// The longest word between two null codes.
const SHEET_SIZE: usize = base::WORD_LIMIT_1980 + 2;

// The grounds of the call: 5, 2, 4, 3.
#[tactic(auto, unfolding(crate::specs::Calls::grounds1980, base::specs::Grounds::says, base::specs::Grounds::first_of))]
pub fn judge_1980(word: &[u8], size: usize) -> Result<(), Ground>
    ensures { says result ≡ first_of (Finds []) (grounds1980 word.now size) }
{
    if rooms::is_short(size, base::ROOM_SIZE_1980) {
        return Err(Ground::RoomShort);
    }
    words::judge_letters(word, base::WORD_LIMIT_1980)
}

// Phases 2 to 4: what the first machine leaves of the budget is the second's.
#[tactic(auto, unfolding(crate::specs::Run::run, crate::specs::Run::from_suffixes, crate::specs::Run::from_prefixes))]
fn run_machine(budget: usize, n: usize, sheet: &mut [u8]) -> Option<Made>
    requires { (short_word1980 < n) × (n ≤ word_limit1980) × Sheet n sheet.old }
    ensures { joined result sheet.new ≡ run budget n sheet.old }
{
    let suffixed = suffix1980::remove_suffixes(budget, n, sheet)?;
    let finale = suffixed.next;
    let prefixed = prefix1980::remove_prefixes(suffixed.left, n, sheet)?;
    middle1980::mark_middle(finale, n, prefixed.next, sheet);
    Some(Made {
        finale,
        executed: budget - prefixed.left,
    })
}

// Does a hyphen show before letter k?
#[tactic(auto, unfolding(crate::specs::Breaks::shows))]
fn is_shown(finale: usize, sheet: &[u8], k: usize) -> bool
    requires { k ≤ word_limit1980 }
    ensures { result ≡ shows finale sheet.now k }
{
    let at = sheet1980::U + k;
    if sheet1980::code_at(sheet, at) != 0 {
        return false; // no hyphen stands there: most letters end here
    }
    at + 2 < finale || finale < at
}

// The hyphens that show, put into a room as breaks.
fn put_breaks(n: usize, finale: usize, sheet: &[u8], room: &mut [u8])
    requires { (n ≤ word_limit1980) × (room_size1980 ≤ length room.old) }
    ensures { room.new ≡ written room_size1980 (break_sheet n finale sheet.now) room.old }
{
    rooms::clear_from(room, 0, base::ROOM_SIZE_1980);
    let end = (n + 1).saturating_sub(LAST_LETTERS);
    for gap in FIRST_GAP..end {
        room[gap] = u8::from(is_shown(finale, sheet, gap + 1));
    }
}

// What is found of a judged word in a judged room, which is written at the end.
#[tactic(auto, using(words::proofs::Laws::letters_fit, rooms::proofs::Laws::cleared_sheet, crate::proofs::Written::written, crate::proofs::Laws::taken, crate::proofs::Laws::no_breaks, crate::proofs::Laws::no_marks_short), unfolding(crate::specs::Calls::said1980, crate::specs::Calls::values_of, crate::specs::Calls::left_by, crate::specs::Run::machine))]
fn find_breaks(budget: usize, word: &[u8], room: &mut [u8]) -> Option<Reprint>
    requires { (judge_letters word_limit1980 word.now ≡ Ok tt) × (room_size1980 ≤ length room.old) }
    ensures { Answered budget word.now room.old (Ok result) room.new }
{
    let n = word.len();
    if n <= base::SHORT_WORD_1980 {
        rooms::clear_from(room, 0, base::ROOM_SIZE_1980);
        return Some(Reprint {
            breaks: 0,
            executed: 0,
        });
    }
    let mut codes = [0u8; SHEET_SIZE];
    let sheet = &mut codes[..n + 2];
    sheet1980::write_word(word, sheet);
    let made = run_machine(budget, n, sheet)?;
    put_breaks(n, made.finale, sheet, room);
    Some(Reprint {
        breaks: rooms::count_marks(room, base::ROOM_SIZE_1980),
        executed: made.executed,
    })
}

// The call under a budget.
#[tactic(auto, using(crate::proofs::Order::sizes))]
pub fn hyphenate_within(
    budget: usize,
    word: &[u8],
    room: &mut [u8],
) -> Result<Option<Reprint>, Ground>
    ensures { Reprints budget word.now room.old result room.new }
{
    judge_1980(word, room.len())?;
    Ok(find_breaks(budget, word, room))
}

// The call.
pub fn hyphenate_1980(word: &[u8], room: &mut [u8]) -> Result<Option<Reprint>, Ground>
    ensures { Reprints budget1980 word.now room.old result room.new }
{
    hyphenate_within(base::BUDGET_1980, word, room)
}
