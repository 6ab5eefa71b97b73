// The levels call and the hyphenating call.
#![tactic(auto)]

ghost use Rattle.std.specs.Prelude.{[], ◌≡◌, ◌≤◌, length, get_or};
ghost use Rattle.base.specs.Limits.{room_size, word_limit};
ghost use Rattle.base.specs.Grounds.{Finds, says, first_of};
ghost use Rattle.words.specs.Words.{judge_word};
ghost use Rattle.liang.specs.Breaks.{bad_margin, in_margins, level_break};
ghost use Rattle.rooms.specs.Rooms.{sheet, bit};
ghost use Rattle.hyphenation.specs.Breaks.{mark_hyphens};
ghost use Rattle.hyphenation.specs.Post.{line_sheet, Inside};
ghost use Rattle.hyphenation.specs.Calls.{room_grounds, margin_grounds, levels_grounds, hyphenate_grounds, word_alone_grounds, LevelsFound, Levels, BreaksFound, Breaks, WordBreaks};

use base::Ground;
use lookup::Located;
use table::Trie;
use words::Word;

// What a call found: how many bytes of the room it set, and the count of looks.
#[derive(Clone, Copy)]
pub struct Found {
    pub marks: usize,
    pub looks: usize,
}

// What stays the same from word to word: the margins, the exception lists and the table. Promises take its five parts, as the definitions of the
// calls do.
#[derive(Clone, Copy)]
pub struct Setting<'a> {
    pub left: usize,
    pub right: usize,
    pub customer: &'a [u8],
    pub house: &'a [u8],
    pub table: &'a [u8],
}

// The margins of a word, and how many letters it has.
#[derive(Clone, Copy)]
struct Margins {
    left: usize,
    right: usize,
    letters: usize,
}

impl Margins {
    // Do they fit around gap i?
    #[tactic(auto, unfolding(liang::specs::Breaks::in_margins))]
    fn fit(self, i: usize) -> bool
        ensures { result ≡ in_margins self.left self.right self.letters i }
    {
        self.left <= i && self.right <= self.letters.saturating_sub(i)
    }
}

// Ground 5.
#[tactic(auto, unfolding(base::specs::Grounds::says, base::specs::Grounds::first_of, crate::specs::Calls::room_grounds))]
pub fn judge_room(size: usize) -> Result<(), Ground>
    ensures { says result ≡ first_of (Finds []) (room_grounds size) }
{
    if rooms::is_short(size, base::ROOM_SIZE) {
        return Err(Ground::RoomShort);
    }
    Ok(())
}

#[tactic(auto, unfolding(liang::specs::Breaks::bad_margin))]
fn is_bad_margin(margin: usize) -> bool
    ensures { result ≡ bad_margin margin }
{
    margin < 1 || base::MARGIN_LIMIT < margin
}

// Ground 1.
#[tactic(auto, unfolding(base::specs::Grounds::says, base::specs::Grounds::first_of, crate::specs::Calls::margin_grounds))]
pub fn judge_margins(left: usize, right: usize) -> Result<(), Ground>
    ensures { says result ≡ first_of (Finds []) (margin_grounds left right) }
{
    if is_bad_margin(left) || is_bad_margin(right) {
        return Err(Ground::Margin);
    }
    Ok(())
}

// The grounds of the levels call: 5, 2, 4, 3, 9.
pub fn judge_levels(word: &[u8], table: &[u8], size: usize) -> Result<(), Ground>
    ensures { says result ≡ first_of (Finds []) (levels_grounds word.now table.now size) }
{
    judge_word_alone(word, size)?;
    table::judge_table(table)
}

// The grounds of the hyphenating call for a word alone: 5, 2, 4, 3.
pub fn judge_word_alone(word: &[u8], size: usize) -> Result<(), Ground>
    ensures { says result ≡ first_of (Finds []) (word_alone_grounds word.now size) }
{
    judge_room(size)?;
    words::judge_word(word, base::WORD_LIMIT) // its own grounds
}

// The grounds of the hyphenating call: 1, 5, 2, 4, 3, 8, 6, 9.
pub fn judge_hyphenate(setting: &Setting, word: &[u8], size: usize) -> Result<(), Ground>
    ensures { says result ≡ first_of (Finds []) (hyphenate_grounds setting.now.left setting.now.right word.now setting.now.customer.now setting.now.house.now setting.now.table.now size) }
{
    judge_margins(setting.left, setting.right)?;
    judge_room(size)?;
    words::judge_word(word, base::WORD_LIMIT)?;
    lists::judge_lists(setting.customer, setting.house)?;
    table::judge_table(setting.table)
}

// Those hyphens of an exception line that count, put into the room. The gap counts the bytes that aren't hyphens: it is no turn's number, so
// that no iterator has it. A mark is a byte and no bool, here and below, since the room is C's and any byte of it but 0 is a break.
#[tactic(auto, using(crate::proofs::Laws::mark_outside, crate::proofs::Laws::mark_far, crate::proofs::Laws::mark_end))]
fn mark_line(margins: Margins, line: &[u8], room: &mut [u8; base::ROOM_SIZE])
    ensures { room.new ≡ mark_hyphens (in_margins margins.left margins.right margins.letters) 0 line.now room.old }
{
    let mut gap: usize = 0;
    for b in line {
        if *b != words::HYPHEN {
            gap += 1;
            continue;
        }
        if base::ROOM_SIZE <= gap {
            continue;
        }
        if !margins.fit(gap) {
            continue;
        }
        room[gap] = 1;
    }
}

// The levels of a word put into a room as breaks: only gaps inside the margins are looked at.
fn put_breaks(margins: Margins, levels: &[u8; base::ROOM_SIZE], room: &mut [u8; base::ROOM_SIZE])
    requires { (margins.letters ≤ word_limit) × Inside margins.letters levels.now }
    ensures { room.new ≡ sheet room_size (λ i. bit (level_break margins.left margins.right margins.letters (λ k. get_or levels.now k 0) i)) }
{
    *room = [0; base::ROOM_SIZE];
    if margins.letters < margins.right {
        return;
    }
    let last = margins.letters - margins.right;
    // Where the margins meet no gap is left, and the range is empty: as two zipped parts this would ask that first, since a part whose
    // end lies before its start is an error.
    for i in margins.left..last + 1 {
        room[i] = levels[i] % 2;
    }
}

// The levels of a judged word.
fn find_levels(trie: &Trie, word: &Word, room: &mut [u8; base::ROOM_SIZE]) -> Found
    ensures { LevelsFound trie.now.cells.now trie.now.entries.now trie.now.root word.now.bytes.now result room.new }
{
    let looks = walk::walk_word(trie, word, room);
    let marks = rooms::count_marks(&room[..], base::ROOM_SIZE);
    Found { marks, looks }
}

// The breaks of a word by its exception line.
#[tactic(auto, using(crate::proofs::Rooms::line_room))]
fn put_line_breaks(margins: Margins, line: &[u8], room: &mut [u8; base::ROOM_SIZE])
    ensures { room.new ≡ line_sheet margins.left margins.right margins.letters line.now }
{
    *room = [0; base::ROOM_SIZE];
    mark_line(margins, line, room);
}

// The breaks of a judged word. What they are read from comes beside the setting: nothing here speaks of a table's head.
#[tactic(auto, using(words::proofs::Laws::word_fits, crate::proofs::Rooms::raised_inside, lookup::proofs::Laws::customer_within, lookup::proofs::Laws::house_within))]
fn find_breaks(
    setting: &Setting,
    trie: &Trie,
    word: &Word,
    room: &mut [u8; base::ROOM_SIZE],
) -> Found
    ensures { BreaksFound setting.now.left setting.now.right word.now.bytes.now setting.now.customer.now setting.now.house.now trie.now.cells.now trie.now.entries.now trie.now.root result room.new }
{
    let Setting {
        left,
        right,
        customer,
        house,
        ..
    } = *setting;
    let margins = Margins {
        left,
        right,
        letters: word.bytes.len(),
    };
    let looks = match lookup::find_either(word.bytes, customer, house) {
        Located::Customer { start, end } => {
            put_line_breaks(margins, &customer[start..end], room);
            0 // a customer's line takes no look
        }
        Located::House { start, end } => {
            put_line_breaks(margins, &house[start..end], room);
            0 // nor does the house's
        }
        Located::Nowhere => {
            let mut levels = [0u8; base::ROOM_SIZE];
            let looks = walk::walk_word(trie, word, &mut levels);
            put_breaks(margins, &levels, room);
            looks
        }
    };
    let marks = rooms::count_marks(&room[..], base::ROOM_SIZE);
    Found { marks, looks }
}

// Three calls. They differ in what they judge and in what they then find, and share the lines that make an array of C's room: one function of
// these would take two closures, and its promise what each finds, which is longer than the lines. No judged room is too short for the array.

// The levels call.
pub fn levels(word: &[u8], table: &[u8], room: &mut [u8]) -> Result<Found, Ground>
    ensures { Levels word.now table.now room.old result room.new }
{
    judge_levels(word, table, room.len())?;
    let Some(room) = room.first_chunk_mut() else {
        return Err(Ground::RoomShort); // judged above
    };
    Ok(find_levels(&table::trie_of(table), &Word { bytes: word }, room))
}

// The hyphenating call.
pub fn hyphenate(setting: &Setting, word: &[u8], room: &mut [u8]) -> Result<Found, Ground>
    ensures { Breaks setting.now.left setting.now.right word.now setting.now.customer.now setting.now.house.now setting.now.table.now room.old result room.new }
{
    judge_hyphenate(setting, word, room.len())?;
    let Some(room) = room.first_chunk_mut() else {
        return Err(Ground::RoomShort); // judged above
    };
    let trie = table::trie_of(setting.table);
    Ok(find_breaks(setting, &trie, &Word { bytes: word }, room)) // the judged word
}

// The hyphenating call for a word, where margins, lists and table were judged before: whoever has many words judges these once.
// Room and word it judges itself. Over lists or a table that weren't judged it still is safe and ends.
pub fn hyphenate_word(setting: &Setting, word: &[u8], room: &mut [u8]) -> Result<Found, Ground>
    ensures { WordBreaks setting.now.left setting.now.right word.now setting.now.customer.now setting.now.house.now setting.now.table.now room.old result room.new }
{
    judge_word_alone(word, room.len())?;
    let Some(room) = room.first_chunk_mut() else {
        return Err(Ground::RoomShort); // judged above
    };
    let trie = table::trie_of(setting.table);
    Ok(find_breaks(setting, &trie, &Word { bytes: word }, room))
}
