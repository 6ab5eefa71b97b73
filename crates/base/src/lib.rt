// What every other crate shares: the limits, the grounds of a refusal, and their numbers.
#![tactic(auto)]

ghost use Rattle.std.specs.Prelude.{◌≡◌};
ghost use Rattle.base.specs.Grounds.{told};

// The limits of documents 01 and 02. specs/Limits.antt has each of them, with the sentence that sets it, under its name in small letters.
pub const WORD_LIMIT: usize = 63;

pub const ROOM_SIZE: usize = 64;

pub const ROW_LIMIT: usize = 65;

pub const LEVEL_LIMIT: u8 = 9;

pub const MARGIN_LIMIT: usize = 63;

pub const LETTER_LIMIT: u8 = 26;

pub const EDGE: u8 = 27;

pub const APOSTROPHE_SYMBOL: u8 = 28;

pub const SYMBOL_LIMIT: u8 = 28;

pub const PATTERN_LIMIT: usize = 16;

pub const PATTERN_TEXT: usize = 32768;

pub const EXCEPTION_TEXT: usize = 8192;

pub const CELL_LIMIT: usize = 8192;

pub const ENTRY_LIMIT: usize = 2048;

pub const PACK_ROOM: usize = 59398;

pub const WIDTH_COUNT: usize = 27;

pub const RUNNING_TEXT: usize = 1048576;

pub const ROOM_PER_BYTE: usize = 3;

pub const HELD_LIMIT: usize = WORD_LIMIT + 1;

// The 1980 machine's own (word_limit1980, room_size1980, short_word1980, budget1980). The first two are as large as limits above, and have
// names of their own, since they stay where those move.
pub const WORD_LIMIT_1980: usize = 63;

pub const ROOM_SIZE_1980: usize = 64;

pub const SHORT_WORD_1980: usize = 4;

pub const BUDGET_1980: usize = 20000;

// The numbers of the two exception lists. Numbers and no enum: `lists::judge_exceptions` takes any, and its ground tells it.
pub const CUSTOMER_LIST: usize = 1;

pub const HOUSE_LIST: usize = 2;

// Why a call refuses, with the list and the offset where document 01 tells a place.
#[derive(Clone, Copy, Debug, PartialEq, Eq)]
pub enum Ground {
    Margin,
    WordEmpty,
    NotLetter(usize),
    WordLong,
    RoomShort,
    BadException { list: usize, offset: usize },
    BadPattern(usize),
    TextLong,
    TableForm,
    PackRoomShort,
    NoFit,
    NotRight,
    BadWidth,
    TextRoomShort,
    RunningLong,
}

impl Ground {
    // The number by which the customer knows a ground.
    pub fn number(self) -> usize
        ensures { result ≡ (told self).number }
    {
        match self {
            Ground::Margin => 1,
            Ground::WordEmpty => 2,
            Ground::NotLetter(_) => 3,
            Ground::WordLong => 4,
            Ground::RoomShort => 5,
            Ground::BadException { .. } => 6,
            Ground::BadPattern(_) => 7,
            Ground::TextLong => 8,
            Ground::TableForm => 9,
            Ground::PackRoomShort => 10,
            Ground::NoFit => 11,
            Ground::NotRight => 12,
            Ground::BadWidth => 13,
            Ground::TextRoomShort => 14,
            Ground::RunningLong => 21,
        }
    }

    // The list that it names. No Option: `told` has 0 where none is, and so the answers of C have it.
    pub fn list(self) -> usize
        ensures { result ≡ (told self).list }
    {
        match self {
            Ground::BadException { list, .. } => list,
            _ => 0,
        }
    }

    // The place that it tells, in the same way 0 where none is.
    pub fn place(self) -> usize
        ensures { result ≡ (told self).place }
    {
        match self {
            Ground::NotLetter(at) => at,
            Ground::BadException { offset, .. } => offset,
            Ground::BadPattern(offset) => offset,
            _ => 0,
        }
    }
}
