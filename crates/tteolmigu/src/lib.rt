// The C interface: the nine calls, each answer as one number of 64 bits. The crate tteolmigu_c exports them.
#![tactic(auto)]

ghost use Rattle.std.specs.Prelude.{◌≡◌, ◌+◌, ◌<◌, ◌≤◌, Ok, MatchResult, length};
ghost use Rattle.lookup.specs.Lookup.{locate};
ghost use Rattle.rightness.specs.Test.{judge_check};
ghost use Rattle.hyphenation.specs.Calls.{levels_answer, levels_room, breaks_answer, breaks_room};
ghost use Rattle.packer.specs.Pack.{pack_answer, pack_leaves};
ghost use Rattle.gauge.specs.Fit.{gauge_of, fit_said, fit_answer};
ghost use Rattle.base.specs.Limits.{budget1980};
ghost use Rattle.machine1980.specs.Calls.{said1980, answer1980, room1980};
ghost use Rattle.states.specs.Bytes.{of_bytes};
ghost use Rattle.running.specs.Calls.{piece_answer, piece_next, piece_room, end_answer, end_next, end_room};
ghost use Rattle.tteolmigu.specs.Bits.{bits_at, refusal_bits, found_bits, line_bits, answer_bits, packing_bits, check_bits, located_bits, fitting_bits, fit_bits, reprint_bits, bits1980, written_bits, text_bits, bytes_left};

use base::Ground;
use gauge::{Fitting, Gauge};
use hyphenation::{Found, Setting};
use lookup::Located;
use machine1980::Reprint;
use running::{Taken, Written};

// An answer as C gets it. Every part is cut to its own width (specs/Bits.antt), so that no sum overflows.
#[derive(Clone, Copy)]
struct Bits {
    number: u64,
}

// A number, cut to its last `width` bits, as it stands from bit `low` on.
fn bits_at(low: u32, width: u32, n: usize) -> u64
    requires low { low < 64 }
    requires width { width < 64 }
    requires both { low + width ≤ 64 }
    ensures { result ≡ bits_at low width n }
{
    (n as u64 % (1 << width)) << low
}

// A refusal: its number, list and place.
impl From<Ground> for Bits {
    ghost from_gives = { λ ground bits. bits.number ≡ refusal_bits ground };

    fn from(ground: Ground) -> Self {
        Bits {
            number: bits_at(56, 8, ground.number())
                + bits_at(48, 8, ground.list())
                + bits_at(0, 48, ground.place()),
        }
    }
}

// What a call finds, or its refusal.
impl<T: Into<Bits>> From<Result<T, Ground>> for Bits {
    ghost from_gives = { λ answer bits. MatchResult answer (λ found. T.Into.converts found bits) (λ ground. bits.number ≡ refusal_bits ground) };

    fn from(answer: Result<T, Ground>) -> Self {
        match answer {
            Ok(found) => found.into(),
            Err(ground) => ground.into(),
        }
    }
}

// The levels call and the hyphenating call.
impl From<Found> for Bits {
    ghost from_gives = { λ found bits. bits.number ≡ found_bits found.marks found.looks };

    fn from(found: Found) -> Self {
        Bits {
            number: bits_at(32, 16, found.marks) + bits_at(0, 32, found.looks),
        }
    }
}

// The packer: a table's length.
impl From<usize> for Bits {
    ghost from_gives = { λ size bits. bits.number ≡ bits_at 0 48 size };

    fn from(size: usize) -> Self {
        Bits {
            number: bits_at(0, 48, size),
        }
    }
}

// The checker, where it accepts.
impl From<()> for Bits {
    ghost from_gives = { λ _ bits. bits.number ≡ 0 };

    fn from(_accepted: ()) -> Self {
        Bits { number: 0 }
    }
}

// A line of the lookup.
fn line_bits(list: usize, start: usize, end: usize) -> u64
    ensures { result ≡ line_bits list start end }
{
    bits_at(48, 8, list) + bits_at(16, 32, start) + bits_at(0, 16, end.saturating_sub(start))
}

// The lookup.
impl From<Located> for Bits {
    ghost from_gives = { λ at bits. bits.number ≡ located_bits at };

    fn from(at: Located) -> Self {
        let number = match at {
            Located::Customer { start, end } => line_bits(base::CUSTOMER_LIST, start, end),
            Located::House { start, end } => line_bits(base::HOUSE_LIST, start, end),
            Located::Nowhere => 0,
        };
        Bits { number }
    }
}

// What comes out of the fitting call.
fn fitting_bits(outcome: usize, gap: usize) -> u64
    ensures { result ≡ fitting_bits outcome gap }
{
    bits_at(32, 8, outcome) + bits_at(0, 32, gap)
}

// The fitting call.
#[tactic(auto, unfolding(gauge::specs::Fit::fit_said))]
impl From<Fitting> for Bits {
    ghost from_gives = { λ fitting bits. bits.number ≡ fit_bits (fit_said (Ok fitting)) };

    fn from(fitting: Fitting) -> Self {
        let number = match fitting {
            Fitting::Whole => fitting_bits(gauge::WHOLE_OUTCOME, 0),
            Fitting::Break(gap) => fitting_bits(gauge::BREAK_OUTCOME, gap),
            Fitting::Nowhere => fitting_bits(gauge::NONE_OUTCOME, 0),
        };
        Bits { number }
    }
}

// What the 1980 machine comes to, with its breaks and the instructions executed.
fn reprint_bits(outcome: usize, breaks: usize, executed: usize) -> u64
    ensures { result ≡ reprint_bits outcome breaks executed }
{
    bits_at(48, 1, outcome) + bits_at(32, 16, breaks) + bits_at(0, 32, executed)
}

// The 1980 machine.
#[tactic(auto, unfolding(machine1980::specs::Calls::said1980))]
impl From<Option<Reprint>> for Bits {
    ghost from_gives = { λ found bits. bits.number ≡ bits1980 (said1980 (Ok found)) };

    fn from(found: Option<Reprint>) -> Self {
        let number = match found {
            Some(Reprint { breaks, executed }) => {
                reprint_bits(machine1980::ANSWERED_OUTCOME, breaks, executed)
            }
            None => reprint_bits(machine1980::RAN_OUT_OUTCOME, 0, 0),
        };
        Bits { number }
    }
}

// A running text's calls.
impl From<Written> for Bits {
    ghost from_gives = { λ written bits. bits.number ≡ written_bits written.length written.looks };

    fn from(written: Written) -> Self {
        let Written { length, looks } = written;
        Bits {
            number: bits_at(32, 24, length) + bits_at(0, 32, looks),
        }
    }
}

// The bits of a running text's answer; where it took something, its state's bytes are put too.
fn put_taken(taken: Taken, state: &mut [u8; states::STATE_SIZE]) -> u64
    ensures bits { result ≡ text_bits taken.answer }
    ensures state { state.new ≡ bytes_left taken.answer state.old taken.state }
{
    if taken.answer.is_ok() {
        states::put_bytes(taken.state, state);
    }
    Bits::from(taken.answer).number
}

// The setting of a call, by its parameters.
fn setting_of<'a>(
    left: u64,
    right: u64,
    customer: &'a [u8],
    house: &'a [u8],
    table: &'a [u8],
) -> Setting<'a>
    ensures { result ≡ record { left = left; right = right; customer = customer.entry; house = house.entry; table = table.entry } }
{
    Setting {
        left: left as usize,
        right: right as usize,
        customer,
        house,
        table,
    }
}

// The hyphenating call. Its parameters, and those of the calls below, are the exports'.
pub fn tteolmigu_hyphenate<'a>(
    left: u64,
    right: u64,
    word: &[u8],
    customer: &'a [u8],
    house: &'a [u8],
    table: &[u8],
    room: &mut [u8],
) -> u64
    ensures bits { result ≡ answer_bits (breaks_answer left right word.now customer.now house.now table.now (length room.old)) }
    ensures memory { room.new ≡ breaks_room left right word.now customer.now house.now table.now room.old }
{
    let setting = setting_of(left, right, customer, house, table);
    Bits::from(hyphenation::hyphenate(&setting, word, room)).number
}

// The levels call.
pub fn tteolmigu_levels(word: &[u8], table: &[u8], room: &mut [u8]) -> u64
    ensures bits { result ≡ answer_bits (levels_answer word.now table.now (length room.old)) }
    ensures memory { room.new ≡ levels_room word.now table.now room.old }
{
    Bits::from(hyphenation::levels(word, table, room)).number
}

// The packer.
pub fn tteolmigu_pack(patterns: &[u8], room: &mut [u8]) -> u64
    ensures bits { result ≡ packing_bits (pack_answer patterns.now (length room.old)) }
    ensures memory { room.new ≡ pack_leaves patterns.now room.old }
{
    Bits::from(packer::pack(patterns, room)).number
}

// The checker.
pub fn tteolmigu_check(patterns: &[u8], table: &[u8]) -> u64
    ensures { result ≡ check_bits (judge_check patterns.now table.now) }
{
    Bits::from(checker::check(patterns, table)).number
}

// The lookup.
pub fn tteolmigu_lookup(word: &[u8], customer: &[u8], house: &[u8]) -> u64
    ensures { result ≡ located_bits (locate word.now customer.now house.now) }
{
    Bits::from(lookup::locate_line(word, customer, house)).number
}

// The fitting call: which break of a word fits a line.
pub fn tteolmigu_fit(
    hyphen: f64,
    line: f64,
    widths: &[f64; base::WIDTH_COUNT],
    word: &[u8],
    room: &[u8],
) -> u64
    ensures { result ≡ fit_bits (fit_answer (gauge_of hyphen line) widths.now word.now room.now) }
{
    let gauge = Gauge { hyphen, line };
    Bits::from(gauge::fit_word(gauge, widths, word, room)).number
}

// The 1980 machine.
pub fn tteolmigu_1980(word: &[u8], room: &mut [u8]) -> u64
    ensures bits { result ≡ bits1980 (answer1980 budget1980 word.now (length room.old)) }
    ensures memory { room.new ≡ room1980 budget1980 word.now room.old }
{
    Bits::from(machine1980::hyphenate_1980(word, room)).number
}

// A piece of a running text.
pub fn tteolmigu_piece<'a>(
    state: &mut [u8; states::STATE_SIZE],
    left: u64,
    right: u64,
    customer: &'a [u8],
    house: &'a [u8],
    table: &[u8],
    piece: &[u8],
    room: &mut [u8],
) -> u64
    ensures bits { result ≡ text_bits (piece_answer (of_bytes state.old) left right customer.now house.now table.now piece.now (length room.old)) }
    ensures state { state.new ≡ bytes_left (piece_answer (of_bytes state.old) left right customer.now house.now table.now piece.now (length room.old)) state.old (piece_next (of_bytes state.old) left right customer.now house.now table.now piece.now (length room.old)) }
    ensures memory { room.new ≡ piece_room (of_bytes state.old) left right customer.now house.now table.now piece.now room.old }
{
    let setting = setting_of(left, right, customer, house, table);
    let given = states::read_bytes(state);
    let taken = running::take_piece(given, &setting, piece, room);
    put_taken(taken, state)
}

// The end of a running text.
pub fn tteolmigu_end<'a>(
    state: &mut [u8; states::STATE_SIZE],
    left: u64,
    right: u64,
    customer: &'a [u8],
    house: &'a [u8],
    table: &[u8],
    room: &mut [u8],
) -> u64
    ensures bits { result ≡ text_bits (end_answer (of_bytes state.old) left right customer.now house.now table.now (length room.old)) }
    ensures state { state.new ≡ bytes_left (end_answer (of_bytes state.old) left right customer.now house.now table.now (length room.old)) state.old (end_next (of_bytes state.old) left right customer.now house.now table.now (length room.old)) }
    ensures memory { room.new ≡ end_room (of_bytes state.old) left right customer.now house.now table.now room.old }
{
    let setting = setting_of(left, right, customer, house, table);
    let given = states::read_bytes(state);
    let taken = running::end_text(given, &setting, room);
    put_taken(taken, state)
}
