// The exports for C, as include/tteolmigu.h declares them. Each is the function of its name in the crate tteolmigu, with its promise.
// A crate of its own, as the C interface needs: a library that other crates use, as `demands` uses tteolmigu, can't be an archive for C.
#![tactic(auto)]

ghost use Rattle.std.specs.Prelude.{◌≡◌, ◌-◌, length};
ghost use Rattle.lookup.specs.Lookup.{locate};
ghost use Rattle.rightness.specs.Test.{judge_check};
ghost use Rattle.hyphenation.specs.Calls.{levels_answer, levels_room, breaks_answer, breaks_room};
ghost use Rattle.packer.specs.Pack.{pack_answer, pack_leaves};
ghost use Rattle.gauge.specs.Fit.{gauge_of, fit_answer};
ghost use Rattle.base.specs.Limits.{budget1980};
ghost use Rattle.machine1980.specs.Calls.{answer1980, room1980};
ghost use Rattle.states.specs.Bytes.{of_bytes};
ghost use Rattle.running.specs.Calls.{piece_answer, piece_next, piece_room, end_answer, end_next, end_room};
ghost use Rattle.tteolmigu.specs.Bits.{answer_bits, packing_bits, check_bits, located_bits, fit_bits, bits1980, text_bits, bytes_left};

// The hyphenating call.
#[unsafe(no_mangle)]
pub extern "C" fn tteolmigu_hyphenate<'a>(
    left: u64,
    right: u64,
    word: &[u8],
    customer: &'a [u8],
    house: &'a [u8],
    table: &[u8],
    room: &mut [u8],
) -> u64
    ensures bits { result ≡ answer_bits (breaks_answer left right word.now customer.now house.now table.now (length room.old)) }
    ensures memory { room.new ≡ breaks_room left right word.now customer.now house.now table.now room.old }
{
    tteolmigu::tteolmigu_hyphenate(left, right, word, customer, house, table, room)
}

// The levels call.
#[unsafe(no_mangle)]
pub extern "C" fn tteolmigu_levels(word: &[u8], table: &[u8], room: &mut [u8]) -> u64
    ensures bits { result ≡ answer_bits (levels_answer word.now table.now (length room.old)) }
    ensures memory { room.new ≡ levels_room word.now table.now room.old }
{
    tteolmigu::tteolmigu_levels(word, table, room)
}

// The packer.
#[unsafe(no_mangle)]
pub extern "C" fn tteolmigu_pack(patterns: &[u8], room: &mut [u8]) -> u64
    ensures bits { result ≡ packing_bits (pack_answer patterns.now (length room.old)) }
    ensures memory { room.new ≡ pack_leaves patterns.now room.old }
{
    tteolmigu::tteolmigu_pack(patterns, room)
}

// The checker.
#[unsafe(no_mangle)]
pub extern "C" fn tteolmigu_check(patterns: &[u8], table: &[u8]) -> u64
    ensures { result ≡ check_bits (judge_check patterns.now table.now) }
{
    tteolmigu::tteolmigu_check(patterns, table)
}

// The lookup.
#[unsafe(no_mangle)]
pub extern "C" fn tteolmigu_lookup(word: &[u8], customer: &[u8], house: &[u8]) -> u64
    ensures { result ≡ located_bits (locate word.now customer.now house.now) }
{
    tteolmigu::tteolmigu_lookup(word, customer, house)
}

// The fitting call: which break of a word fits a line.
#[unsafe(no_mangle)]
pub extern "C" fn tteolmigu_fit(
    hyphen: f64,
    line: f64,
    widths: &[f64; base::WIDTH_COUNT],
    word: &[u8],
    room: &[u8],
) -> u64
    ensures { result ≡ fit_bits (fit_answer (gauge_of hyphen line) widths.now word.now room.now) }
{
    tteolmigu::tteolmigu_fit(hyphen, line, widths, word, room)
}

// The 1980 machine.
#[unsafe(no_mangle)]
pub extern "C" fn tteolmigu_1980(word: &[u8], room: &mut [u8]) -> u64
    ensures bits { result ≡ bits1980 (answer1980 budget1980 word.now (length room.old)) }
    ensures memory { room.new ≡ room1980 budget1980 word.now room.old }
{
    tteolmigu::tteolmigu_1980(word, room)
}

// A piece of a running text.
#[unsafe(no_mangle)]
pub extern "C" fn tteolmigu_piece<'a>(
    state: &mut [u8; states::STATE_SIZE],
    left: u64,
    right: u64,
    customer: &'a [u8],
    house: &'a [u8],
    table: &[u8],
    piece: &[u8],
    room: &mut [u8],
) -> u64
    ensures bits { result ≡ text_bits (piece_answer (of_bytes state.old) left right customer.now house.now table.now piece.now (length room.old)) }
    ensures state { state.new ≡ bytes_left (piece_answer (of_bytes state.old) left right customer.now house.now table.now piece.now (length room.old)) state.old (piece_next (of_bytes state.old) left right customer.now house.now table.now piece.now (length room.old)) }
    ensures memory { room.new ≡ piece_room (of_bytes state.old) left right customer.now house.now table.now piece.now room.old }
{
    tteolmigu::tteolmigu_piece(state, left, right, customer, house, table, piece, room)
}

// The end of a running text.
#[unsafe(no_mangle)]
pub extern "C" fn tteolmigu_end<'a>(
    state: &mut [u8; states::STATE_SIZE],
    left: u64,
    right: u64,
    customer: &'a [u8],
    house: &'a [u8],
    table: &[u8],
    room: &mut [u8],
) -> u64
    ensures bits { result ≡ text_bits (end_answer (of_bytes state.old) left right customer.now house.now table.now (length room.old)) }
    ensures state { state.new ≡ bytes_left (end_answer (of_bytes state.old) left right customer.now house.now table.now (length room.old)) state.old (end_next (of_bytes state.old) left right customer.now house.now table.now (length room.old)) }
    ensures memory { room.new ≡ end_room (of_bytes state.old) left right customer.now house.now table.now room.old }
{
    tteolmigu::tteolmigu_end(state, left, right, customer, house, table, room)
}
