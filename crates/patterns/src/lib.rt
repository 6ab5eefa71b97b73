// One pattern line by numbers: its symbols, its levels, and what two lines share.
#![tactic(auto)]

ghost use Rattle.std.specs.Prelude.{◌≡◌, ◌-◌, map, length, drop, get_or, set};
ghost use Rattle.lines.specs.Lines.{cut};
ghost use Rattle.words.specs.Symbols.{symbols_of};
ghost use Rattle.liang.specs.Patterns.{levels_from, pattern_of};
ghost use Rattle.patterns.specs.Common.{common};
ghost use Rattle.patterns.specs.Post.{Parts};
ghost use Rattle.patterns.specs.Next.{next_mask};

// The size of a mask, in which each symbol has its mark at its own number; number 0 is no symbol's.
pub const MASK_SIZE: usize = base::SYMBOL_LIMIT as usize + 1;

// How many symbols a line has.
#[tactic(auto, using(crate::proofs::Laws::symbols_chain))]
pub fn symbol_count(line: &[u8]) -> usize
    ensures { result ≡ length (symbols_of line.now) }
{
    line.iter()
        .map(|b| words::symbol_of(*b))
        .filter(|s| *s != 0)
        .count()
}

// A line's symbol by its number, from 0; 0 where there is none. No Option: whoever calls adds it to a base or marks its place, with 0 for
// none as `next_mask` and `cell_of` have it, and would have to make 0 of `None` each time.
pub fn symbol_at(line: &[u8], number: usize) -> u8
    ensures { result ≡ get_or (symbols_of line.now) number 0 }
{
    line.iter()
        .map(|b| words::symbol_of(*b))
        .filter(|s| *s != 0)
        .nth(number)
        .unwrap_or(0)
}

// The level of a pattern's gap with so many symbols before it; 0 where there is none. No Option: 0 is a level of `levels_from`, that of a
// gap without a digit, and whoever asks for a pattern's gaps passes over it.
#[tactic(auto, using(crate::proofs::Laws::rest_of_levels))]
pub fn level_at(line: &[u8], gap: usize) -> u8
    ensures { result ≡ get_or (levels_from 0 line.now) gap 0 }
{
    // `left` counts the symbols down: a level belongs to the gap before the next symbol, and one chain would have to carry both anyway.
    let mut left = gap;
    let mut level: u8 = 0;
    for b in line {
        if words::is_digit(*b) {
            level = digit_value(*b);
        } else if words::symbol_of(*b) != 0 {
            if left == 0 {
                return level;
            }
            left -= 1;
            level = 0;
        }
    }
    if left == 0 {
        return level;
    }
    0
}

// The number that a digit stands for.
pub fn digit_value(b: u8) -> u8
    ensures { result ≡ b - 48 }
{
    b.saturating_sub(b'0')
}

// Where two lines part: how many leading symbols they share, and the first one's next symbol, 0 where it has none: no Option, since
// `Parts` has it so, and `none_between` begins above 0 in either case.
#[derive(Clone, Copy)]
pub struct Parting {
    pub shared: usize,
    pub symbol: u8,
}

// Where two lines part.
pub fn part_lines(a: &[u8], b: &[u8]) -> Parting
    ensures { Parts (symbols_of a.now) (symbols_of b.now) result.shared result.symbol }
{
    // Each line goes on at its own pace, over bytes that are no symbols. The two chains of symbols by the library's `zip`, `take_while` and `count`,
    // proved too, with the symbol read behind them, took 9 percent more instructions for the whole of `verify` on data/en-us.pat.
    let mut count: usize = 0;
    let mut i = 0;
    let mut j = 0;
    while i < a.len() {
        let x = words::symbol_of(a[i]);
        if x == 0 {
            i += 1;
        } else {
            if b.len() <= j {
                return Parting {
                    shared: count,
                    symbol: x,
                };
            }
            let y = words::symbol_of(b[j]);
            if y == 0 {
                j += 1;
            } else {
                if x != y {
                    return Parting {
                        shared: count,
                        symbol: x,
                    };
                }
                count += 1;
                i += 1;
                j += 1;
            }
        }
    }
    Parting {
        shared: count,
        symbol: 0,
    }
}

// How many leading symbols two lines share.
pub fn shared(a: &[u8], b: &[u8]) -> usize
    ensures { result ≡ common (symbols_of a.now) (symbols_of b.now) }
{
    let at = part_lines(a, b);
    at.shared
}

// A mark in a mask, where it has that place: 1 and no bool, since `next_mask` sets 1 in a list of bytes. By index: `get_mut` promises nothing
// of what the slice ends as.
fn mark_symbol(mask: &mut [u8], symbol: u8)
    ensures { mask.new ≡ set mask.old symbol 1 }
{
    let at = symbol as usize;
    if at < mask.len() {
        mask[at] = 1;
    }
}

// Marks the symbols with which patterns go on behind the first m symbols of own. They are read from a place of the text on.
pub fn mark_next(own: &[u8], m: usize, text: &[u8], at: usize, mask: &mut [u8])
    ensures { mask.new ≡ next_mask m (symbols_of own.now) (map pattern_of (cut (drop at text.now))) mask.old }
{
    let Some(rest) = text.get(at..) else {
        return;
    };
    for line in rest.split_inclusive(|b| *b == words::LINE_FEED) {
        if shared(own, line) < m {
            return;
        }
        mark_symbol(mask, symbol_at(line, m));
    }
}
