// Single lines of a text list: where one ends, whether it is good as it stands, and whether it ascends from the one above.
#![tactic(auto)]

ghost use Rattle.std.specs.Prelude.{◌≡◌, ◌||◌, ◌+◌, ◌≤◌, length, drop};
ghost use Rattle.words.specs.Symbols.{symbols_of, line_feed};
ghost use Rattle.lines.specs.Apostrophes.{apostrophes_fit, fit_if_any};
ghost use Rattle.lines.specs.Lines.{line_length, first_line, starts_with, good_pattern, good_exception};
ghost use Rattle.lines.specs.Order.{before};
ghost use Rattle.lines.specs.Ends.{end_if};

// Where the line that begins at a place ends: past its line feed, or at the text's end.
pub fn line_end(text: &[u8], at: usize) -> usize
    ensures { result ≡ at + line_length (drop at text.now) }
{
    let Some(rest) = text.get(at..) else {
        return at;
    };
    let line = rest
        .split_inclusive(|b| *b == words::LINE_FEED)
        .next()
        .unwrap_or(rest);
    at + line.len()
}

// May a "." stand here: as the first byte of its line, or with the line feed right after it, at i?
fn dot_fits(opening: bool, text: &[u8], i: usize) -> bool
    ensures { result ≡ (opening || starts_with line_feed (drop i text.now)) }
{
    if opening {
        return true;
    }
    if text.len() <= i {
        return false;
    }
    text[i] == words::LINE_FEED
}

// Stands on each side of an apostrophe of this line one of the 26 letters or, with `ends`, nothing? The line is read without digits and
// hyphens. `before`: so it is on the left of the next symbol; `waits`: the symbol before is an apostrophe, whose right side is open.
fn apostrophes_fit(ends: bool, line: &[u8]) -> bool
    ensures { result ≡ apostrophes_fit ends ends (symbols_of line.now) }
{
    let mut before = ends;
    let mut waits = false;
    for b in line {
        let s = words::symbol_of(*b);
        if s == 0 {
            continue;
        }
        if s <= base::LETTER_LIMIT {
            before = true;
            waits = false;
            continue;
        }
        if waits {
            return false;
        }
        if s == base::APOSTROPHE_SYMBOL {
            if !before {
                return false;
            }
            waits = true;
        }
        before = false;
    }
    if waits {
        return ends;
    }
    true
}

// Where a line ends whose bytes are good, if its apostrophes stand where they may. Most lines have none, and are not read again.
fn end_if_fit(ends: bool, apostrophes: bool, line: &[u8], end: usize) -> Option<usize>
    ensures { result ≡ end_if (fit_if_any ends apostrophes line.now) end }
{
    (!apostrophes || apostrophes_fit(ends, line)).then_some(end)
}

// The line that begins at a place, judged as a pattern line by itself: its form and its end are found in one pass. The loop goes by places of the
// text, since a place is what is told and what `dot_fits` looks behind.
pub fn pattern_end(text: &[u8], at: usize) -> Option<usize>
    ensures { result ≡ end_if (good_pattern (first_line (drop at text.now))) (at + line_length (drop at text.now)) }
{
    let mut opening = true;
    let mut after_digit = false;
    let mut letters = false;
    let mut digits = false;
    let mut apostrophes = false;
    let mut count: usize = 0;
    for i in at..text.len() {
        let b = text[i];
        if words::is_small(b) {
            letters = true;
            count += 1;
            after_digit = false;
            opening = false;
            continue;
        }
        if words::is_digit(b) {
            if after_digit {
                return None;
            }
            digits = true;
            after_digit = true;
            opening = false;
            continue;
        }
        if b == words::DOT {
            if !dot_fits(opening, text, i + 1) {
                return None;
            }
            count += 1;
            after_digit = false;
            opening = false;
            continue;
        }
        if b == words::APOSTROPHE {
            apostrophes = true; // none of the 26
            count += 1; // but a symbol
            after_digit = false;
            opening = false;
            continue;
        }
        if b != words::LINE_FEED {
            return None;
        }
        if !letters {
            return None;
        }
        if !digits {
            return None;
        }
        if base::PATTERN_LIMIT < count {
            return None;
        }
        return end_if_fit(true, apostrophes, &text[at..=i], i + 1);
    }
    None
}

// The same for an exception line. Most bytes are letters, and nothing is kept of them: `run` is where the letters in hand begin, and a
// line's letters, apostrophes among them, are its bytes without the hyphens. It goes by places, since `run` and the end that is told are places.
pub fn exception_end(text: &[u8], at: usize) -> Option<usize>
    ensures { result ≡ end_if (good_exception (first_line (drop at text.now))) (at + line_length (drop at text.now)) }
{
    let mut run = at;
    let mut hyphens: usize = 0;
    let mut apostrophes = false;
    for i in at..text.len() {
        let b = text[i];
        if words::is_small(b) {
            continue;
        }
        if b == words::APOSTROPHE {
            apostrophes = true; // as a letter, it may stand beside a hyphen
            continue;
        }
        if i == run {
            return None; // no letter stands before
        }
        let letters = i - at - hyphens;
        if b == words::HYPHEN {
            run = i + 1;
            hyphens += 1;
        } else {
            if b != words::LINE_FEED {
                return None;
            }
            if base::WORD_LIMIT < letters {
                return None;
            }
            return end_if_fit(false, apostrophes, &text[at..=i], i + 1);
        }
    }
    None
}

// How many leading bytes two lines share: their order is that of what is left of them.
fn same_bytes(above: &[u8], line: &[u8]) -> usize
    ensures { (result ≤ length above.now) × (result ≤ length line.now) × (before (symbols_of above.now) (symbols_of line.now) ≡ before (symbols_of (drop result above.now)) (symbols_of (drop result line.now))) }
{
    let both = above.len().min(line.len());
    for i in 0..both {
        if above[i] != line[i] {
            return i;
        }
    }
    both
}

// Do the symbols of a line ascend strictly from those of the line above?
pub fn ascends(above: &[u8], line: &[u8]) -> bool
    ensures { result ≡ before (symbols_of above.now) (symbols_of line.now) }
{
    // Each line goes on at its own pace, over bytes that are no symbols. The library's `cmp` of two iterators, proved too, took a tenth more
    // instructions for a full list that is judged and searched.
    let same = same_bytes(above, line);
    let mut i = same;
    let mut j = same;
    while j < line.len() {
        let y = words::symbol_of(line[j]);
        if y == 0 {
            j += 1;
        } else {
            if above.len() <= i {
                return true;
            }
            let x = words::symbol_of(above[i]);
            if x == 0 {
                i += 1;
            } else {
                if x < y {
                    return true;
                }
                if y < x {
                    return false;
                }
                i += 1;
                j += 1;
            }
        }
    }
    false // no symbol is left of the line
}
