// First fit's placing: the cells of a list's paths, in lent rooms. In `mask` and `taken` a mark is the number 1, for `marked`, `serves` and
// `Fits` have marks as numbers.
#![tactic(auto)]

ghost use Rattle.std.specs.Prelude.{ℕ, Bool, not, ◌||◌, [], ◌≡◌, ◌+◌, ◌-◌, ◌≤◌, ◌<◌, length, take, set};
ghost use Rattle.base.specs.Limits.{symbol_limit, cell_limit};
ghost use Rattle.words.specs.Symbols.{symbols_of};
ghost use Rattle.liang.specs.Patterns.{patterns_of};
ghost use Rattle.base.specs.Tests.{all_from, smallest};
ghost use Rattle.patterns.specs.Next.{opens};
ghost use Rattle.fit.specs.Cells.{Fits, is_free, serves, base_for, inside, put_cell, put_cells, cell_of, put_link, place, place_length, place_list};
ghost use Rattle.placing.specs.Post.{marked, Tests, place_line, cell_numbers, Placed};

// Do all marked symbols pass a test? A loop: with `all` the proof was tried and didn't close, since the promise is for every test that the
// closure computes.
fn all_marked<F: Fn(u8) -> bool>(mask: &[u8; patterns::MASK_SIZE], passes: F) -> bool
    requires { F.IsAlwaysCallable passes }
    ensures { (test : ℕ → Bool) → Tests (F.post passes) test → result ≡ all_from (λ s. not (marked mask.now s) || test s) 1 symbol_limit }
{
    for symbol in 1..=base::SYMBOL_LIMIT {
        if mask[symbol as usize] != 1 {
            continue;
        }
        if !passes(symbol) {
            return false;
        }
    }
    true
}

// Is the cell numbered base + symbol free?
fn is_free(cells: &[u8; table::CELL_ROOM], base: u16, symbol: u8) -> bool
    ensures { result ≡ is_free cells.now (base + symbol) }
{
    let at = table::CELL_SIZE * (base as usize + symbol as usize) + 1;
    cells.get(at).is_none_or(|b| *b == 0)
}

// Are all cells free that the marked symbols need at a base?
fn are_free(cells: &[u8; table::CELL_ROOM], mask: &[u8; patterns::MASK_SIZE], base: u16) -> bool
    ensures { result ≡ all_from (λ s. not (marked mask.now s) || is_free cells.now (base + s)) 1 symbol_limit }
{
    all_marked(mask, |symbol| is_free(cells, base, symbol))
}

// A symbol to try before the others: the first that is marked, and the limit where none is.
fn first_marked(mask: &[u8; patterns::MASK_SIZE]) -> u8
    ensures { (1 ≤ result) × (result ≤ symbol_limit) }
{
    for symbol in 1..base::SYMBOL_LIMIT {
        if mask[symbol as usize] == 1 {
            return symbol;
        }
    }
    base::SYMBOL_LIMIT
}

// What a base is sought for: the layout so far, and the symbols that want cells.
#[derive(Clone, Copy)]
struct Sought<'a> {
    cells: &'a [u8; table::CELL_ROOM],
    taken: &'a [u8; base::CELL_LIMIT],
    mask: &'a [u8; patterns::MASK_SIZE],
}

// Does a base serve: no path has it, and the cells it needs are free? One symbol's cell is tried first, which decides most bases.
#[tactic(auto, unfolding(fit::specs::Cells::serves), using(crate::proofs::Laws::serves_used))]
fn is_serving(s: &Sought, base: u16, first: u8) -> bool
    requires { (base < cell_limit) × (1 ≤ first) × (first ≤ symbol_limit) }
    ensures { result ≡ serves s.now.cells.now s.now.taken.now (marked s.now.mask.now) base }
{
    if s.taken[base as usize] != 0 {
        return false;
    }
    if s.mask[first as usize] == 1 && !is_free(s.cells, base, first) {
        return false;
    }
    are_free(s.cells, s.mask, base)
}

// The smallest base from 1 up that serves, or the limit of cells. No Option: `smallest` and `base_for` have it so, and `is_inside` refuses
// the limit wherever a symbol is marked.
fn find_base(s: &Sought) -> u16
    ensures { result ≡ smallest (serves s.now.cells.now s.now.taken.now (marked s.now.mask.now)) 1 (cell_limit - 1) }
{
    let first = first_marked(s.mask);
    (1..base::CELL_LIMIT as u16)
        .find(|base| is_serving(s, *base, first))
        .unwrap_or(base::CELL_LIMIT as u16)
}

// Are all cells that the marked symbols need at a base below the limit?
fn is_inside(mask: &[u8; patterns::MASK_SIZE], base: u16) -> bool
    ensures { result ≡ inside (marked mask.now) base }
{
    all_marked(mask, |symbol| {
        base as usize + (symbol as usize) < base::CELL_LIMIT
    })
}

// A cell's kind and symbol, where there is such a cell.
#[tactic(auto, unfolding(fit::specs::Cells::put_cell), using(crate::proofs::Laws::cell_out))]
fn put_cell(cells: &mut [u8; table::CELL_ROOM], n: usize, symbol: u8)
    requires { n < cell_numbers }
    ensures { cells.new ≡ put_cell n symbol cells.old }
{
    let at = table::CELL_SIZE * n;
    if at < cells.len() {
        cells[at] = table::CELL_KIND;
        cells[at + 1] = symbol;
    }
}

// The cells of the marked symbols at a base. A symbol is the mask's place, the cell's number and its byte: its number is what the loop is over.
#[tactic(auto, using(crate::proofs::Laws::cells_marked, crate::proofs::Laws::cells_other, crate::proofs::Laws::cells_end))]
fn put_cells(cells: &mut [u8; table::CELL_ROOM], mask: &[u8; patterns::MASK_SIZE], base: u16)
    ensures { cells.new ≡ put_cells (marked mask.now) base 1 symbol_limit cells.old }
{
    for symbol in 1..=base::SYMBOL_LIMIT {
        if mask[symbol as usize] != 1 {
            continue;
        }
        put_cell(cells, base as usize + symbol as usize, symbol);
    }
}

// The number of the cell that the first m symbols of a line end in, walked from the root's base.
// Each symbol is asked for by its number: one walk over all m would read the link of the last one too, or part it from the others.
#[tactic(auto, using(crate::proofs::Laws::cell_on, crate::proofs::Laws::cell_last))]
pub fn cell_of(cells: &[u8], root: u16, own: &[u8], m: usize) -> usize
    requires { (0 < m) × (m ≤ length (symbols_of own.now)) }
    ensures value { result ≡ cell_of cells.now root (take m (symbols_of own.now)) }
    ensures upper_bound { result < cell_numbers }
{
    let mut base = root;
    let last = m - 1;
    for i in 0..last {
        let n = base as usize + patterns::symbol_at(own, i) as usize;
        base = table::number_at(cells, table::CELL_SIZE * n + 2);
    }
    base as usize + patterns::symbol_at(own, last) as usize
}

// A path to place: the first m symbols of a line, and the text from that line on, in which patterns go on behind them.
#[derive(Clone, Copy)]
struct Path<'a> {
    own: &'a [u8],
    m: usize,
    text: &'a [u8],
}

// A path's base as the link of its last cell. The root has none.
#[tactic(auto, unfolding(fit::specs::Cells::put_link), using(crate::proofs::Laws::some_link))]
fn put_link(cells: &mut [u8; table::CELL_ROOM], root: u16, path: &Path, base: u16)
    requires { path.now.m ≤ length (symbols_of path.now.own.now) }
    ensures { cells.new ≡ put_link root (take path.now.m (symbols_of path.now.own.now)) base cells.old }
{
    if path.m == 0 {
        return;
    }
    let cell = cell_of(cells, root, path.own, path.m);
    table::put_number(cells, table::CELL_SIZE * cell + 2, base);
}

// The base that a path of m symbols gets: the root's is given.
#[tactic(auto, unfolding(fit::specs::Cells::base_for))]
fn base_for(root: u16, m: usize, s: &Sought) -> u16
    ensures { result ≡ base_for root m s.now.cells.now s.now.taken.now (marked s.now.mask.now) }
{
    if m == 0 {
        return root;
    }
    find_base(s)
}

// A mark that a base is taken, where there is such a base. By index: `get_mut` promises nothing of what the slice ends as.
fn take_base(taken: &mut [u8; base::CELL_LIMIT], base: u16)
    ensures { taken.new ≡ set taken.old base 1 }
{
    let at = base as usize;
    if at < taken.len() {
        taken[at] = 1;
    }
}

// A path gets its base. Cells, marks and the root's base stay three parameters: of a struct that keeps the lent cells each method would have to
// promise that it still keeps them. Whether it fits is a Bool, here and in what calls this, since `Placed` has one.
#[tactic(auto, using(crate::proofs::Laws::path_full, crate::proofs::Laws::path_fits))]
fn place_path(
    cells: &mut [u8; table::CELL_ROOM],
    taken: &mut [u8; base::CELL_LIMIT],
    root: u16,
    path: &Path,
) -> bool
    requires { path.now.m ≤ length (symbols_of path.now.own.now) }
    ensures { Placed (place root path.now.m (symbols_of path.now.own.now) (patterns_of path.now.text.now) (Fits cells.old taken.old)) result cells.new taken.new }
{
    let mut mask = [0u8; patterns::MASK_SIZE];
    patterns::mark_next(path.own, path.m, path.text, 0, &mut mask);
    let sought = Sought {
        cells,
        taken,
        mask: &mask,
    };
    let base = base_for(root, path.m, &sought);
    if !is_inside(&mask, base) {
        return false;
    }
    put_cells(cells, &mask, base);
    put_link(cells, root, path, base);
    take_base(taken, base);
    true
}

// Does a line go on behind its first m symbols where the one above it does not behind the same?
#[tactic(auto, unfolding(patterns::specs::Next::opens))]
fn is_opening(m: usize, above: &[u8], own: &[u8]) -> bool
    ensures { result ≡ opens m (symbols_of above.now) (symbols_of own.now) }
{
    if patterns::symbol_count(own) <= m {
        return false;
    }
    if patterns::shared(above, own) < m {
        return true;
    }
    patterns::symbol_count(above) <= m
}

// A path is placed where its line opens it, below the line above.
#[tactic(auto, using(crate::proofs::Laws::opens_long))]
fn place_line(
    cells: &mut [u8; table::CELL_ROOM],
    taken: &mut [u8; base::CELL_LIMIT],
    root: u16,
    above: &[u8],
    path: &Path,
) -> bool
    ensures { Placed (place_line root path.now.m (symbols_of above.now) (symbols_of path.now.own.now) (patterns_of path.now.text.now) (Fits cells.old taken.old)) result cells.new taken.new }
{
    if !is_opening(path.m, above, path.own) {
        return true;
    }
    place_path(cells, taken, root, path)
}

// All paths of m symbols, in the text's order.
#[tactic(auto, using(crate::proofs::Laws::placed, crate::proofs::Laws::refused, crate::proofs::Laws::some_left, crate::proofs::Laws::none_left, crate::proofs::Laws::length_begin, crate::proofs::Laws::length_stop, crate::proofs::Laws::length_on, crate::proofs::Laws::length_done, lines::proofs::Laws::line_starts, lines::proofs::Laws::line_ends))]
fn place_length(
    cells: &mut [u8; table::CELL_ROOM],
    taken: &mut [u8; base::CELL_LIMIT],
    root: u16,
    m: usize,
    text: &[u8],
) -> bool
    ensures { Placed (place_length root m [] (patterns_of text.now) (Fits cells.old taken.old)) result cells.new taken.new }
{
    let mut above = &text[..0];
    let mut rest = text;
    // A path wants the text from its line on, which an iterator over lines has not.
    while !rest.is_empty() {
        let (own, behind) = rest.split_at(lines::line_end(rest, 0));
        let path = Path { own, m, text: rest };
        if !place_line(cells, taken, root, above, &path) {
            return false;
        }
        above = own;
        rest = behind;
    }
    true
}

// All paths of a text placed into the layout that the two rooms hold, by length, the root with the base that is given.
// Where they don't fit, what the two rooms hold is left open.
#[tactic(auto, using(crate::proofs::Laws::placed, crate::proofs::Laws::refused, crate::proofs::Laws::lengths_stop, crate::proofs::Laws::lengths_on, crate::proofs::Laws::lengths_done))]
pub fn place_all(
    cells: &mut [u8; table::CELL_ROOM],
    taken: &mut [u8; base::CELL_LIMIT],
    root: u16,
    text: &[u8],
) -> bool
    ensures { Placed (place_list root (patterns_of text.now) (Fits cells.old taken.old)) result cells.new taken.new }
{
    for m in 0..base::PATTERN_LIMIT {
        if !place_length(cells, taken, root, m, text) {
            return false;
        }
    }
    true
}
