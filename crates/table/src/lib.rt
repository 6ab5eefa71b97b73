// The packed table on bytes: ground 9, the parts of a table, one look at a cell, one entry.
#![tactic(auto)]

ghost use Rattle.std.specs.Prelude.{[], ◌++◌, ◌≡◌, ◌+◌, ◌*◌, ◌≤◌, ◌<◌, length, get_or, drop};
ghost use Rattle.base.specs.Grounds.{Finds, says, first_of};
ghost use Rattle.table.specs.Records.{head_bytes};
ghost use Rattle.table.specs.Table.{head_size, cell_size, number_at, put_number, cell_count, entry_count, table_grounds, behind, cells_from, entries_from, cells_of, entries_of, cells_place, entries_place, root_base, look, entry_at};

use base::Ground;

// The records of a table as document 01 lays them out, each with its byte of kind. specs/Table.antt has the same names. The kinds are numbers and
// no enum: they are bytes of the format, each compared with one of its own and never told apart. The numbers within a record (`at + 2`) are
// the places of its fields in document 01; each is written at one place that reads it.
pub const HEAD_KIND: u8 = 1;

pub const CELL_KIND: u8 = 2;

pub const ENTRY_KIND: u8 = 3;

pub const EDITION: u8 = 1;

pub const HEAD_SIZE: usize = 6;

pub const CELL_SIZE: usize = 6;

pub const ENTRY_SIZE: usize = 5;

// The bytes of as many cells, and of as many entries, as a table may have.
pub const CELL_ROOM: usize = CELL_SIZE * base::CELL_LIMIT;

pub const ENTRY_ROOM: usize = ENTRY_SIZE * base::ENTRY_LIMIT;

// Where a walk begins.
pub const ROOT_BASE: u16 = 0;

// What a look finds in a cell: where it leads, and the first of its entries.
#[derive(Clone, Copy)]
pub struct Cell {
    pub link: u16,
    pub output: u16,
}

// What a walk goes over: the cells of a table, its entries, and the base at which the walk begins.
#[derive(Clone, Copy)]
pub struct Trie<'a> {
    pub cells: &'a [u8],
    pub entries: &'a [u8],
    pub root: u16,
}

// One entry of a chain, and the number of the next.
#[derive(Clone, Copy, PartialEq, Eq)]
pub struct Entry {
    pub distance: u8,
    pub level: u8,
    pub next: u16,
}

// A number of two bytes of which both are there: a look and an entry have judged that, and ask no more (`number_at` asks at each byte).
#[tactic(auto, unfolding(crate::specs::Table::number_at))]
fn number_in(bytes: &[u8], at: usize) -> u16
    requires { at + 1 < length bytes.now }
    ensures { result ≡ number_at bytes.now at }
{
    u16::from_be_bytes([bytes[at], bytes[at + 1]])
}

// Ground 9.
pub fn judge_table(table: &[u8]) -> Result<(), Ground>
    ensures { says result ≡ first_of (Finds []) (table_grounds table.now) }
{
    if table.len() < HEAD_SIZE {
        return Err(Ground::TableForm);
    }
    if table[0] != HEAD_KIND {
        return Err(Ground::TableForm);
    }
    if table[1] != EDITION {
        return Err(Ground::TableForm);
    }
    let cells = number_in(table, 2) as usize;
    if cells < 1 {
        return Err(Ground::TableForm);
    }
    if base::CELL_LIMIT < cells {
        return Err(Ground::TableForm);
    }
    let entries = number_in(table, 4) as usize;
    if base::ENTRY_LIMIT < entries {
        return Err(Ground::TableForm);
    }
    if table.len() != HEAD_SIZE + CELL_SIZE * cells + ENTRY_SIZE * entries {
        return Err(Ground::TableForm);
    }
    Ok(())
}

// A byte, or 0 past the end.
fn byte_at(bytes: &[u8], at: usize) -> u8
    ensures { result ≡ get_or bytes.now at 0 }
{
    bytes.get(at).copied().unwrap_or(0)
}

// A number of two bytes, each of them 0 past the end.
#[tactic(auto, unfolding(crate::specs::Table::number_at))]
pub fn number_at(bytes: &[u8], at: usize) -> u16
    ensures { result ≡ number_at bytes.now at }
{
    if bytes.len() <= at {
        return 0;
    }
    u16::from_be_bytes([bytes[at], byte_at(bytes, at + 1)])
}

// A number of two bytes, each of them written where there is room for it: so the definition has it, where `copy_from_slice` puts both. By
// index: `get_mut` promises nothing of what the slice ends as.
#[tactic(auto, using(crate::proofs::Laws::halves, crate::proofs::Laws::put_past, crate::proofs::Laws::put_half, crate::proofs::Laws::put_both))]
pub fn put_number(bytes: &mut [u8], at: usize, n: u16)
    ensures { bytes.new ≡ put_number at n bytes.old }
{
    if bytes.len() <= at {
        return;
    }
    let [high, low] = n.to_be_bytes();
    bytes[at] = high;
    if at + 1 < bytes.len() {
        bytes[at + 1] = low;
    }
}

// How many cells a table's head tells. The two counts are two names of the format for `number_at`, which is all that they would share.
#[tactic(auto, unfolding(crate::specs::Table::cell_count))]
pub fn cell_count(table: &[u8]) -> u16
    ensures { result ≡ cell_count table.now }
{
    number_at(table, 2)
}

// How many entries a table's head tells.
#[tactic(auto, unfolding(crate::specs::Table::entry_count))]
pub fn entry_count(table: &[u8]) -> u16
    ensures { result ≡ entry_count table.now }
{
    number_at(table, 4)
}

// The bytes of so many cells from a start on, as far as they are there. One cut could give these and the bytes behind, by `split_at`; but where
// not all cells are there the promise has the second part at the table's beginning (`behind`), and its caller would have to move it there.
#[tactic(auto, using(crate::proofs::Laws::cells_none, crate::proofs::Laws::cells_all, crate::proofs::Laws::cells_part, crate::proofs::Laws::cells_short, crate::proofs::Laws::cells_behind))]
pub fn cells_from(table: &[u8], start: usize, count: u16) -> &[u8]
    ensures bytes { result.now ≡ cells_from start count table.now }
    ensures place { result.ref_ptr ≡ behind start table.now table.entry.ref_ptr }
{
    if table.len() < start {
        return &table[..0];
    }
    let size = CELL_SIZE * count as usize;
    if table.len() - start < size {
        return &table[start..];
    }
    &table[start..start + size]
}

// The bytes behind so many cells from a start on.
#[tactic(auto, using(crate::proofs::Laws::entries_none, crate::proofs::Laws::entries_past, crate::proofs::Laws::entries_part, crate::proofs::Laws::entries_short, crate::proofs::Laws::entries_cut, crate::proofs::Laws::entries_behind))]
pub fn entries_from(table: &[u8], start: usize, count: u16) -> &[u8]
    ensures bytes { result.now ≡ entries_from start count table.now }
    ensures place { result.ref_ptr ≡ behind (start + cell_size * count) table.now table.entry.ref_ptr }
{
    if table.len() < start {
        return &table[..0];
    }
    let size = CELL_SIZE * count as usize;
    if table.len() - start < size {
        return &table[..0];
    }
    &table[start + size..]
}

// The bytes of a table's cells, as far as they are there.
#[tactic(auto, unfolding(crate::specs::Table::cells_of, crate::specs::Table::cells_place))]
pub fn cells_of(table: &[u8]) -> &[u8]
    ensures bytes { result.now ≡ cells_of table.now }
    ensures place { result.ref_ptr ≡ cells_place table.now table.entry.ref_ptr }
{
    cells_from(table, HEAD_SIZE, cell_count(table))
}

// The bytes of a table's entries, as far as they are there.
#[tactic(auto, unfolding(crate::specs::Table::entries_of, crate::specs::Table::entries_place))]
pub fn entries_of(table: &[u8]) -> &[u8]
    ensures bytes { result.now ≡ entries_of table.now }
    ensures place { result.ref_ptr ≡ entries_place table.now table.entry.ref_ptr }
{
    entries_from(table, HEAD_SIZE, cell_count(table))
}

// What a table gives its walks, as far as it is there.
pub fn trie_of(table: &[u8]) -> Trie
    ensures { (result.cells.now ≡ cells_of table.now) × (result.entries.now ≡ entries_of table.now) × (result.root ≡ root_base) }
{
    Trie {
        cells: cells_of(table),
        entries: entries_of(table),
        root: ROOT_BASE,
    }
}

// A table's head.
pub fn put_head(room: &mut [u8], cells: u16, entries: u16)
    requires { head_size ≤ length room.old }
    ensures { room.new ≡ head_bytes cells entries ++ drop head_size room.old }
{
    let [c_high, c_low] = cells.to_be_bytes();
    let [e_high, e_low] = entries.to_be_bytes();
    room[..HEAD_SIZE].copy_from_slice(&[HEAD_KIND, EDITION, c_high, c_low, e_high, e_low]);
}

// The look at the cell numbered base + symbol. Most looks miss by the symbol, so it is asked first.
pub fn look_at(cells: &[u8], base: u16, symbol: u8) -> Option<Cell>
    ensures { result ≡ look cells.now (base + symbol) symbol }
{
    let at = CELL_SIZE * (base as usize + symbol as usize);
    if cells.len() < CELL_SIZE {
        return None;
    }
    if cells.len() - CELL_SIZE < at {
        return None;
    }
    if cells[at + 1] != symbol {
        return None;
    }
    if cells[at] != CELL_KIND {
        return None;
    }
    Some(Cell {
        link: number_in(cells, at + 2),
        output: number_in(cells, at + 4),
    })
}

// The entry numbered k. By offsets: with a slice pattern the proof didn't close, as its bytes are those of a part and the definition's are the
// list's.
#[tactic(auto, using(crate::proofs::Laws::entry_none, crate::proofs::Laws::entry_past, crate::proofs::Laws::entry_kind_lem, crate::proofs::Laws::entry_has))]
pub fn entry_at(entries: &[u8], k: u16) -> Option<Entry>
    ensures { result ≡ entry_at entries.now k }
{
    if k < 1 {
        return None;
    }
    let end = ENTRY_SIZE * (k as usize);
    if entries.len() < end {
        return None;
    }
    if entries[end - ENTRY_SIZE] != ENTRY_KIND {
        return None;
    }
    Some(Entry {
        distance: entries[end - 4],
        level: entries[end - 3],
        next: number_in(entries, end - 2),
    })
}
