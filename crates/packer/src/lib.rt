// The packer: writes the first-fit table of a pattern list.
#![tactic(auto)]

ghost use Rattle.std.specs.Prelude.{◌≡◌, ◌+◌, ◌*◌, ◌≤◌, ◌<◌, length, take, drop, replicate};
ghost use Rattle.base.specs.Limits.{cell_limit, entry_limit, pack_room};
ghost use Rattle.rooms.specs.Rooms.{filled};
ghost use Rattle.words.specs.Symbols.{symbols_of};
ghost use Rattle.liang.specs.Patterns.{patterns_of};
ghost use Rattle.table.specs.Table.{head_size, cell_size, cell_room, entry_room, put_number};
ghost use Rattle.fit.specs.Cells.{cell_of, used_from};
ghost use Rattle.fit.specs.Entries as fit;
ghost use Rattle.fit.specs.Entries.{outputs_of, empty_entries};
ghost use Rattle.fit.specs.Table.{put_kinds, first_fit};
ghost use Rattle.packer.specs.Pack.{Lays, Packs};
ghost use Rattle.packer.specs.Post.{as_outputs, entries_in, table_of, as_fit, Bounded};

use base::Ground;
use lists::PatternList;

// How many cells and entries a layout has.
#[derive(Clone, Copy)]
pub struct Laid {
    pub cells: u16,
    pub entries: u16,
}

// The highest used cell + 1, or 1 if none is.
#[tactic(auto, using(crate::proofs::Laws::used_here, crate::proofs::Laws::used_on, crate::proofs::Laws::used_end))]
fn used_cells(cells: &[u8; table::CELL_ROOM]) -> usize
    ensures value { result ≡ used_from cells.now 0 cell_limit 1 }
    ensures lower_bound { (1 ≤ result) × (result ≤ cell_limit) }
{
    let mut used: usize = 1;
    for n in 0..base::CELL_LIMIT {
        let symbol = cells[table::CELL_SIZE * n + 1];
        if symbol == 0 {
            continue;
        }
        used = n + 1;
    }
    used
}

// The kinds of the first cells.
#[tactic(auto, using(crate::proofs::Laws::kinds_turn, crate::proofs::Laws::kinds_end))]
fn put_kinds(cells: &mut [u8; table::CELL_ROOM], count: usize)
    requires { count ≤ cell_limit }
    ensures { cells.new ≡ put_kinds count cells.old }
{
    for n in (0..count).rev() {
        cells[table::CELL_SIZE * n] = table::CELL_KIND;
    }
}

// The output of a pattern line of m symbols, in the cell that it ends in from the root's base.
#[tactic(auto, using(crate::proofs::Laws::output_put))]
fn put_output(cells: &mut [u8; table::CELL_ROOM], root: u16, line: &[u8], m: u8, output: u16)
    requires { (0 < m) × (m ≡ length (symbols_of line.now)) }
    ensures { cells.new ≡ put_number (cell_size * cell_of cells.old root (symbols_of line.now) + 4) output cells.old }
{
    let cell = placing::cell_of(cells, root, line, m as usize);
    table::put_number(cells, table::CELL_SIZE * cell + 4, output);
}

// The outputs of every pattern of a good list, walked from the root's base, and the entries behind them. The count says how many
// entries are there before; nothing where there are too many.
#[tactic(auto, using(crate::proofs::Laws::shaped_start, crate::proofs::Laws::outputs_start, crate::proofs::Laws::outputs_end))]
fn put_outputs(
    cells: &mut [u8; table::CELL_ROOM],
    made: &mut [u8; table::ENTRY_ROOM],
    count: u16,
    root: u16,
    list: &PatternList,
) -> Option<u16>
    requires { count ≤ entry_limit }
    ensures count_value { outputs_of root (patterns_of list.now.text.now) (fit.Out cells.old made.old count) ≡ as_outputs cells.new made.new result }
    ensures result_bound { entries_in result ≤ entry_limit }
{
    let mut entries = count;
    for line in list.text.split_inclusive(|b| *b == words::LINE_FEED) {
        let m = patterns::symbol_count(line) as u8;
        let step = entering::enter_levels(made, entries, line, m)?;
        put_output(cells, root, line, m, step.last);
        entries = step.count;
    }
    Some(entries)
}

// The layout of a good list, in cells and entries that are zero before; nothing where it has too many of either.
fn fill(
    cells: &mut [u8; table::CELL_ROOM],
    made: &mut [u8; table::ENTRY_ROOM],
    list: &PatternList,
) -> Option<Laid>
    requires { (cells.old ≡ replicate cell_room 0) × (made.old ≡ empty_entries) }
    ensures text_value { first_fit (patterns_of list.now.text.now) ≡ as_fit cells.new made.new result }
    ensures bounded { Bounded result }
{
    let mut taken = [0u8; base::CELL_LIMIT];
    if !placing::place_all(cells, &mut taken, table::ROOT_BASE, list.text) {
        return None;
    }
    let count = used_cells(cells);
    let entries = put_outputs(cells, made, 0, table::ROOT_BASE, list)?;
    put_kinds(cells, count);
    Some(Laid {
        cells: count as u16,
        entries,
    })
}

// The same in cells that are a part of a room. A function of its own: in `lay` the proof lost what becomes of a room of which a part is lent as an
// array.
fn fill_part(
    cells: &mut [u8],
    made: &mut [u8; table::ENTRY_ROOM],
    list: &PatternList,
) -> Option<Laid>
    requires { (cells.old ≡ replicate cell_room 0) × (made.old ≡ empty_entries) }
    ensures text_value { first_fit (patterns_of list.now.text.now) ≡ as_fit cells.new made.new result }
    ensures bounded { Bounded result }
{
    let cells = cells.as_mut_array().unwrap();
    fill(cells, made, list)
}

// The entries behind the cells, zeros behind the entries, and the head: the table's length.
fn finish(room: &mut [u8], made: &[u8; table::ENTRY_ROOM], cells: u16, entries: u16) -> usize
    requires { (pack_room ≤ length room.old) × (cells ≤ cell_limit) × (entries ≤ entry_limit) }
    ensures value { result ≡ length (table_of cells entries (drop head_size room.old) made.now) }
    ensures room_after { room.new ≡ filled pack_room (table_of cells entries (drop head_size room.old) made.now) room.old }
{
    let from = table::HEAD_SIZE + table::CELL_SIZE * cells as usize;
    let size = from + table::ENTRY_SIZE * entries as usize;
    rooms::copy_to(room, from, made, table::ENTRY_SIZE * entries as usize);
    rooms::clear_from(room, size, base::PACK_ROOM);
    table::put_head(room, cells, entries);
    size
}

// The first-fit table of a good list, in a room that is zero where a table may stand.
#[tactic(auto, using(crate::proofs::Laws::filled_length, crate::proofs::Laws::filled_holds))]
fn lay(room: &mut [u8], list: &PatternList) -> Result<usize, Ground>
    requires { (pack_room ≤ length room.old) × (take pack_room room.old ≡ replicate pack_room 0) }
    ensures { Lays list.now.text.now room.old result room.new }
{
    let mut made = [0u8; table::ENTRY_ROOM];
    let filled = fill_part(
        &mut room[table::HEAD_SIZE..table::HEAD_SIZE + table::CELL_ROOM],
        &mut made,
        list,
    );
    let Some(Laid { cells, entries }) = filled else {
        rooms::clear_from(room, 0, base::PACK_ROOM);
        return Err(Ground::NoFit);
    };
    let size = finish(room, &made, cells, entries);
    Ok(size)
}

// Packs a pattern list first fit into the room.
pub fn pack(text: &[u8], room: &mut [u8]) -> Result<usize, Ground>
    ensures { Packs text.now room.old result room.new }
{
    if rooms::is_short(room.len(), base::PACK_ROOM) {
        return Err(Ground::PackRoomShort);
    }
    lists::judge_patterns(text)?;
    rooms::clear_from(room, 0, base::PACK_ROOM);
    lay(room, &PatternList { text })
}
