// Packs a pattern list. Its arguments are the pattern file and, if the table is not to go to standard output, the table file, which is
// replaced whole or not at all. A refusal goes to standard output, or to standard error where the table would have gone there; what the
// system refused, and how the program is called, it tells on standard error.
#![tactic(auto)]

use console::Stream;
use paths::PATH_MAX;
use std::io::Error;

// How many arguments there are at most, the program's name included: with so many, the last is the table file.
const ARGUMENTS: usize = 3;

// Does the last argument name a table file?
fn has_table(rt: &HostRuntime) -> bool {
    console::has_argument(rt, ARGUMENTS - 1)
}

// Where a refusal can't be taken for a table.
fn refusals(rt: &HostRuntime) -> Stream {
    if has_table(rt) {
        return Stream::Output;
    }
    Stream::Errors
}

// Tells what could not be used, and why.
fn tell(rt: &HostRuntime, what: &[u8], error: Error) {
    console::tell(rt, b"pack", what, error);
}

fn print_table(rt: &HostRuntime, table: &[u8]) -> Result<(), ()> {
    console::write(rt, Stream::Output, table).map_err(|e| tell(rt, b"standard output", e))
}

fn tell_same(rt: &HostRuntime, path: &[u8]) {
    console::complain(rt, b"pack: ");
    console::complain(rt, path);
    console::complain(rt, b": it is the list itself\n");
}

// Does a path name the list?
fn is_list(rt: &HostRuntime, path: &[u8]) -> bool {
    let mut list = [0u8; PATH_MAX];
    console::put_argument(rt, 1, &mut list).is_ok_and(|n| files::is_same(rt, &list[..n], path))
}

// The table into the file that the second argument names, unless that is the list.
fn save_table(rt: &HostRuntime, table: &[u8]) -> Result<(), ()> {
    let mut path = [0u8; PATH_MAX];
    let n = console::put_argument(rt, 2, &mut path).map_err(|e| tell(rt, b"a name", e))?;
    if is_list(rt, &path[..n]) {
        tell_same(rt, &path[..n]);
        return Err(());
    }
    files::save(rt, &path[..n], table).map_err(|e| tell(rt, &path[..n], e))
}

// The table to where it belongs. Where not all of it is there, that was told, and the error says no more.
fn put_table(rt: &HostRuntime, table: &[u8]) -> Result<(), ()> {
    if has_table(rt) {
        return save_table(rt, table);
    }
    print_table(rt, table)
}

fn run(rt: &HostRuntime, patterns: &[u8]) {
    let mut room = [0u8; base::PACK_ROOM];
    match packer::pack(patterns, &mut room) {
        Ok(size) => {
            if size <= room.len() && put_table(rt, &room[..size]).is_err() {
                console::print_undone(rt, b"pack", refusals(rt));
            }
        }
        Err(g) => console::print_refusal(rt, b"pack", refusals(rt), g),
    }
}

// The file is read with room for one byte more than its limit, so that a longer one is told from one that has just as many.
fn pack_file(rt: &HostRuntime) {
    let mut patterns = [0u8; base::PATTERN_TEXT + 1];
    let Some(n) = console::read_argument(rt, Some(b"pack"), 1, &mut patterns) else {
        console::print_undone(rt, b"pack", refusals(rt));
        return;
    };
    run(rt, &patterns[..n]);
}

fn main(rt: HostRuntime) {
    let listed = console::has_argument(&rt, 1);
    let more = console::has_argument(&rt, ARGUMENTS);
    if !listed || more || console::is_option(&rt, 1) || console::is_option(&rt, 2) {
        console::complain(&rt, b"usage: pack LIST [TABLE]\n");
        console::print_undone(&rt, b"pack", Stream::Output);
        return;
    }
    pack_file(&rt);
}
