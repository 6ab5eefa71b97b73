// Names of files, put together in lent memory.
#![tactic(auto)]

ghost use Rattle.std.specs.Prelude.{◌≡◌, true, IfOk, IsOk, IsUtf8};
ghost use Rattle.io.specs.Counts.{IsPrefixLen};
ghost use Rattle.paths.specs.Paths.{is_path, folder_size, folder, link_start, name_room, Named, Ended, ended_path, fresh_name};

use std::io::{Error, Result};

// The system's numbers for a path that it can't be handed: it is too long, or it has a 0 or no text in it. Numbers and no kinds, since the
// programs print what the system says of the number.
pub const NAME_TOO_LONG: i32 = 36;

pub const INVALID: i32 = 22;

pub const NO_TEXT: i32 = 84;

// The most bytes of a path for C, with the 0 that ends it.
pub const PATH_MAX: usize = 4096;

const SLASH: u8 = 47;

// The last byte of an ended path.
const LAST: usize = PATH_MAX - 1;

// Can C be handed all of a path?
pub fn is_path(path: &[u8]) -> bool
    ensures { result ≡ is_path path.now }
{
    if path.len() >= PATH_MAX {
        return false;
    }
    !path.contains(&0)
}

// A path as the standard library takes it: all of it, and text. Any other is an error, whose reason is the one that the system has.
pub fn as_text(path: &[u8]) -> Result<&str>
    ensures value { IfOk result (λ text. (text.now ≡ path.now) × (is_path path.now ≡ true)) }
    ensures taken { is_path path.now ≡ true → IsUtf8 path.now → IsOk result }
{
    if path.len() > LAST {
        return Err(Error::from_raw_os_error(NAME_TOO_LONG));
    }
    if !is_path(path) {
        return Err(Error::from_raw_os_error(INVALID));
    }
    // A match: with `map_err`, the wrong program that refuses every text fell by a limit of the search.
    match std::str::from_utf8(path) {
        Ok(text) => Ok(text),
        Err(_) => Err(Error::from_raw_os_error(NO_TEXT)),
    }
}

// How many bytes of a path name its folder. A match: with `map_or`, the wrong program that names no folder fell by a limit of the search.
pub fn folder_size(path: &[u8]) -> usize
    ensures value { result ≡ folder_size path.now }
    ensures prefix_len { IsPrefixLen result path.now }
{
    match path.iter().rposition(|b| *b == SLASH) {
        Some(i) => i + 1,
        None => 0,
    }
}

// Where the text of a link begins in the path that it stands for.
pub fn link_start(path: &[u8], text: &[u8]) -> usize
    ensures { result ≡ link_start path.now text.now }
{
    if text.starts_with(&[SLASH]) {
        return 0;
    }
    folder_size(path)
}

// Puts a name behind the first bytes of a room, and tells where it ends. Where it doesn't fit, nothing is put, and the answer is the whole
// room, as where it fits exactly: a room of PATH_MAX bytes is longer than any path, so that either is then refused as too long. No Option,
// since `Named` has the length so. A room and a place, and no writer: each caller says where its name goes, and only one puts another name
// behind it.
pub fn put_name(name: &[u8], room: &mut [u8], at: usize) -> usize
    ensures { Named at name.now room.old result room.new }
{
    if at > room.len() {
        return room.len();
    }
    if name.len() > room.len() - at {
        return room.len(); // what doesn't fit
    }
    let end = at + name.len();
    room[at..end].copy_from_slice(name);
    end
}

// Puts a name into a room behind the folder of a path.
pub fn put_beside(path: &[u8], name: &[u8], room: &mut [u8]) -> usize
    ensures { Named (folder_size path.now) name.now (name_room 0 (folder path.now) room.old) result room.new }
{
    let at = folder_size(path);
    put_name(&path[..at], room, 0);
    put_name(name, room, at)
}

// A path as C takes it.
pub fn ended(path: &[u8]) -> [u8; PATH_MAX]
    ensures ended { Ended result }
    ensures value { result ≡ ended_path path.now }
{
    let mut name = [0u8; PATH_MAX];
    put_name(path, &mut name, 0);
    name[LAST] = 0;
    name
}

// Makes a fresh name of some bytes of chance.
pub fn put_fresh(name: &mut [u8])
    ensures { name.new ≡ fresh_name name.old }
{
    for b in name.iter_mut() {
        *b = b'a' + *b % base::LETTER_LIMIT;
    }
    put_name(b".tteolmigu-", name, 0);
}
