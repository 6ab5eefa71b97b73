// A file that is replaced whole or not at all: its new bytes go to a file of another name in the same folder, and only when all of them
// are on the disk does that one take the name. No contract can speak of files; the order of the steps is what tests/programs sees.
#![tactic(auto)]

mod status;

ghost use Rattle.std.specs.Prelude.{IfOk, IfSome};
ghost use Rattle.io.specs.Counts.{IsPrefixLen};

use paths::{NO_TEXT, PATH_MAX};
use std::fs;
use std::fs::{File, Metadata, OpenOptions, Permissions};
use std::io::{Error, ErrorKind, Result, Write};
use std::os::unix::fs::{MetadataExt, PermissionsExt, fchown};
use std::random::RandomSource;

// The bytes of a fresh name: 11 that say whose file it is where a killed run left it, and 8 letters, which another run has only by
// chance.
const NAME_SIZE: usize = 19;

// More links than any path goes through.
const LINK_LIMIT: usize = 64;

// The rights of a file are what its mode leaves when divided by this: nine bits.
const RIGHTS: u32 = 512;

// The system's number for what isn't allowed. A number and no kind, which is no plainer: number 13 is `PermissionDenied` too, and isn't
// passed over.
const NOT_PERMITTED: i32 = 1;

// Do two names stand for one file?
pub fn is_same(rt: &HostRuntime, a: &[u8], b: &[u8]) -> bool {
    match (status::status_of(rt, a), status::status_of(rt, b)) {
        (Some(first), Some(second)) => {
            first.dev() == second.dev() && first.ino() == second.ino()
        }
        _ => false,
    }
}

// Bytes to whatever has the name: a pipe or a device.
fn write_through(rt: &HostRuntime, path: &[u8], bytes: &[u8]) -> Result<()> {
    let mut file = File::create(rt, paths::as_text(path)?)?;
    file.write_all(bytes)
}

// May the file be written? It isn't: its bytes stay. A name's folder alone says whether it may be given to another file, and somebody
// who took the right to write from a table meant it.
fn check_writable(rt: &HostRuntime, path: &[u8]) -> Result<()> {
    OpenOptions::new()
        .append(true)
        .open(rt, paths::as_text(path)?)?;
    Ok(())
}

// The new file is read and written by whom the old one was. Another's file can't be given back to its owner by just anyone.
fn keep_rights(file: &File, old: Option<&Metadata>) -> Result<()> {
    let Some(old) = old else {
        return Ok(());
    };
    if let Err(e) = fchown(file, Some(old.uid()), Some(old.gid())) {
        if e.raw_os_error() != Some(NOT_PERMITTED) {
            return Err(e);
        }
    }
    file.set_permissions(Permissions::from_mode(old.mode() % RIGHTS))
}

// All bytes of the new file, on the disk.
fn fill(file: &mut File, bytes: &[u8], old: Option<&Metadata>) -> Result<()> {
    file.write_all(bytes)?;
    keep_rights(file, old)?;
    file.sync_all()
}

// A new file and its name's size.
#[derive(Drop)]
struct Made {
    file: File,
    size: usize,
}

// Makes a file that isn't there yet.
fn create(rt: &HostRuntime, path: &[u8]) -> Result<File> {
    OpenOptions::new()
        .write(true)
        .create_new(true)
        .open(rt, paths::as_text(path)?)
}

// Makes a file in the folder of a path, and puts its name into a room. Paths stand in rooms of the caller, here and below: a struct of a path was
// tried, and its copies took more stack than `pack` has where it is given 160 KB.
fn make_beside(rt: &HostRuntime, path: &[u8], room: &mut [u8]) -> Result<Made>
    ensures { IfOk result (λ made. IsPrefixLen made.size room.new) }
{
    let mut name = [0u8; NAME_SIZE];
    rt.fill_bytes(&mut name)?;
    paths::put_fresh(&mut name);
    let size = paths::put_beside(path, &name, room);
    let file = create(rt, &room[..size])?;
    Ok(Made { file, size })
}

// Opens a file or a folder for reading.
fn open_read(rt: &HostRuntime, path: &[u8]) -> Result<File> {
    File::open(rt, paths::as_text(path)?)
}

// The new name is on the disk too. The file stands by then: where its folder can't be flushed, a power cut brings the old one back,
// and that one is whole.
fn flush_folder(rt: &HostRuntime, path: &[u8]) {
    let mut name = [0u8; PATH_MAX];
    let size = paths::put_beside(path, b".", &mut name);
    if let Ok(folder) = open_read(rt, &name[..size]) {
        let _ = folder.sync_all();
    }
}

fn rename(rt: &HostRuntime, from: &[u8], to: &[u8]) -> Result<()> {
    fs::rename(rt, paths::as_text(from)?, paths::as_text(to)?)
}

fn unlink(rt: &HostRuntime, path: &[u8]) -> Result<()> {
    fs::remove_file(rt, paths::as_text(path)?)
}

// The new file is filled and closed, and then takes the name.
fn take_name(
    rt: &HostRuntime,
    made: File,
    name: &[u8],
    path: &[u8],
    bytes: &[u8],
    old: Option<&Metadata>,
) -> Result<()> {
    let mut file = made;
    fill(&mut file, bytes, old)?;
    drop(file);
    rename(rt, name, path)
}

// Replaces a file, or makes it where there is none. Whatever fails, the old one stays and the new one is removed.
fn replace(rt: &HostRuntime, path: &[u8], bytes: &[u8], old: Option<&Metadata>) -> Result<()> {
    if old.is_some() {
        check_writable(rt, path)?;
    }
    let mut name = [0u8; PATH_MAX];
    let Made { file, size } = make_beside(rt, path, &mut name)?;
    match take_name(rt, file, &name[..size], path, bytes, old) {
        Ok(()) => {
            flush_folder(rt, path);
            Ok(())
        }
        Err(e) => {
            unlink(rt, &name[..size])?;
            Err(e)
        }
    }
}

// Is this the standard library's own error, that a link's text is none? The system's have a number.
fn is_no_text(error: &Error) -> bool {
    error.kind() == ErrorKind::InvalidFilename && error.raw_os_error().is_none()
}

// The text of a link, none where the name is no link's. A link whose text can't be had is an error, since the link must stay.
fn read_link(rt: &HostRuntime, path: &[u8], text: &mut [u8]) -> Result<Option<usize>>
    ensures { IfOk result (λ told. IfSome told (λ size. IsPrefixLen size text.new)) }
{
    match fs::read_link(rt, paths::as_text(path)?) {
        Ok(link) if link.as_str().is_empty() => Ok(None),
        Ok(link) => Ok(Some(paths::put_name(link.as_str().as_bytes(), text, 0))),
        Err(e) if is_no_text(&e) => Err(Error::from_raw_os_error(NO_TEXT)),
        Err(e) if e.kind() == ErrorKind::OutOfMemory => Err(e),
        Err(_) => Ok(None),
    }
}

// Follows one link: where the path in the room is a link's, the path that it stands for is put in its place, and the answer is its size;
// where it doesn't fit, the whole room's, which is longer than any path. The answer is None where the path is no link's or the system
// tells of none, and an error where the path can't be handed to the system, the link's text is none, or there was no memory for it.
fn follow_once(rt: &HostRuntime, room: &mut [u8], size: usize) -> Result<Option<usize>>
    requires { IsPrefixLen size room.old }
    ensures { IfOk result (λ told. IfSome told (λ next. IsPrefixLen next room.new)) }
{
    let mut text = [0u8; PATH_MAX];
    let Some(n) = read_link(rt, &room[..size], &mut text)? else {
        return Ok(None);
    };
    let at = paths::link_start(&room[..size], &text[..n]);
    Ok(Some(paths::put_name(&text[..n], room, at)))
}

// Puts into a room the path that a name stands for, where the last of its links leads: there the file is replaced, and the links stay.
fn follow(rt: &HostRuntime, path: &[u8], room: &mut [u8]) -> Result<usize>
    ensures { IfOk result (λ size. IsPrefixLen size room.new) }
{
    let mut size = paths::put_name(path, room, 0);
    for _ in 0..LINK_LIMIT {
        let Some(next) = follow_once(rt, room, size)? else {
            break;
        };
        size = next;
    }
    Ok(size)
}

// Nothing may stand under the name, so that a file can be made there. Where the system can't say so, the error tells why. A file that it
// opens after it told nothing of it is refused by the reason that it had then.
fn check_free(rt: &HostRuntime, path: &[u8], untold: Error) -> Result<()> {
    match open_read(rt, path) {
        Ok(_) => Err(untold),
        Err(e) if e.kind() == ErrorKind::NotFound => Ok(()),
        Err(e) => Err(e),
    }
}

// Replaces the file that a name's links lead to, or makes it.
fn replace_linked(
    rt: &HostRuntime,
    path: &[u8],
    bytes: &[u8],
    old: Option<&Metadata>,
) -> Result<()> {
    let mut room = [0u8; PATH_MAX];
    let n = follow(rt, path, &mut room)?;
    replace(rt, &room[..n], bytes, old)
}

// Bytes into the file of a name: a regular file is replaced, whatever else has the name is written through. Where it fails, the error
// says why.
pub fn save(rt: &HostRuntime, path: &[u8], bytes: &[u8]) -> Result<()> {
    match status::find(rt, path) {
        Ok(old) if !old.is_file() => write_through(rt, path, bytes),
        Ok(old) => replace_linked(rt, path, bytes, Some(&old)),
        Err(e) => {
            check_free(rt, path, e)?;
            replace_linked(rt, path, bytes, None)
        }
    }
}
