// What the programs share: files that arguments name, and the line of a refusal.
#![tactic(auto)]

ghost use Rattle.std.specs.Prelude.{◌<◌, ◌≤◌, length, IfOk, IfSome};

use base::Ground;
use paths::{INVALID, NAME_TOO_LONG, PATH_MAX};
use std::env::FillError;
use std::fmt::InlineText;
use std::fs::File;
use std::io::{Error, Read as _, Result};
use std::rt::Env;
use writing::Writer;

// Where a line goes: to standard output or to standard error. An enum: the two are two types, `pack` chooses one of them while it runs, and
// a dyn value may not be handed out.
#[derive(Clone, Copy)]
pub enum Stream {
    Output,
    Errors,
}

// A piece of a text is as large as the buffer that it is read into.
pub const PIECE: usize = 65536;

// The system's words for an error and its number behind them have fewer bytes.
const REASON_LIMIT: usize = 128;

// The line of a refusal has fewer bytes.
const REFUSAL_LIMIT: usize = 128;

// Reads until the file ends or the buffer is full. Each turn but the last reads at least a byte, so that as many turns as there are
// bytes are enough. What is read is counted here: the library reads to a file's end only into a Vec, and there is no heap.
fn read_all(file: &mut File, bytes: &mut [u8]) -> Result<usize>
    ensures { IfOk result (λ size. size ≤ length bytes.new) }
{
    let mut size = 0;
    for _ in 0..bytes.len() {
        let more = file.read(&mut bytes[size..])?;
        size += more;
        if more == 0 {
            break;
        }
    }
    Ok(size)
}

// The bytes of the file at a path, as many as the buffer takes, told by their count here and below, as the library's `read` tells them. Where it
// can't be opened or read, the error says why.
fn read_file(rt: &HostRuntime, path: &[u8], bytes: &mut [u8]) -> Result<usize>
    ensures { IfOk result (λ size. size ≤ length bytes.new) }
{
    let mut file = File::open(rt, paths::as_text(path)?)?;
    read_all(&mut file, bytes)
}

// Writes to standard error. Where that can't be written either, nobody is left to be told.
pub fn complain(rt: &HostRuntime, bytes: &[u8]) {
    let _ = rt.stderr().write_all(bytes);
}

// The system's words for an error, without the number that stands behind them.
fn words_of(reason: &str) -> &str {
    reason
        .split_once(" (os error ")
        .map_or(reason, |(words, _)| words)
}

// Tells on standard error what a program could not use, and why. The runtime and the program's name come one by one here and below: a program
// calls these once or twice, and would make a struct of both for that.
pub fn tell(rt: &HostRuntime, program: &[u8], what: &[u8], error: Error) {
    let reason = InlineText::<REASON_LIMIT>::of(error);
    complain(rt, program);
    complain(rt, b": ");
    complain(rt, what);
    complain(rt, b": ");
    complain(rt, words_of(reason.as_str()).as_bytes());
    complain(rt, b"\n");
}

// Is there an argument i? Argument 0 is the program's own name.
pub fn has_argument(rt: &HostRuntime, i: usize) -> bool {
    !matches!(rt.arg(i, &mut []), Err(FillError::NotPresent))
}

// Are there just so many arguments behind the program's own name? There is at least one.
pub fn has_exactly(rt: &HostRuntime, count: usize) -> bool
    requires { count < usize.MAX }
{
    has_argument(rt, count) && !has_argument(rt, count + 1)
}

// The error that the system has for a path, where an argument can't be had.
fn path_error(e: FillError) -> Error {
    Error::from_raw_os_error(match e {
        FillError::TooLong => NAME_TOO_LONG,
        FillError::NotPresent => INVALID,
    })
}

// Puts argument i into a room. One that is missing or doesn't fit is the error that the system has for a path.
pub fn put_argument(rt: &HostRuntime, i: usize, room: &mut [u8]) -> Result<usize>
    ensures { IfOk result (λ size. size ≤ length room.new) }
{
    rt.arg(i, room).map_err(path_error)
}

// Tells it where there is a program that tells.
fn tell_by(rt: &HostRuntime, teller: Option<&[u8]>, what: &[u8], error: Error) {
    if let Some(program) = teller {
        tell(rt, program, what, error);
    }
}

// The bytes of the file that argument i names, as many as the buffer takes. A missing argument is a file that can't be opened. Where the
// file can't be used, a program that tells says why: document 01 lets `hyphenate` write "! 0 0" there and nothing else.
pub fn read_argument(
    rt: &HostRuntime,
    teller: Option<&[u8]>,
    i: usize,
    bytes: &mut [u8],
) -> Option<usize>
    ensures { IfSome result (λ size. size ≤ length bytes.new) }
{
    let mut path = [0u8; PATH_MAX];
    let n = put_argument(rt, i, &mut path)
        .map_err(|e| tell_by(rt, teller, b"a name", e))
        .ok()?;
    read_file(rt, &path[..n], bytes)
        .map_err(|e| tell_by(rt, teller, &path[..n], e))
        .ok()
}

// Is argument i an option? These programs have none, so that a name that begins with a hyphen is taken for a slip; "./-x" is a file.
pub fn is_option(rt: &HostRuntime, i: usize) -> bool {
    let mut name = [0u8; PATH_MAX];
    put_argument(rt, i, &mut name).is_ok_and(|n| name[..n].starts_with(&[words::HYPHEN]))
}

// All bytes to a stream.
pub fn write(rt: &HostRuntime, out: Stream, bytes: &[u8]) -> Result<()> {
    match out {
        Stream::Output => rt.stdout().write_all(bytes),
        Stream::Errors => rt.stderr().write_all(bytes),
    }
}

// Writes a line. Where it can't be written, that is told, on standard error: where the line itself should have gone there, nobody is told,
// and so standard output is the only name.
pub fn print(rt: &HostRuntime, program: &[u8], out: Stream, line: &[u8]) {
    if let Err(e) = write(rt, out, line) {
        tell(rt, program, b"standard output", e);
    }
}

// A list, a table or a packing is refused: "!", number and place.
pub fn print_refusal(rt: &HostRuntime, program: &[u8], out: Stream, ground: Ground) {
    let mut line = [0u8; REFUSAL_LIMIT];
    let mut w = Writer::new(&mut line);
    report::put_refusal(writing::EXCLAMATION, ground, &mut w);
    print(rt, program, out, w.written());
}

// Nothing was done, and no ground says why: a file can't be opened, read or written, or the arguments are wrong.
pub fn print_undone(rt: &HostRuntime, program: &[u8], out: Stream) {
    print(rt, program, out, b"! 0 0\n");
}
