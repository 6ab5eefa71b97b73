// What the programs that break by lists do before they read any text: the files that their arguments name are read, the pattern list is
// packed, and the exception lists are judged.
#![tactic(auto)]

use base::Ground;
use console::Stream;
use hyphenation::Setting;

// How many files the arguments name.
const FILES: usize = 3;

// The margins of the programs' breaks.
const LEFT: usize = 2;

const RIGHT: usize = 3;

// Packs a pattern list into a room, and judges the exception lists.
fn pack_judged(
    patterns: &[u8],
    customer: &[u8],
    house: &[u8],
    room: &mut [u8],
) -> Result<usize, Ground> {
    let size = packer::pack(patterns, room)?;
    lists::judge_lists(customer, house)?;
    Ok(size)
}

// Goes on with lists that aren't judged yet. Which of them is refused, and on what ground, is told.
fn judge<F: FnOnce(&Setting)>(
    rt: &HostRuntime,
    program: &[u8],
    patterns: &[u8],
    customer: &[u8],
    house: &[u8],
    go_on: F,
)
    requires { F.IsAlwaysCallable go_on }
{
    let mut room = [0u8; base::PACK_ROOM];
    match pack_judged(patterns, customer, house, &mut room) {
        Ok(size) => {
            if let Some(table) = room.get(..size) {
                go_on(&Setting {
                    left: LEFT,
                    right: RIGHT,
                    customer,
                    house,
                    table,
                });
            }
        }
        Err(g) => console::print_refusal(rt, program, Stream::Output, g),
    }
}

// Goes on with what the arguments name: a pattern file, the customer's exception file and the house exception file. A file is read with
// room for one byte more than its limit, so that a longer one is told from one that has just as many.
pub fn run<F: FnOnce(&Setting)>(rt: &HostRuntime, program: &[u8], go_on: F)
    requires { F.IsAlwaysCallable go_on }
{
    if !console::has_exactly(rt, FILES) {
        console::print_undone(rt, program, Stream::Output);
        return;
    }
    let mut patterns = [0u8; base::PATTERN_TEXT + 1];
    let mut customer = [0u8; base::EXCEPTION_TEXT + 1];
    let mut house = [0u8; base::EXCEPTION_TEXT + 1];
    let first = console::read_argument(rt, None, 1, &mut patterns);
    let second = console::read_argument(rt, None, 2, &mut customer);
    let third = console::read_argument(rt, None, 3, &mut house);
    let (Some(p), Some(c), Some(h)) = (first, second, third) else {
        console::print_undone(rt, program, Stream::Output);
        return;
    };
    judge(
        rt,
        program,
        &patterns[..p],
        &customer[..c],
        &house[..h],
        go_on,
    );
}
