// Running text in pieces: the call that takes a piece, and the call that ends the text.
#![tactic(auto)]

ghost use Rattle.std.specs.Prelude.{[], ◌≡◌, true, length, ◌+◌, ◌*◌, ◌≤◌};
ghost use Rattle.base.specs.Limits.{running_text, room_per_byte};
ghost use Rattle.base.specs.Grounds.{Finds, says, first_of};
ghost use Rattle.runs.specs.Reached.{can_be_held};
ghost use Rattle.states.specs.State.{Left};
ghost use Rattle.running.specs.Calls.{passes_end, setting_grounds, piece_grounds, end_grounds, Pieces, PiecesDone, Ends, EndsDone};

use base::Ground;
use flowing::Flow;
use hyphenation::Setting;
use states::TextState;
use writing::Writer;

// What a call wrote: the length of the text, and how many cells were looked at for the words that it finished.
#[derive(Clone, Copy)]
pub struct Written {
    pub length: usize,
    pub looks: usize,
}

// An answer, and the state for the next call.
#[derive(Clone, Copy)]
pub struct Taken {
    pub state: TextState,
    pub answer: Result<Written, Ground>,
}

// The grounds that both calls ask first: 1, 8, 6, 9.
pub fn judge_setting(setting: &Setting) -> Result<(), Ground>
    ensures { says result ≡ first_of (Finds []) (setting_grounds setting.now.left setting.now.right setting.now.customer.now setting.now.house.now setting.now.table.now) }
{
    hyphenation::judge_margins(setting.left, setting.right)?;
    lists::judge_lists(setting.customer, setting.house)?;
    table::judge_table(setting.table)
}

// Do n bytes take a text of this total past its limit?
#[tactic(auto, unfolding(crate::specs::Calls::passes_end))]
fn is_past(total: usize, n: usize) -> bool
    ensures { result ≡ passes_end total n }
{
    base::RUNNING_TEXT < total.saturating_add(n)
}

// The grounds of a piece of n bytes, where so many are held and the text has this total: 1, 8, 6, 9, 21, 14.
#[tactic(auto, using(crate::proofs::Laws::past_bound))]
pub fn judge_piece(
    setting: &Setting,
    total: usize,
    held: u8,
    n: usize,
    size: usize,
) -> Result<(), Ground>
    ensures { says result ≡ first_of (Finds []) (piece_grounds setting.now.left setting.now.right setting.now.customer.now setting.now.house.now setting.now.table.now total held n size) }
{
    judge_setting(setting)?;
    if is_past(total, n) {
        return Err(Ground::RunningLong);
    }
    if rooms::is_short(size, base::ROOM_PER_BYTE * (held as usize + n)) {
        return Err(Ground::TextRoomShort);
    }
    Ok(())
}

// The grounds of the end, where so many bytes are held: 1, 8, 6, 9, 14. The room is asked as for a piece of no bytes, in lines of its own: a function
// of them would be as long.
pub fn judge_end(setting: &Setting, held: u8, size: usize) -> Result<(), Ground>
    ensures { says result ≡ first_of (Finds []) (end_grounds setting.now.left setting.now.right setting.now.customer.now setting.now.house.now setting.now.table.now held size) }
{
    judge_setting(setting)?;
    if rooms::is_short(size, base::ROOM_PER_BYTE * held as usize) {
        return Err(Ground::TextRoomShort);
    }
    Ok(())
}

// A judged piece. From C's bytes to a flow and back by hand, since the total and the looks stand in one of the two alone.
fn flow_piece(s: TextState, setting: &Setting, piece: &[u8], room: &mut [u8]) -> Taken
    requires { Left s × (s.total + length piece.now ≤ running_text) × (room_per_byte * (s.size + length piece.now) ≤ length room.old) }
    ensures { PiecesDone s setting.now.left setting.now.right setting.now.customer.now setting.now.house.now setting.now.table.now piece.now room.old result room.new }
{
    let held = s.held;
    let mut flow = Flow {
        held,
        size: s.size as usize,
        run: s.run,
        looks: 0,
    };
    let mut out = Writer::new(room);
    flow.take_bytes(setting, piece, &mut out);
    let mut held = flow.held;
    rooms::clear_from(&mut held, flow.size, base::HELD_LIMIT);
    Taken {
        state: TextState {
            held,
            size: flow.size as u8,
            run: flow.run,
            total: s.total + piece.len() as u32,
        },
        answer: Ok(Written {
            length: out.at,
            looks: flow.looks,
        }),
    }
}

// What is held, finished.
fn flow_end(held: &[u8], setting: &Setting, room: &mut [u8]) -> Written
    requires { (can_be_held held.now ≡ true) × (room_per_byte * length held.now ≤ length room.old) }
    ensures { EndsDone held.now setting.now.left setting.now.right setting.now.customer.now setting.now.house.now setting.now.table.now room.old (Ok result) room.new }
{
    let mut out = Writer::new(room);
    let looks = flowing::put_held(setting, held, &mut out);
    Written {
        length: out.at,
        looks,
    }
}

// A piece of a running text. Margins, lists and table come with it, and are judged first. Its frame and that of `end_text` stay two: what
// they judge, take and leave as the state differs, and one function of closures for it is no plainer.
pub fn take_piece(state: TextState, setting: &Setting, piece: &[u8], room: &mut [u8]) -> Taken
    ensures { Pieces state setting.now.left setting.now.right setting.now.customer.now setting.now.house.now setting.now.table.now piece.now room.old result room.new }
{
    let s = states::read_state(state);
    if let Err(g) = judge_piece(setting, s.total as usize, s.size, piece.len(), room.len()) {
        return Taken {
            state, // as it was given
            answer: Err(g),
        };
    }
    flow_piece(s, setting, piece, room)
}

// The end of a running text: what is held goes out, and the next piece begins a new text.
pub fn end_text(state: TextState, setting: &Setting, room: &mut [u8]) -> Taken
    ensures { Ends state setting.now.left setting.now.right setting.now.customer.now setting.now.house.now setting.now.table.now room.old result room.new }
{
    let s = states::read_state(state);
    if let Err(g) = judge_end(setting, s.size, room.len()) {
        return Taken {
            state, // the text stays open
            answer: Err(g),
        };
    }
    let held = s.held;
    Taken {
        state: states::new_text(),
        answer: Ok(flow_end(&held[..s.size as usize], setting, room)),
    }
}
