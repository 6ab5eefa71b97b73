// First fit's entries: made once, and shared where they are equal.
#![tactic(auto)]

ghost use Rattle.std.specs.Prelude.{◌≡◌, ◌+◌, ◌*◌, ◌≤◌, ◌<◌, suc, length, unwrap_or, IfSome};
ghost use Rattle.base.specs.Limits.{pattern_limit, entry_limit};
ghost use Rattle.liang.specs.Patterns.{levels_from};
ghost use Rattle.table.specs.Table.{entry_size, entry_room};
ghost use Rattle.fit.specs.Entries as fit;
ghost use Rattle.entering.specs.Post.{as_entries, count_of};

use table::Entry;

// How many entries there are now, and the number of the one made or found last. That the count is within its limit is a clause and no ghost
// field: it would be proved in as many places, wherever one is made.
#[derive(Clone, Copy)]
pub struct Made {
    pub count: u16,
    pub last: u16,
}

// Is the entry at a place this one? Its kind is not asked for: whatever entering has put there is an entry.
fn is_entry(bytes: &[u8; table::ENTRY_ROOM], at: usize, entry: Entry) -> bool
    requires { at + entry_size ≤ entry_room }
    ensures { result ≡ fit.holds bytes.now at entry.distance entry.level entry.next }
{
    let there = Entry {
        distance: bytes[at + 1],
        level: bytes[at + 2],
        next: table::number_at(bytes, at + 3),
    };
    there == entry
}

// The number of the first entry that is this one. No entry has number 0. The loop counts numbers and not places, since a number is what
// `find_entry` of `fit` goes by and what is answered.
#[tactic(auto, using(crate::proofs::Laws::find_start, crate::proofs::Laws::find_here, crate::proofs::Laws::find_on, crate::proofs::Laws::find_none))]
fn find_entry(bytes: &[u8; table::ENTRY_ROOM], count: u16, entry: Entry) -> Option<u16>
    requires { count ≤ entry_limit }
    ensures number { unwrap_or result 0 ≡ fit.find_entry bytes.now entry.distance entry.level entry.next 1 count }
    ensures counted { IfSome result (λ k. 0 < k) }
{
    for k in 1..count + 1 {
        let at = table::ENTRY_SIZE * (k as usize - 1);
        if is_entry(bytes, at, entry) {
            return Some(k);
        }
    }
    None
}

#[tactic(auto, unfolding(fit::specs::Entries::put_entry))]
fn put_entry(bytes: &mut [u8; table::ENTRY_ROOM], at: usize, entry: Entry)
    requires { at + entry_size ≤ entry_room }
    ensures { bytes.new ≡ fit.put_entry bytes.old at entry.distance entry.level entry.next }
{
    bytes[at] = table::ENTRY_KIND;
    bytes[at + 1] = entry.distance;
    bytes[at + 2] = entry.level;
    table::put_number(bytes, at + 3, entry.next);
}

// One entry: an equal earlier one is used again, else one more is made; nothing where there are too many.
#[tactic(auto, using(crate::proofs::Laws::enter_again, crate::proofs::Laws::enter_new, crate::proofs::Laws::enter_over))]
fn enter(bytes: &mut [u8; table::ENTRY_ROOM], count: u16, entry: Entry) -> Option<Made>
    requires { count ≤ entry_limit }
    ensures next_value { fit.enter entry.distance entry.level (fit.Made bytes.old count entry.next) ≡ as_entries bytes.new result }
    ensures result_bound { count_of result ≤ entry_limit }
{
    if let Some(last) = find_entry(bytes, count, entry) {
        return Some(Made { count, last });
    }
    if (count as usize) < base::ENTRY_LIMIT {
        put_entry(bytes, table::ENTRY_SIZE * (count as usize), entry);
        let more = count + 1;
        return Some(Made {
            count: more,
            last: more,
        });
    }
    None
}

// The chain of a pattern line of m symbols: its nonzero levels from the smallest distance up. Where there are too
// many entries, what the room holds is left open.
#[tactic(auto, using(crate::proofs::Laws::levels_start, crate::proofs::Laws::levels_over, crate::proofs::Laws::levels_skip, crate::proofs::Laws::levels_enter, crate::proofs::Laws::levels_end))]
pub fn enter_levels(
    bytes: &mut [u8; table::ENTRY_ROOM],
    count: u16,
    line: &[u8],
    m: u8,
) -> Option<Made>
    requires { (count ≤ entry_limit) × (m ≤ pattern_limit) }
    ensures count_value { fit.enter_levels (levels_from 0 line.now) m 0 (suc m) (fit.Made bytes.old count 0) ≡ as_entries bytes.new result }
    ensures result_bound { count_of result ≤ entry_limit }
{
    let mut made = Made { count, last: 0 };
    for distance in 0..=m {
        let level = patterns::level_at(line, (m - distance) as usize);
        if level == 0 {
            continue;
        }
        let entry = Entry {
            distance,
            level,
            next: made.last,
        };
        made = enter(bytes, made.count, entry)?;
    }
    Some(made)
}
