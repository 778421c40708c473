// The groups of a set where frame, input and room hold all of them: no group needs a test of its own, and where reading stands is told by the
// group's number alone.
ghost use Rattle.std.specs.Prelude.{◌≡◌, true, ◌+◌, ◌*◌, ◌^◌, ◌<◌, ◌≤◌, length};
ghost use Rattle.std.proofs.lemmas.List.Edits.{sets};
ghost use Rattle.syntax.specs.Grammar.{for, part_of};
ghost use Rattle.syntax.specs.Numbers.{row_width, numbers};
ghost use Rattle.syntax.specs.Reads.{Reads, with_lent};
ghost use Rattle.syntax.specs.Run.{row, spanning};
ghost use Rattle.slots.specs.Sound.{SoundRow};
ghost use Rattle.exponents.specs.Exponents as grammar;
ghost use Rattle.exponents.specs.AtHand as at_hand;
ghost use Rattle.exponents.specs.AtHand.{AtHand};
ghost use Rattle.exponents.specs.Sound.{SoundUnpacked, SoundGrouping};

use crate::groups::{Grouping, bins_each, unpack_group};
use crate::unpack::steps;
use syntax::rows::shown;
use syntax::{ROW, Reader, Refusal};

// Whether frame, input and room hold so many groups.
pub(crate) fn all_at_hand(r: &Reader<'_>, count: usize) -> bool
    requires { count ≤ 256 }
    ensures { result ≡ true → AtHand r.now count }
{
    let end = r.at as usize + 7 * count;
    let in_frame = end <= r.limit as usize;
    let in_input = end / 8 + 2 <= r.bytes.len();
    let in_room = r.count.saturating_add(count) <= r.rows.len() / ROW;
    in_frame & in_input & in_room
}

// Goes past so many groups.
fn go_past(r: &mut Reader<'_>, groups: usize)
    requires { (r.old.at + 7 * groups ≤ r.old.limit) × (r.old.count + groups < 2 ^ 64) }
    ensures { r.new ≡ at_hand.past groups r.old }
{
    r.at += 7 * groups as u16;
    r.count += groups;
}

// Writes the row of group number n from place `to` on. All groups of a set have the same numbers but for position, value and part.
fn write_group(rows: &mut [i32], to: usize, set: Grouping, n: usize, start: usize, value: u32)
    requires { (to + row_width ≤ length rows.old) × ((n < 255) × ((start < 65536) × (value < 128))) }
    ensures { rows.new ≡ sets rows.old to (numbers (row spanning (part_of set.blk set.name set.index n) start 7 value)) }
{
    rows[to] = set.name as i32;
    rows[to + 1] = 0;
    rows[to + 2] = -1;
    rows[to + 3] = shown(set.blk);
    rows[to + 4] = shown(set.index);
    rows[to + 5] = start as i32;
    rows[to + 6] = 7;
    rows[to + 7] = value as i32;
    rows[to + 8] = n as i32;
}

// All groups of a set. The reader's place is set once: at the end, or past the group that is refused.
pub(crate) fn groups_at_hand(
    r: &mut Reader<'_>,
    row: &mut [i16; 256],
    set: Grouping,
    last: u32,
) -> Result<u32, Refusal>
    requires grouping { SoundGrouping set }
    requires sound_unpacked { SoundUnpacked (record { last = last; row = row.old }) }
    requires at_hand { AtHand r.old set.count }
    ensures reads { Reads (for 0 set.count (record { last = last; row = row.old }) (grammar.group (part_of set.blk set.name set.index) (grammar.bins_each set.strategy) set.first))
        r.old (with_lent (λ made. record { last = made; row = row.new }) result) r.new }
    ensures sound_row { SoundRow row.new }
{
    let steps = steps();
    let width = 3 * bins_each(set.strategy);
    // The reader's fields are looked up here, and not again for each group.
    let bytes = r.bytes;
    let rows = &mut *r.rows;
    let first_bit = r.at as usize;
    let first_row = r.count;
    let mut exponent = last;
    for n in 0..set.count {
        let start = first_bit + 7 * n;
        let group = bits::get_at_hand(bytes, start, 7);
        write_group(rows, (first_row + n) * ROW, set, n, start, group);
        let at = set.first + n * width;
        exponent = match unpack_group(row, &steps, set.strategy, at, exponent, group) {
            Ok(made) => made,
            Err(refusal) => {
                go_past(r, n + 1);
                return Err(refusal);
            }
        };
    }
    go_past(r, set.count);
    Ok(exponent)
}
