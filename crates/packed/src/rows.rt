// The rows at the front of a text, number by number, while each stands whole. Only plain numbers go from one turn to the next; what follows is
// read by `of_text`. (`cells` does the same in a packed listing, where the count of the rows to come is known: a trait over the two would hold
// each line that they do not share.)
ghost use Rattle.std.specs.Prelude.{◌≡◌, ◌≤◌, ◌<◌, length, drop};
ghost use Rattle.packed.specs.Machine.{told};
ghost use Rattle.packed.specs.Moves.{cell};
ghost use Rattle.packed.specs.Tellers.{Reads};
ghost use Rattle.packed.specs.declared.Text.TheVariants.{Line};
ghost use Rattle.packed.specs.Text.{step, tell};

use super::tellers::Teller;
use super::{Front, at_once};

// The count of no rows, stored plus one.
const NO_ROWS: usize = 1;

// The count of as many rows as a listing may have, stored plus one.
const MOST_ROWS: usize = 2147483648;

// The numbers of a row that a space ends, from a place on.
fn spaced<T: Teller>(text: &[u8], out: &mut [u8], rows: usize, at: usize, from: usize) -> Front
    requires { T.room out.old at (told step tell (cell rows 8) (drop from text.now)) × (rows < 2147483648) × (from ≤ length text.now) }
    ensures { Reads step tell T.tells (cell rows 8) (drop from text.now) out.old at (cell result.rows result.left) (drop result.end text.now) out.new result.told × (result.end ≤ length text.now) × (result.rows ≡ rows) }
{
    let mut to = at;
    let mut i = from;
    for left in (1..9).rev() {
        let Some(n) = at_once::spelt_at(text, i, b' ') else {
            return Front {
                rows,
                left,
                told: to,
                end: i,
            };
        };
        to = T::packed(out, to, n.stored);
        i = n.end;
    }
    Front {
        rows,
        left: 0,
        told: to,
        end: i,
    }
}

// Tells the rows; how far they go.
pub(crate) fn read<T: Teller>(text: &[u8], out: &mut [u8], at: usize) -> Front
    requires { T.room out.old at (told step tell (Line 1) text.now) }
    ensures { Reads step tell T.tells (Line 1) text.now out.old at (cell result.rows result.left) (drop result.end text.now) out.new result.told × (result.end ≤ length text.now) }
{
    let mut to = at;
    let mut i = 0;
    for rows in NO_ROWS..MOST_ROWS {
        let front = spaced::<T>(text, out, rows, to, i);
        if 0 < front.left {
            return front;
        }
        let Some(n) = at_once::spelt_at(text, front.end, b'\n') else {
            return front;
        };
        to = T::packed(out, front.told, n.stored);
        i = n.end;
    }
    Front {
        rows: MOST_ROWS,
        left: 8,
        told: to,
        end: i,
    }
}
