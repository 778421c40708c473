// The rows of a packed listing, number by number, while each stands whole. Only plain numbers go from one turn to the next; what is before and
// after is read by `of_packed`.
ghost use Rattle.std.specs.Prelude.{◌≡◌, ◌≤◌, ◌<◌, length, drop, get_or, IfSome};
ghost use Rattle.packed.specs.Machine.{told};
ghost use Rattle.packed.specs.Moves.{StoredAt, spot};
ghost use Rattle.packed.specs.Packed.{step, tell};
ghost use Rattle.packed.specs.Tellers.{Reads};

use super::tellers::Teller;
use super::{Front, Spelt, of_packed};

// A number of several groups.
fn several(packed: &[u8], at: usize) -> Option<Spelt>
    ensures { IfSome result (StoredAt packed.now at) }
{
    let mut n = 0;
    let mut k = 0;
    for i in at..packed.len() {
        let b = packed[i];
        n += (b % 128) as usize * of_packed::weight_of(k);
        if 2147483648 < n || b == 0 {
            return None;
        }
        if b < 128 {
            return Some(Spelt {
                stored: n,
                end: i + 1,
            });
        }
        k = k.min(4) + 1;
    }
    None
}

// A number of two groups or more.
fn longer(packed: &[u8], at: usize) -> Option<Spelt>
    requires { (at < length packed.now) × (128 ≤ get_or packed.now at 0) }
    ensures { IfSome result (StoredAt packed.now at) }
{
    let b = *packed.get(at + 1)?;
    if b == 0 {
        return None;
    }
    if b < 128 {
        return Some(Spelt {
            stored: (packed[at] % 128) as usize + b as usize * 128,
            end: at + 2,
        });
    }
    several(packed, at)
}

// The number at a place: most are of one group.
pub(crate) fn number_at(packed: &[u8], at: usize) -> Option<Spelt>
    ensures { IfSome result (StoredAt packed.now at) }
{
    let b = *packed.get(at)?;
    if b < 128 {
        return Some(Spelt {
            stored: b as usize,
            end: at + 1,
        });
    }
    longer(packed, at)
}

// The numbers of a row but its last, from a place on.
fn spaced<T: Teller>(packed: &[u8], out: &mut [u8], more: usize, at: usize, from: usize) -> Front
    requires { T.room out.old at (told step tell (spot more 8) (drop from packed.now)) × (0 < more) × (from ≤ length packed.now) }
    ensures { Reads step tell T.tells (spot more 8) (drop from packed.now) out.old at (spot result.rows result.left) (drop result.end packed.now) out.new result.told × (result.end ≤ length packed.now) × (result.rows ≡ more) }
{
    let mut to = at;
    let mut i = from;
    for left in (1..9).rev() {
        let Some(n) = number_at(packed, i) else {
            return Front {
                rows: more,
                left,
                told: to,
                end: i,
            };
        };
        to = T::text(out, to, n.stored, left);
        i = n.end;
    }
    Front {
        rows: more,
        left: 0,
        told: to,
        end: i,
    }
}

// Tells so many rows from a place on; how far they go.
pub(crate) fn read<T: Teller>(
    packed: &[u8],
    out: &mut [u8],
    count: usize,
    at: usize,
    from: usize,
) -> Front
    requires { T.room out.old at (told step tell (spot count 8) (drop from packed.now)) × (from ≤ length packed.now) }
    ensures { Reads step tell T.tells (spot count 8) (drop from packed.now) out.old at (spot result.rows result.left) (drop result.end packed.now) out.new result.told × (result.end ≤ length packed.now) }
{
    let mut to = at;
    let mut i = from;
    for after in (0..count).rev() {
        let front = spaced::<T>(packed, out, after + 1, to, i);
        if 0 < front.left {
            return front;
        }
        let Some(n) = number_at(packed, front.end) else {
            return front;
        };
        to = T::text(out, front.told, n.stored, 0);
        i = n.end;
    }
    Front {
        rows: 0,
        left: 8,
        told: to,
        end: i,
    }
}
