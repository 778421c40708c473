// Looking into rows as a caller holds them: so many numbers to a row, in a lent run. (Public because operations on a frame's rows stand in
// crates above.)
#![tactic(auto)]

ghost use Rattle.std.specs.Prelude.{◌≡◌};
ghost use Rattle.ac3.specs.Rooms.{natural};
ghost use Rattle.rows.specs.Look.{first, value_in};

use syntax::ROW;

// Which number of a row is its value. (The name comes first.)
const VALUE: usize = 7;

// The first of the first `count` rows that has this name; `count` where none has it.
pub fn first(rows: &[i32], count: usize, name: u8) -> usize
    ensures { result ≡ first count name rows.now }
{
    let wanted = i32::from(name);
    for i in 0..count.min(rows.len() / ROW) {
        if rows[i * ROW] == wanted {
            return i;
        }
    }
    count
}

// The value of that row; 0 where none has the name.
pub fn value(rows: &[i32], count: usize, name: u8) -> i32
    ensures { result ≡ value_in count name rows.now }
{
    let i = first(rows, count, name);
    if i < count { rows[i * ROW + VALUE] } else { 0 }
}

// A number of a row that is not negative, as a count; 0 for one that is.
pub fn natural(z: i32) -> usize
    ensures { result ≡ natural z }
{
    z.max(0) as usize
}
