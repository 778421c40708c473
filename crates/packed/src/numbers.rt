// One number packed: how many bytes it takes, and writing them.
ghost use Rattle.std.specs.Prelude.{◌≡◌, ◌+◌, ◌^◌, ◌≤◌, ◌<◌, min, length};
ghost use Rattle.std.proofs.lemmas.List.Edits.{sets};
ghost use Rattle.listing.specs.Number.{groups};

// A sum that stops one past the room: a listing's text can be longer than any run of bytes.
pub(crate) fn capped(n: usize, more: usize, room: usize) -> usize
    requires { (room < 2 ^ 63) × (n + more < 2 ^ 64) }
    ensures { result ≡ min (n + more) (room + 1) }
{
    (n + more).min(room + 1)
}

// How many groups a number takes.
pub(crate) fn groups_size(v: usize) -> usize
    ensures { (result ≡ length (groups v)) × (result ≤ 10) }
{
    let mut rest = v;
    let mut n = 1;
    while 128 <= rest {
        rest /= 128;
        n += 1;
    }
    n
}

// A number's groups from a place on; the place after them.
pub(crate) fn put_groups(out: &mut [u8], at: usize, v: usize) -> usize
    requires { at + length (groups v) ≤ length out.old }
    ensures { (result ≡ at + length (groups v)) × (out.new ≡ sets out.old at (groups v)) }
{
    let mut rest = v;
    let mut to = at;
    while 128 <= rest {
        to = listing::put(out, to, (128 + rest % 128) as u8);
        rest /= 128;
    }
    listing::put(out, to, rest as u8)
}
