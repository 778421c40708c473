// The dialogue level of a programme is corrected in the frame: the level is written, the frame's check words follow, and what changed is
// listed.
#![tactic(auto)]

mod outcome;

ghost use Rattle.std.specs.Prelude.{◌≡◌, ◌<◌, ◌≤◌};
ghost use Rattle.level.specs.Level.{from_zero, is_present, is_level, ends_in_time, check, dialnorm_of, position_in, correct};

use ac3::Answer as Parsed;
use header::programmes;
pub use outcome::{Correction, Refusal, Refused};
use syntax::ROW;
use syntax::names::DIALNORM;

// Which number of a row is its position.
const POSITION: usize = 5;

const DIALNORM_WIDTH: usize = 5;

// Operators count programmes from one, the parser from zero. One is subtracted here and nowhere else.
fn from_zero(programme: usize) -> usize
    requires { 0 < programme }
    ensures { result ≡ from_zero programme }
{
    programme - 1
}

fn is_present(acmod: u8, programme: usize) -> bool
    ensures { result ≡ is_present acmod programme }
{
    0 < programme && from_zero(programme) < usize::from(programmes(acmod))
}

fn is_level(level: usize) -> bool
    ensures { result ≡ is_level level }
{
    1 <= level && level <= 31
}

fn ends_in_time(parsed: Parsed) -> bool
    ensures { result ≡ ends_in_time parsed }
{
    usize::from(parsed.summary.end) + 18 <= usize::from(parsed.summary.header.bytes / 2) * 16
}

// The first refusal there is.
fn check(parsed: Parsed, programme: usize, level: usize) -> Result<(), Refusal>
    ensures { result ≡ check parsed programme level }
{
    if parsed.refusal != 0 {
        return Err(Refusal::Frame(parsed.refusal));
    }
    if !is_present(parsed.summary.header.acmod, programme) {
        return Err(Refusal::NoProgramme);
    }
    if !is_level(level) {
        return Err(Refusal::NoLevel);
    }
    if !ends_in_time(parsed) {
        return Err(Refusal::EndsLate);
    }
    Ok(())
}

// The name of a programme's dialnorm. The second one's stands eight further on.
fn dialnorm_of(programme: usize) -> u8
    requires { (0 < programme) × (programme ≤ 2) }
    ensures { result ≡ dialnorm_of programme }
{
    DIALNORM + 8 * from_zero(programme) as u8
}

// The position of the first row that has this name; 0 where none has it.
fn position(rows: &[i32], count: usize, name: u8) -> usize
    ensures { result ≡ position_in count name rows.now }
{
    let i = rows::first(rows, count, name);
    if i < count {
        rows::natural(rows[i * ROW + POSITION])
    } else {
        0
    }
}

// Corrects the level of a programme, counted from 1, in the frame at a place of a capture. On a refusal capture and changes are untouched.
pub fn correct(
    capture: &mut [u8],
    place: usize,
    programme: usize,
    level: usize,
    rows: &mut [i32],
    changes: &mut [i32; 12],
) -> Result<Correction, Refused>
    ensures { (result, (changes.new, (rows.new, capture.new))) ≡ correct capture.old place programme level rows.old changes.old }
{
    let parsed = ac3::parse(capture, place, rows);
    let count = parsed.rows;
    if let Err(refusal) = check(parsed, programme, level) {
        return Err(Refused {
            refusal,
            rows: count,
        });
    }
    let name = dialnorm_of(programme);
    let at = position(rows, count, name);
    let listed = mend::mend(
        &mut capture[place..],
        parsed.summary.header.bytes,
        at,
        DIALNORM_WIDTH,
        level as u32,
        name,
        changes,
    );
    Ok(Correction {
        rows: count,
        changes: listed,
    })
}
