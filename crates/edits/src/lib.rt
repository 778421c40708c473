// Editing a frame where it stands: the names whose values may be changed freely, and a value written into a field.
#![tactic(auto)]

ghost use Rattle.std.specs.Prelude.{◌≡◌, ◌+◌, ◌*◌, ◌^◌, ◌≤◌, leb};
ghost use Rattle.ac3.specs.Marked.{among};
ghost use Rattle.syntax.specs.Names as Name;
ghost use Rattle.edits.specs.Edits as after;
ghost use Rattle.edits.specs.Edits.{number, told};

use syntax::names::*;

// How many names may be edited freely.
const EDITABLE: usize = 39;

// Why a value is not written, with the numbers of the table in docs/FORMAT.md.
#[derive(Clone, Copy, Debug, PartialEq, Eq)]
pub enum Refusal {
    NoFieldWidth = 57,
    Outside = 58,
    ValueTooWide = 59,
}

impl Refusal {
    // The number that is told of it.
    pub fn number(self) -> u8
        ensures { result ≡ number self }
    {
        self as u8
    }
}

// ---- which names

// The names of the values that steer nothing. In bsi the second programme's stand eight further on, and its dynrng two.
fn editable_names() -> [u8; EDITABLE]
    ensures { result ≡ Name.editable }
{
    [
        CRC1,
        BSMOD,
        CMIXLEV,
        SURMIXLEV,
        DSURMOD,
        DIALNORM,
        COMPR,
        LANGCOD,
        MIXLEVEL,
        ROOMTYP,
        DIALNORM + 8,
        COMPR + 8,
        LANGCOD + 8,
        MIXLEVEL + 8,
        ROOMTYP + 8,
        COPYRIGHTB,
        ORIGBS,
        DMIXMOD,
        LTRTCMIXLEV,
        LTRTSURMIXLEV,
        LOROCMIXLEV,
        LOROSURMIXLEV,
        DSUREXMOD,
        DHEADPHONMOD,
        ADCONVTYP,
        XBSI2,
        ENCINFO,
        TIMECOD1,
        TIMECOD2,
        BLKSW,
        DITHFLAG,
        DYNRNG,
        DYNRNG + 2,
        MSTRCPLCO,
        CPLCOEXP,
        CPLCOMANT,
        PHSFLG,
        REMATFLG,
        GAINRNG,
    ]
}

fn among(name: usize, names: &[u8]) -> bool
    ensures { result ≡ among name names.now }
{
    names.iter().any(|&other| name == usize::from(other))
}

// Whether new values in the fields of this name change nothing but themselves.
pub fn editable(name: usize) -> bool
    ensures { result ≡ among name Name.editable }
{
    let names = editable_names();
    among(name, &names)
}

// ---- a value written

// Whether so many bits from a bit on end within so many bytes.
fn within(bytes: usize, position: usize, width: usize) -> bool
    requires { width ≤ 16 }
    ensures { result ≡ leb (position + width) (bytes * 8) }
{
    position / 8 + (position % 8 + width + 7) / 8 <= bytes
}

// How many values a field of this width can hold.
fn values(width: usize) -> usize
    requires { width ≤ 16 }
    ensures { (result ≡ 2 ^ width) × (result ≤ 65536) }
{
    (1u32 << width) as usize
}

// Writes a value of this width at a bit of the frame that starts at a place of the capture. All other bits stay as they are, and on a
// refusal all bits do.
pub fn set(
    capture: &mut [u8],
    place: usize,
    position: usize,
    width: usize,
    value: usize,
) -> Result<(), Refusal>
    ensures { (told result, capture.new) ≡ after.set capture.old place position width value }
{
    if width == 0 || 16 < width {
        return Err(Refusal::NoFieldWidth);
    }
    if capture.len() < place || !within(capture.len() - place, position, width) {
        return Err(Refusal::Outside);
    }
    if values(width) <= value {
        return Err(Refusal::ValueTooWide);
    }
    bits::put(&mut capture[place..], position, width, value as u32);
    Ok(())
}
