// The header of a frame: syncinfo (4.3.1) and bsi (4.3.2, or D.1.2 when bsid is 6). What is public here is so because the frame stands in a
// crate above. (Always inlined, so that one who reads a header alone has the reader in registers.)
#![tactic(auto)]

ghost use Rattle.std.specs.Prelude.{◌≡◌, cond, ◌<◌, ◌≤◌, eqb, IfOk};
ghost use Rattle.syntax.specs.Grammar as syntax;
ghost use Rattle.syntax.specs.Reads.{Reads};
ghost use Rattle.header.specs.Header as grammar;
ghost use Rattle.header.specs.Sound.{SoundHeader};

use syntax::items::{plain, roled};
use syntax::names::*;
use syntax::readers::refuse_if;
use syntax::{Reader, Refusal, Role};

// What a frame's header says of its blocks.
#[derive(Clone, Copy, PartialEq, Eq)]
pub struct Header {
    pub bytes: u16,
    pub fscod: u8,
    pub bsid: u8,
    pub acmod: u8,
    pub lfeon: bool,
}

// What is told where a header is refused. (Public for the answers, in the crate above.)
pub const NO_HEADER: Header = Header {
    bytes: 0,
    fscod: 0,
    bsid: 0,
    acmod: 0,
    lfeon: false,
};

// ---- syncinfo

// fscod, and the bytes of the frame. Most places of a capture have no sync word: nothing else is looked at there.
#[inline(always)]
fn syncinfo(r: &mut Reader<'_>) -> Result<(u8, u16), Refusal>
    ensures reads { Reads grammar.syncinfo r.old result r.new }
    ensures fscod_bound { IfOk result (λ sync. sync.0 < 3) }
{
    r.frame(Refusal::TooShort, 6)?;
    let syncword = r.take(roled(Role::Sync, SYNCWORD), 16)?;
    refuse_if(syncword != 0x0B77, Refusal::NotSync)?;
    r.note(roled(Role::Crc1, CRC1), 16)?;
    let fscod = r.take(roled(Role::FrameSize, FSCOD), 2)? as u8;
    let frmsizecod = r.take(roled(Role::FrameSize, FRMSIZECOD), 6)? as u8;
    let bytes = tables::frame_bytes(fscod, frmsizecod);
    refuse_if(bytes == 0, Refusal::NoFrameSize)?;
    r.frame(Refusal::CutShort, bytes)?;
    Ok((fscod, bytes))
}

// ---- bsi

// One programme: the second one's names stand eight further on.
#[inline(always)]
fn programme_info(r: &mut Reader<'_>, p: u8) -> Result<(), Refusal>
    requires { p < 2 }
    ensures { Reads (grammar.programme_info p) r.old result r.new }
{
    let n = 8 * p;
    r.note(roled(Role::Dialnorm(p), DIALNORM + n), 5)?;
    let compre = r.flag(roled(Role::ComprExists(p), COMPRE + n))?;
    r.note_if(compre, roled(Role::Compr(p), COMPR + n), 8)?;
    let langcode = r.flag(plain(LANGCODE + n))?;
    r.note_if(langcode, plain(LANGCOD + n), 8)?;
    let audprodie = r.flag(plain(AUDPRODIE + n))?;
    if audprodie {
        r.note(plain(MIXLEVEL + n), 5)?;
        r.note(plain(ROOMTYP + n), 2)?;
    }
    Ok(())
}

// acmod 0 is two programmes.
pub fn programmes(acmod: u8) -> u8
    ensures value { result ≡ grammar.programmes acmod }
    ensures upper_bound { result ≤ 2 }
{
    if acmod == 0 { 2 } else { 1 }
}

#[inline(always)]
fn programme_infos(r: &mut Reader<'_>, acmod: u8) -> Result<(), Refusal>
    ensures { Reads (syntax.each (grammar.programmes acmod) grammar.programme_info) r.old result r.new }
{
    for p in 0..programmes(acmod) {
        programme_info(r, p)?;
    }
    Ok(())
}

// D.1.2
#[inline(always)]
fn alternate_info(r: &mut Reader<'_>) -> Result<(), Refusal>
    ensures { Reads grammar.alternate_info r.old result r.new }
{
    let xbsi1e = r.flag(plain(XBSI1E))?;
    r.note_if(xbsi1e, plain(DMIXMOD), 2)?;
    r.note_if(xbsi1e, plain(LTRTCMIXLEV), 3)?;
    r.note_if(xbsi1e, plain(LTRTSURMIXLEV), 3)?;
    r.note_if(xbsi1e, plain(LOROCMIXLEV), 3)?;
    r.note_if(xbsi1e, plain(LOROSURMIXLEV), 3)?;
    let xbsi2e = r.flag(plain(XBSI2E))?;
    r.note_if(xbsi2e, plain(DSUREXMOD), 2)?;
    r.note_if(xbsi2e, plain(DHEADPHONMOD), 2)?;
    r.note_if(xbsi2e, plain(ADCONVTYP), 1)?;
    r.note_if(xbsi2e, plain(XBSI2), 8)?;
    r.note_if(xbsi2e, plain(ENCINFO), 1)
}

#[inline(always)]
fn time_codes(r: &mut Reader<'_>) -> Result<(), Refusal>
    ensures { Reads grammar.time_codes r.old result r.new }
{
    let timecod1e = r.flag(plain(TIMECOD1E))?;
    r.note_if(timecod1e, plain(TIMECOD1), 14)?;
    let timecod2e = r.flag(plain(TIMECOD2E))?;
    r.note_if(timecod2e, plain(TIMECOD2), 14)
}

// bsid 6 announces the alternate syntax.
#[inline(always)]
fn codes_or_alternate(r: &mut Reader<'_>, bsid: u32) -> Result<(), Refusal>
    ensures { Reads (cond (eqb bsid 6) grammar.alternate_info grammar.time_codes) r.old result r.new }
{
    if bsid == 6 {
        alternate_info(r)
    } else {
        time_codes(r)
    }
}

#[inline(always)]
fn additional_info(r: &mut Reader<'_>) -> Result<(), Refusal>
    ensures { Reads grammar.additional_info r.old result r.new }
{
    let addbsie = r.flag(plain(ADDBSIE))?;
    if addbsie {
        let addbsil = r.take(plain(ADDBSIL), 6)?;
        r.pass(roled(Role::Addbsi, ADDBSI), 8 * (addbsil as u16 + 1))?;
    }
    Ok(())
}

#[inline(always)]
fn bsi(r: &mut Reader<'_>, fscod: u8, bytes: u16) -> Result<Header, Refusal>
    requires { fscod < 3 }
    ensures reads { Reads (grammar.bsi fscod bytes) r.old result r.new }
    ensures sound_header { IfOk result SoundHeader }
{
    let bsid = r.take(plain(BSID), 5)?;
    refuse_if(8 < bsid, Refusal::BadBsid)?;
    r.note(plain(BSMOD), 3)?;
    let acmod = r.take(plain(ACMOD), 3)?;
    r.note_if((acmod % 2 == 1) & (acmod != 1), plain(CMIXLEV), 2)?;
    r.note_if(4 <= acmod, plain(SURMIXLEV), 2)?;
    r.note_if(acmod == 2, plain(DSURMOD), 2)?;
    let lfeon = r.flag(plain(LFEON))?;
    programme_infos(r, acmod as u8)?;
    r.note(plain(COPYRIGHTB), 1)?;
    r.note(plain(ORIGBS), 1)?;
    codes_or_alternate(r, bsid)?;
    additional_info(r)?;
    Ok(Header {
        bytes,
        fscod,
        bsid: bsid as u8,
        acmod: acmod as u8,
        lfeon,
    })
}

// The frame as far as addbsi. Where syncinfo is refused nothing else is looked at.
#[inline(always)]
pub fn read(r: &mut Reader<'_>) -> Result<Header, Refusal>
    ensures reads { Reads grammar.header r.old result r.new }
    ensures sound_header { IfOk result SoundHeader }
{
    let (fscod, bytes) = syncinfo(r)?;
    bsi(r, fscod, bytes)
}
