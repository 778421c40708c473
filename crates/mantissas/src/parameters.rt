// What the bit allocation of a slot goes by (6.2.2.1).
ghost use Rattle.std.specs.Prelude.{◌≡◌, ◌<◌};
ghost use Rattle.signed.specs.Bound.{Below};
ghost use Rattle.alloc.specs.Sound.{SoundParameters};
ghost use Rattle.slots.specs.Sound.{SoundAlloc, SoundSegments};
ghost use Rattle.mantissas.specs.Mantissas as grammar;
ghost use Rattle.mantissas.specs.Sound.{SoundPart, SoundParts, listed};

use crate::{Part, Parts};
use alloc::{Gains, Parameters};
use slots::{AllocState, CPL, Deltas, LFE, NO_DELTAS, Offsets};

// Whether the coarse offset and the fine ones of the slots in use are all 0: then every pointer is 0.
pub fn is_silent(offsets: &Offsets, ps: &Parts) -> bool
    requires { SoundParts ps.now }
    ensures { result ≡ grammar.silent offsets.now (listed ps.now) }
{
    for p in ps.slots() {
        if offsets.fsnroffst[p.slot as usize] != 0 {
            return false;
        }
    }
    offsets.csnroffst == 0
}

// The leak of a slot before its first band, by its code: coupling alone has one.
fn leak_of(slot: u8, code: u8) -> i32
    requires { code < 8 }
    ensures { (result ≡ grammar.leak_of slot code) × Below 17 result }
{
    if slot == CPL {
        256 * code as i32 + 768
    } else {
        0
    }
}

fn gains_of(st: &AllocState, slot: u8) -> Gains
    requires { slot < 7 }
    ensures { result ≡ grammar.gains_of st.now slot }
{
    Gains {
        fdecay: tables::fast_decay(st.curve.fdcycod),
        sdecay: tables::slow_decay(st.curve.sdcycod),
        fgain: tables::fast_gain(st.offsets.fgaincod[slot as usize]),
        sgain: tables::slow_gain(st.curve.sgaincod),
    }
}

// LFE has no delta.
pub fn deltas_of(st: &AllocState, slot: u8) -> Deltas
    requires { (slot < 7) × SoundAlloc st.now }
    ensures { (result ≡ grammar.deltas_of st.now slot) × SoundSegments result }
{
    if slot == LFE {
        NO_DELTAS
    } else {
        st.deltas[slot as usize]
    }
}

// 6.2.2.1: what the allocation of a slot goes by.
pub fn parameters_of(fscod: u8, st: &AllocState, p: Part) -> Parameters
    requires { (fscod < 3) × SoundAlloc st.now × SoundPart p }
    ensures { (result ≡ grammar.parameters_of fscod st.now p) × SoundParameters result }
{
    let deltas = deltas_of(st, p.slot);
    let segments = deltas.segments;
    Parameters {
        start: p.start as usize,
        end: p.end as usize,
        gains: gains_of(st, p.slot),
        fastleak: leak_of(p.slot, st.leak.cplfleak),
        slowleak: leak_of(p.slot, st.leak.cplsleak),
        dbknee: tables::db_knee(st.curve.dbpbcod),
        fscod: fscod as usize,
        segments,
        count: deltas.count as usize,
        snroffset: alloc::snr_offset(st.offsets.csnroffst, st.offsets.fsnroffst[p.slot as usize]),
        floor: tables::floor(st.curve.floorcod),
    }
}
