// audblk (4.3.3): the sections of a block in the order of the syntax table. (The large ones are never inlined: what they need of the stack is
// given back before the mantissas, which are the deepest.)
ghost use Rattle.std.specs.Prelude.{false, cond, ◌&&◌, ◌||◌, List, [], ◌∷◌, ◌++◌, ◌≡◌, ℕ, ◌+◌, ◌*◌, ◌<◌, ◌≤◌, get_or, IfOk};
ghost use Rattle.syntax.specs.Grammar as syntax;
ghost use Rattle.syntax.specs.Reads.{Reads, with_lent};
ghost use Rattle.header.specs.Header as header;
ghost use Rattle.header.specs.Sound.{SoundHeader};
ghost use Rattle.std.proofs.lemmas.List.Edits.{sets};
ghost use Rattle.slots.specs.Sound.{SoundAlloc, SoundCoupling, SoundEnds, SoundExps};
ghost use Rattle.slots.specs.Reused.{Keeps, ReusedBy};
ghost use Rattle.channels.specs.Sound.{SoundBands, SoundBandwidths};
ghost use Rattle.mantissas.specs.Kept.{Kept};
ghost use Rattle.ac3.specs.AudioBlock as grammar;
ghost use Rattle.ac3.specs.Sent.{Sending, each_coupled};
ghost use Rattle.ac3.specs.Sound.{SoundState};
ghost use Rattle.ac3.specs.Tallied.{Tallied};

use crate::{SLOT_COUNTS, State, Tally};
use channels::Bandwidths;
use channels::coordinates::coupling_coordinates;
use channels::coupling::coupling_strategy;
use channels::ends::{bandwidths, channel_ends};
use channels::rematrixing::rematrixing;
use channels::strategies::exponent_strategies;
use exponents::{Layout, exponents};
use header::{Header, programmes};
use mantissas::{Block, mantissas};
use parameters::curve::curve;
use parameters::delta::deltas;
use parameters::leak::coupling_leak;
use parameters::offsets::offsets;
use slots::{AllocState, Coupling, Cover, Strategies};
use syntax::items::one_roled;
use syntax::names::*;
use syntax::{Reader, Refusal, Role};
use tables::nfchans;

// Dynamic range: the second programme's names stand two further on.
fn dynamic_range(r: &mut Reader<'_>, blk: u8, p: u8) -> Result<(), Refusal>
    requires { p < 2 }
    ensures { Reads (grammar.dynamic_range blk p) r.old result r.new }
{
    let exists = one_roled(blk, Role::DynrngExists(p), DYNRNGE + 2 * p);
    let dynrnge = r.flag(exists)?;
    let dynrng = one_roled(blk, Role::Dynrng(p), DYNRNG + 2 * p);
    r.note_if(dynrnge, dynrng, 8)
}

fn dynamic_ranges(r: &mut Reader<'_>, blk: u8, acmod: u8) -> Result<(), Refusal>
    ensures { Reads (syntax.each (header.programmes acmod) (grammar.dynamic_range blk)) r.old result r.new }
{
    for p in 0..programmes(acmod) {
        dynamic_range(r, blk, p)?;
    }
    Ok(())
}

fn skip_field(r: &mut Reader<'_>, blk: u8) -> Result<(), Refusal>
    ensures { Reads (grammar.skip_field blk) r.old result r.new }
{
    let skiple = r.flag(one_roled(blk, Role::Skiple, SKIPLE))?;
    if skiple {
        let skipl = r.take(one_roled(blk, Role::Skipl, SKIPL), 9)?;
        let skipfld = one_roled(blk, Role::Skipfld, SKIPFLD);
        r.pass(skipfld, 8 * skipl as u16)?;
    }
    Ok(())
}

// Which channels have had coordinates while they were coupled: before, or in this block.
fn had_by_now(before: [bool; 5], chincpl: [bool; 5], cplcoe: [bool; 5]) -> [bool; 5]
    ensures { (ch : ℕ) → ch < 5 → get_or result ch false ≡ (get_or before ch false || (get_or chincpl ch false && get_or cplcoe ch false)) }
{
    let mut had = before;
    for ch in 0..5 {
        had[ch] = before[ch] | (chincpl[ch] & cplcoe[ch]);
    }
    had
}

// Every coupled channel has had coordinates.
fn all_had(chincpl: [bool; 5], had: [bool; 5]) -> bool
    ensures { result ≡ each_coupled chincpl (λ ch. get_or had ch false) }
{
    for ch in 0..5 {
        if chincpl[ch] & !had[ch] {
            return false;
        }
    }
    true
}

// The same of every block up to this one.
fn sent_so_far(before: bool, chincpl: [bool; 5], had: [bool; 5]) -> bool
    ensures { result ≡ (before && each_coupled chincpl (λ ch. get_or had ch false)) }
{
    before & all_had(chincpl, had)
}

// The tally with one block more: how it is coupled, where it and its mantissas start, and the bits of its slots, in their place among those of
// all blocks.
fn counted(
    blk: u8,
    start: u16,
    mantissas: u16,
    bits: [u16; 7],
    cplinu: bool,
    sent: bool,
    t: Tally,
) -> Tally
    requires { (blk < 6) × (t.coupled ≤ blk) }
    ensures value { result ≡ grammar.counted blk start (record { start = mantissas; bits = bits }) cplinu sent t }
    ensures coupled_bound { result.coupled ≤ blk + 1 }
{
    let mut next = t;
    if cplinu {
        next.coupled += 1;
    }
    next.coordinates = sent;
    next.starts[blk as usize] = start;
    next.mantissas[blk as usize] = mantissas;
    let first = 7 * blk as usize;
    next.bits[first..first + 7].copy_from_slice(&bits);
    next
}

// Block switches, dither and dynamic range.
fn channel_settings(r: &mut Reader<'_>, blk: u8, acmod: u8) -> Result<(), Refusal>
    ensures { Reads (grammar.channel_settings blk acmod) r.old result r.new }
{
    let n = nfchans(acmod);
    r.flags(blk, BLKSW, n)?;
    r.flags(blk, DITHFLAG, n)?;
    dynamic_ranges(r, blk, acmod)
}

// The coupling in force, and which channels have new coordinates.
#[derive(Clone, Copy)]
pub struct Coupled {
    pub coupling: Coupling,
    pub cplcoe: [bool; 5],
}

// Coupling strategy and coordinates, and rematrixing.
#[inline(never)]
fn coupling_section(
    r: &mut Reader<'_>,
    blk: u8,
    acmod: u8,
    old: Coupling,
) -> Result<Coupled, Refusal>
    requires { SoundCoupling old × SoundBands old }
    ensures reads { Reads (grammar.coupling_section blk acmod old) r.old (with_lent (λ c. record { coupling = c.coupling; cplcoe = c.cplcoe }) result) r.new }
    ensures sound_coupling { IfOk result (λ c. SoundCoupling c.coupling × SoundBands c.coupling) }
{
    let n = nfchans(acmod);
    let coupling = coupling_strategy(r, blk, acmod, n, old)?;
    let cplcoe = coupling_coordinates(r, blk, n, coupling)?;
    rematrixing(r, blk, acmod, coupling)?;
    Ok(Coupled { coupling, cplcoe })
}

// The strategies of a block, the bandwidths in force, where each channel ends, and the bins that the exponents in force cover. The exponents
// themselves are lent.
#[derive(Clone, Copy)]
pub struct Exponented {
    pub strategies: Strategies,
    pub bandwidths: Bandwidths,
    pub ends: [usize; 5],
    pub cover: Cover,
}

// Exponent strategies, bandwidths and exponents.
#[inline(never)]
fn exponent_section(
    r: &mut Reader<'_>,
    exps: &mut [[i16; 256]; 7],
    blk: u8,
    header: Header,
    coupling: Coupling,
    old: Bandwidths,
    cover: Cover,
) -> Result<Exponented, Refusal>
    requires { SoundCoupling coupling × SoundBandwidths old × SoundExps exps.old }
    ensures reads { Reads (grammar.exponent_section blk header coupling old (record { cover = cover; exps = exps.old })) r.old
        (with_lent (λ e. record { strategies = e.strategies; bandwidths = e.bandwidths; ends = e.ends; exponents = record { cover = e.cover; exps = exps.new } }) result) r.new }
    ensures sound_bandwidths { IfOk result (λ e. SoundBandwidths e.bandwidths × SoundEnds e.ends) }
    ensures sound_exps { SoundExps exps.new }
    ensures keeps { IfOk result (λ e. Keeps (ReusedBy e.strategies) exps.old exps.new) }
{
    let n = nfchans(header.acmod);
    let strategies = exponent_strategies(r, blk, n, coupling.cplinu, header.lfeon)?;
    let bandwidths = bandwidths(r, blk, n, coupling, strategies.chexpstr, old)?;
    let ends = channel_ends(n, coupling, bandwidths)?;
    let layout = Layout {
        blk,
        nfchans: n,
        lfeon: header.lfeon,
        coupling,
        strategies,
        ends,
    };
    let cover = exponents(r, exps, layout, cover)?;
    Ok(Exponented {
        strategies,
        bandwidths,
        ends,
        cover,
    })
}

// ---- the whole block

// Bit allocation information, as far as the skip field.
#[inline(never)]
fn alloc_state(
    r: &mut Reader<'_>,
    blk: u8,
    nfchans: u8,
    cplinu: bool,
    lfeon: bool,
    old: AllocState,
) -> Result<AllocState, Refusal>
    requires nfchans_bound { nfchans ≤ 5 }
    requires sound_alloc { SoundAlloc old }
    ensures reads { Reads (grammar.alloc_state blk nfchans cplinu lfeon old) r.old result r.new }
    ensures sound_alloc_2 { IfOk result SoundAlloc }
{
    let curve = curve(r, blk, old.curve)?;
    let offsets = offsets(r, blk, nfchans, cplinu, lfeon, old.offsets)?;
    let leak = coupling_leak(r, blk, cplinu, old.leak)?;
    let deltas = deltas(r, blk, nfchans, cplinu, old.deltas)?;
    Ok(AllocState {
        curve,
        offsets,
        leak,
        deltas,
    })
}

// What a block leaves to the next one, the tally so far, and which channels have had coordinates while they were coupled.
#[derive(Drop)]
pub struct Left {
    pub state: State,
    pub tally: Tally,
    pub had: [bool; 5],
}

// The sections of a block, in the order of the table. The exponents in force stand beside the state, and so does what was counted of the slots
// before. Whatever the blocks before were, if `had` and the tally tell of them whether coordinates were sent, they do so of those blocks and
// this one.
fn sections(
    r: &mut Reader<'_>,
    exps: &mut [[i16; 256]; 7],
    memos: &mut [[u32; 16]; 7],
    header: Header,
    blk: u8,
    old: State,
    tally: Tally,
    had: [bool; 5],
) -> Result<Left, Refusal>
    requires blk_bound { (blk < 6) × (tally.coupled ≤ blk) }
    requires sound_header { SoundHeader header }
    requires sound_state { SoundState old }
    requires sound_exps { SoundExps exps.old }
    requires kept { Kept header.fscod memos.old exps.old }
    ensures reads { (earlier : List Sending) → Tallied earlier tally.coordinates had → (this : Sending)
        × Reads (grammar.audio_block header blk (record { state = old; exps = exps.old; tally = tally; blocks = earlier })) r.old
        (with_lent (λ left. record { state = left.state; exps = exps.new; tally = left.tally; blocks = earlier ++ this ∷ [] }) result) r.new
        × IfOk result (λ left. Tallied (earlier ++ this ∷ []) left.tally.coordinates left.had) }
    ensures sound_state_2 { IfOk result (λ left. SoundState left.state) }
    ensures sound_exps_2 { SoundExps exps.new }
    ensures coupled_bound { IfOk result (λ left. left.tally.coupled ≤ blk + 1) }
    ensures kept_2 { IfOk result (λ left. Kept header.fscod memos.new exps.new) }
{
    let start = r.at;
    let n = nfchans(header.acmod);
    channel_settings(r, blk, header.acmod)?;
    let coupled = coupling_section(r, blk, header.acmod, old.coupling)?;
    let coupling = coupled.coupling;
    let read = exponent_section(r, exps, blk, header, coupling, old.bandwidths, old.cover)?;
    let bandwidths = read.bandwidths;
    let cover = read.cover;
    let ends = read.ends;
    let alloc = alloc_state(r, blk, n, coupling.cplinu, header.lfeon, old.alloc)?;
    skip_field(r, blk)?;
    let block = Block {
        blk,
        fscod: header.fscod,
        nfchans: n,
        lfeon: header.lfeon,
        coupling,
        strategies: read.strategies,
        ends,
    };
    let spanned = mantissas(r, block, alloc, exps, memos)?;
    let chincpl = coupling.chincpl;
    let had = had_by_now(had, chincpl, coupled.cplcoe);
    let sent = sent_so_far(tally.coordinates, chincpl, had);
    let tally = counted(
        blk,
        start,
        spanned.start,
        spanned.bits,
        coupling.cplinu,
        sent,
        tally,
    );
    Ok(Left {
        state: State {
            coupling,
            bandwidths,
            cover,
            alloc,
        },
        tally,
        had,
    })
}

// The same; and where the block is refused, what was counted of the slots is forgotten, since some of their exponents may be new already. So it
// is true of the exponents whatever is read.
pub fn audio_block(
    r: &mut Reader<'_>,
    exps: &mut [[i16; 256]; 7],
    memos: &mut [[u32; 16]; 7],
    header: Header,
    blk: u8,
    old: State,
    tally: Tally,
    had: [bool; 5],
) -> Result<Left, Refusal>
    requires blk_bound { (blk < 6) × (tally.coupled ≤ blk) }
    requires sound_header { SoundHeader header }
    requires sound_state { SoundState old }
    requires sound_exps { SoundExps exps.old }
    requires kept { Kept header.fscod memos.old exps.old }
    ensures reads { (earlier : List Sending) → Tallied earlier tally.coordinates had → (this : Sending)
        × Reads (grammar.audio_block header blk (record { state = old; exps = exps.old; tally = tally; blocks = earlier })) r.old
        (with_lent (λ left. record { state = left.state; exps = exps.new; tally = left.tally; blocks = earlier ++ this ∷ [] }) result) r.new
        × IfOk result (λ left. Tallied (earlier ++ this ∷ []) left.tally.coordinates left.had) }
    ensures sound_state_2 { IfOk result (λ left. SoundState left.state) }
    ensures sound_exps_2 { SoundExps exps.new }
    ensures coupled_bound { IfOk result (λ left. left.tally.coupled ≤ blk + 1) }
    ensures kept_2 { Kept header.fscod memos.new exps.new }
{
    match sections(r, exps, memos, header, blk, old, tally, had) {
        Ok(left) => Ok(left),
        Err(refusal) => {
            *memos = [[0; 16]; 7];
            Err(refusal)
        }
    }
}
