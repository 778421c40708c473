// The tables of TS 102 366. One function reads each, since a table that stands in a goal is written out there. Past its last
// entry a table has 0.
#![tactic(auto, unfolding(crate::specs::Tables::slow_decay, crate::specs::Tables::fast_decay, crate::specs::Tables::slow_gain, crate::specs::Tables::knee, crate::specs::Tables::fast_gain, crate::specs::Tables::vq_bits, crate::specs::Tables::band_end, crate::specs::Tables::log_add, crate::specs::Tables::hearing, crate::specs::Tables::bap, crate::specs::Tables::hebap))]

mod entries;

ghost use Rattle.std.specs.Prelude.{◌≡◌, ◌≤◌, get_or};
ghost use Rattle.signed.specs.Bound.{Below};
ghost use Rattle.tables.specs.Tables as standard;

// The entry at a place; past the last one what stands for it there.
fn entry<T: Copy>(table: &[T], at: u8, past: T) -> T
    ensures { result ≡ get_or table.now at past }
{
    table.get(usize::from(at)).copied().unwrap_or(past)
}

// Table 4.3: full bandwidth channels.
pub fn nfchans(acmod: u8) -> u8
    ensures { (result ≡ standard.nfchans acmod) × (result ≤ 5) }
{
    entry(&entries::NFCHANS, acmod, 0)
}

// Table 4.13 at 48 kHz: words to a frame, by half of frmsizecod.
fn words_48(half: u8) -> u16
    ensures { (result ≡ get_or standard.words48 half 0) × (result ≤ 1280) }
{
    entry(&entries::WORDS_48, half, 0)
}

// Table 4.13 at 44.1 kHz: words to a frame, by frmsizecod.
fn words_44(frmsizecod: u8) -> u16
    ensures { (result ≡ get_or standard.words44 frmsizecod 0) × (result ≤ 1394) }
{
    entry(&entries::WORDS_44, frmsizecod, 0)
}

// Table 4.13: bytes of a frame; 0 where there is no such frame.
pub fn frame_bytes(fscod: u8, frmsizecod: u8) -> u16
    ensures { (result ≡ standard.frame_bytes fscod frmsizecod) × (result ≤ 3840) }
{
    match fscod {
        0 => 2 * words_48(frmsizecod / 2),
        1 => 2 * words_44(frmsizecod),
        // At 32 kHz a frame has half as many words again as at 48.
        2 => 3 * words_48(frmsizecod / 2),
        _ => 0,
    }
}

// Table 6.6.
pub fn slow_decay(sdcycod: u8) -> u16
    ensures { result ≡ standard.slow_decay sdcycod }
{
    entry(&entries::SLOW_DECAY, sdcycod, 0)
}

// Table 6.7.
pub fn fast_decay(fdcycod: u8) -> u16
    ensures { result ≡ standard.fast_decay fdcycod }
{
    entry(&entries::FAST_DECAY, fdcycod, 0)
}

// Table 6.8.
pub fn slow_gain(sgaincod: u8) -> u16
    ensures { result ≡ standard.slow_gain sgaincod }
{
    entry(&entries::SLOW_GAIN, sgaincod, 0)
}

// Table 6.9.
pub fn db_knee(dbpbcod: u8) -> u16
    ensures { result ≡ standard.knee dbpbcod }
{
    entry(&entries::DB_KNEE, dbpbcod, 0)
}

// Table 6.10.
pub fn floor(floorcod: u8) -> i32
    ensures { (result ≡ standard.floor floorcod) × Below 11 result }
{
    entry(&entries::FLOOR, floorcod, 0)
}

// Table 6.11.
pub fn fast_gain(fgaincod: u8) -> u16
    ensures { result ≡ standard.fast_gain fgaincod }
{
    entry(&entries::FAST_GAIN, fgaincod, 0)
}

// Table E.2.2: the bits of a vector index, by hebap 0 to 7.
pub fn vq_bits(hebap: u8) -> usize
    ensures { result ≡ standard.vq_bits hebap }
{
    entry(&entries::VQ_BITS, hebap, 0)
}

// Table E.2.2: the bits of a mantissa, by hebap 8 to 19 less 8.
pub fn gaq_bits(index: u8) -> usize
    ensures { (result ≡ standard.gaq_bits index) × (result ≤ 16) }
{
    entry(&entries::GAQ_BITS, index, 0)
}

// The tables that loops look into are lent whole, so that no goal of a loop has the entries written out.

// Table 6.12: the first bin past each of the 50 bands.
pub fn band_ends() -> &'static [u8; 50]
    ensures { result.now ≡ standard.band_end }
{
    &entries::BAND_END
}

// Table 6.14: what the smaller of two levels adds to the larger, by half their distance. By value: each look into a copy on the stack takes an
// instruction less than one into a static, and the allocation looks more than a hundred times a call.
pub fn log_adds() -> [u8; 256]
    ensures { result ≡ standard.log_add }
{
    entries::LOG_ADD
}

// Table 6.15: 50 bands to each fscod.
pub fn hearing_thresholds() -> &'static [u16; 150]
    ensures { result.now ≡ standard.hearing }
{
    &entries::HEARING
}

// Table 6.16: by the clamped address.
pub fn bit_allocation_pointers() -> &'static [u8; 64]
    ensures { result.now ≡ standard.bap }
{
    &entries::BAP
}

// E.2.4.3.1: the same for the adaptive hybrid transform, by the same address.
pub fn high_efficiency_pointers() -> &'static [u8; 64]
    ensures { result.now ≡ standard.hebap }
{
    &entries::HEBAP
}

// Table 6.17: the bits of a mantissa that stands alone, by its bap.
pub fn mantissa_bits() -> &'static [u8; 16]
    ensures { result.now ≡ standard.mantissa_bits }
{
    &entries::BAP_BITS
}
