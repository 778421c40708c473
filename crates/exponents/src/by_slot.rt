// The sets of a block (4.3.3), slot by slot: new exponents, or those in force where they cover the same bins.
ghost use Rattle.std.specs.Prelude.{◌≡◌, cond, ◌<◌};
ghost use Rattle.syntax.specs.Grammar.{read_if};
ghost use Rattle.syntax.specs.Reads.{Reads, with_lent};
ghost use Rattle.slots.specs.Slots.{is_new};
ghost use Rattle.slots.specs.declared.Cover.{Cover};
ghost use Rattle.slots.specs.Sound.{SoundExps, SoundStrategies, SoundEnds};
ghost use Rattle.exponents.specs.Exponents as grammar;
ghost use Rattle.exponents.specs.Sound.{SoundSet};
ghost use Rattle.slots.specs.Reused.{Keeps, ReusedBut, ReusedBy};

use crate::Layout;
use crate::sets::{Set, exponent_set};
use slots::Cover;
use syntax::items::nth;
use syntax::readers::refuse_if;
use syntax::{Reader, Refusal, names};

// Whether exponents of exactly these bins were sent.
fn covers(cover: Cover, set: Set) -> bool
    requires { set.slot < 7 }
    ensures { result ≡ grammar.covers cover set.slot set.start set.end }
{
    let at = set.slot as usize;
    cover.sent[at] & ((cover.start[at] as usize == set.start) & (cover.end[at] as usize == set.end))
}

// The bins that are covered once a set of new exponents was read.
fn covering(set: Set, cover: Cover) -> Cover
    requires { (set.slot < 7) × ((set.start < 254) × (set.end < 254)) }
    ensures { result ≡ grammar.covering set.slot set.start set.end cover }
{
    let at = set.slot as usize;
    let mut next = cover;
    next.sent[at] = true;
    next.start[at] = set.start as u8;
    next.end[at] = set.end as u8;
    next
}

// New exponents of a slot, or those in force: a refusal where these cover other bins.
fn slot_exponents(
    r: &mut Reader<'_>,
    exps: &mut [[i16; 256]; 7],
    set: Set,
    refusal: Refusal,
    cover: Cover,
) -> Result<Cover, Refusal>
    requires sound_set { SoundSet set }
    requires sound_exps { SoundExps exps.old }
    ensures reads { Reads (grammar.slot_exponents set.blk refusal set.slot set.strategy set.start set.end (record { cover = cover; exps = exps.old })) r.old
        (with_lent (λ covered. record { cover = covered; exps = exps.new }) result) r.new }
    ensures sound_exps_2 { SoundExps exps.new }
    ensures keeps { Keeps (ReusedBut set.slot set.strategy) exps.old exps.new }
{
    if set.strategy == 0 {
        refuse_if(!covers(cover, set), refusal)?;
        return Ok(cover);
    }
    exponent_set(r, &mut exps[set.slot as usize], set)?;
    Ok(covering(set, cover))
}

// The same of a slot that is there only where a test holds.
pub(crate) fn slot_exponents_if(
    r: &mut Reader<'_>,
    exps: &mut [[i16; 256]; 7],
    present: bool,
    set: Set,
    refusal: Refusal,
    cover: Cover,
) -> Result<Cover, Refusal>
    requires sound_set { SoundSet set }
    requires sound_exps { SoundExps exps.old }
    ensures reads { Reads (read_if present (record { cover = cover; exps = exps.old })
        (grammar.slot_exponents set.blk refusal set.slot set.strategy set.start set.end (record { cover = cover; exps = exps.old }))) r.old
        (with_lent (λ covered. record { cover = covered; exps = exps.new }) result) r.new }
    ensures sound_exps_2 { SoundExps exps.new }
    ensures keeps { Keeps (ReusedBut set.slot set.strategy) exps.old exps.new }
{
    if present {
        slot_exponents(r, exps, set, refusal, cover)
    } else {
        Ok(cover)
    }
}

// The exponents of a channel; new ones are followed by gainrng.
pub(crate) fn channel_exponents(
    r: &mut Reader<'_>,
    exps: &mut [[i16; 256]; 7],
    layout: Layout,
    ch: u8,
    cover: Cover,
) -> Result<Cover, Refusal>
    requires ch_bound { (ch < 5) × (SoundStrategies layout.strategies × SoundEnds layout.ends) }
    requires sound_exps { SoundExps exps.old }
    ensures reads { Reads (grammar.channel_exponents layout.blk layout.strategies.chexpstr layout.ends ch (record { cover = cover; exps = exps.old })) r.old
        (with_lent (λ covered. record { cover = covered; exps = exps.new }) result) r.new }
    ensures sound_exps_2 { SoundExps exps.new }
    ensures keeps { Keeps (ReusedBy layout.strategies) exps.old exps.new }
{
    let at = ch as usize;
    let set = Set {
        blk: layout.blk,
        slot: ch,
        strategy: layout.strategies.chexpstr[at],
        start: 0,
        end: layout.ends[at],
    };
    let covered = slot_exponents(r, exps, set, Refusal::NoChannelExponents, cover)?;
    r.note_if(set.strategy != 0, nth(layout.blk, names::GAINRNG, ch), 2)?;
    Ok(covered)
}
