// The bit allocation pointers of a slot (6.2.2).
ghost use Rattle.std.specs.Prelude.{◌≡◌, replicate};
ghost use Rattle.slots.specs.Sound.{Entries, SoundExps};
ghost use Rattle.mantissas.specs.Mantissas.{part_pointers};
ghost use Rattle.mantissas.specs.Sound.{SoundSetting, SoundPart, between};

use crate::parameters::parameters_of;
use crate::{Part, Setting};

// In a function of its own, so that the goals of its callers do not write out 256 entries.
pub fn zeros() -> [u8; 256]
    ensures { result ≡ replicate 256 0 }
{
    [0; 256]
}

// The pointers of a slot's bins, or 0 where every pointer is; of what stands elsewhere only the bound is told.
pub fn part_pointers(by: &Setting, exps: &[[i16; 256]; 7], p: Part) -> [u8; 256]
    requires { SoundSetting by.now × SoundExps exps.now × SoundPart p }
    ensures end_value { between 0 result p.start p.end ≡ part_pointers by.now.fscod by.now.st exps.now by.now.silent p }
    ensures entries { Entries result 16 }
{
    let mut pointers = zeros();
    if !by.silent {
        alloc::pointers_of(
            &mut pointers,
            &exps[p.slot as usize],
            parameters_of(by.fscod, &by.st, p),
        );
    }
    pointers
}
