// What `mantissas` offers the crates above it beside the reading of mantissas, called as one of them calls it: by public names alone. No code
// but tests.
#![tactic(auto)]

#[cfg(test)]
mod tests {
    use mantissas::{Counts, Part, Parts};

    // The four counts, one by one: counts have no equality of their own.
    fn each(n: Counts) -> (u32, u32, u32, u32) {
        (n.bits, n.ones, n.twos, n.fours)
    }

    const BEFORE: Counts = Counts {
        bits: 100,
        ones: 20,
        twos: 30,
        fours: 40,
    };

    // Table 6.17: pointers 1, 2 and 4 are coded in groups, which take their bits as a whole; the others take their own.
    const OWN_BITS: [u32; 16] = [0, 0, 0, 3, 0, 4, 5, 6, 7, 8, 9, 10, 11, 12, 14, 16];

    #[test]
    fn a_mantissa_is_counted_by_its_pointer(rt: HostRuntime) {
        for bap in 0..16u8 {
            let want = match bap {
                1 => (100, 21, 30, 40),
                2 => (100, 20, 31, 40),
                4 => (100, 20, 30, 41),
                _ => (100 + OWN_BITS[bap as usize], 20, 30, 40),
            };
            let counts = BEFORE.with_one(tables::mantissa_bits(), bap);
            assert_eq!(rt; each(counts), want, "pointer {bap}");
        }
    }

    // 6.3.5: three mantissas of pointer 1 in 5 bits, three of pointer 2 in 7, two of pointer 4 in 7. A slot goes on with the group that the
    // slot before it left open.
    #[test]
    fn groups_go_on_from_slot_to_slot(rt: HostRuntime) {
        let first = Counts {
            bits: 6,
            ones: 2,
            twos: 1,
            fours: 1,
        };
        let second = Counts {
            bits: 16,
            ones: 2,
            twos: 4,
            fours: 3,
        };
        assert_eq!(rt; first.width(), 6 + 5 + 7 + 7);
        assert_eq!(rt; second.width(), 16 + 5 + 14 + 14);
        let both = first.plus(second);
        assert_eq!(rt; each(both), (22, 4, 5, 4));
        assert_eq!(rt; both.width(), 22 + 10 + 14 + 14);
    }

    // A list of one channel and LFE (4.3.3): the five places behind them are not told.
    #[test]
    fn slots_are_those_that_were_put_there(rt: HostRuntime) {
        let channel = Part {
            slot: 0,
            start: 0,
            end: 73,
        };
        let lfe = Part {
            slot: 6,
            start: 0,
            end: 7,
        };
        let parts = Parts {
            count: 2,
            list: [channel, lfe, channel, channel, channel, channel, channel],
        };
        let slots = parts.slots();
        assert_eq!(rt; slots.len(), 2);
        assert_eq!(rt; (slots[0].slot, slots[0].start, slots[0].end), (0, 0, 73));
        assert_eq!(rt; (slots[1].slot, slots[1].start, slots[1].end), (6, 0, 7));
    }
}
