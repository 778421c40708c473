// The three exponents of a group (6.1.3), from its number and the exponent before it. They are made, and judged, as one number with a byte
// for each.
ghost use Rattle.std.specs.Prelude.{◌≡◌, false, ◌<◌, IfOk};
ghost use Rattle.exponents.specs.Exponents as grammar;
ghost use Rattle.exponents.specs.Bytes.{Steps, Unmarked, NearThree, ThreeInside};
ghost use Rattle.exponents.specs.Made as made;

use syntax::Refusal;

// The same number in each of three bytes.
const EACH: u32 = 0x010101;

// What is no group: the bit of 32 in each byte, which no exponent below 32 carries away. So one test refuses it with the exponents outside
// 0 to 24.
const NO_GROUP: u32 = 0x202020;

// What a group adds to the exponent before it, a byte for each of its three exponents (the first is the lowest): its differences so far,
// and 64, so that no sum is negative. Looked up instead of divided.
const STEPS: [u32; 128] = [
    0x3a3c3e, 0x3b3c3e, 0x3c3c3e, 0x3d3c3e, 0x3e3c3e, 0x3b3d3e, 0x3c3d3e, 0x3d3d3e, 0x3e3d3e,
    0x3f3d3e, 0x3c3e3e, 0x3d3e3e, 0x3e3e3e, 0x3f3e3e, 0x403e3e, 0x3d3f3e, 0x3e3f3e, 0x3f3f3e,
    0x403f3e, 0x413f3e, 0x3e403e, 0x3f403e, 0x40403e, 0x41403e, 0x42403e, 0x3b3d3f, 0x3c3d3f,
    0x3d3d3f, 0x3e3d3f, 0x3f3d3f, 0x3c3e3f, 0x3d3e3f, 0x3e3e3f, 0x3f3e3f, 0x403e3f, 0x3d3f3f,
    0x3e3f3f, 0x3f3f3f, 0x403f3f, 0x413f3f, 0x3e403f, 0x3f403f, 0x40403f, 0x41403f, 0x42403f,
    0x3f413f, 0x40413f, 0x41413f, 0x42413f, 0x43413f, 0x3c3e40, 0x3d3e40, 0x3e3e40, 0x3f3e40,
    0x403e40, 0x3d3f40, 0x3e3f40, 0x3f3f40, 0x403f40, 0x413f40, 0x3e4040, 0x3f4040, 0x404040,
    0x414040, 0x424040, 0x3f4140, 0x404140, 0x414140, 0x424140, 0x434140, 0x404240, 0x414240,
    0x424240, 0x434240, 0x444240, 0x3d3f41, 0x3e3f41, 0x3f3f41, 0x403f41, 0x413f41, 0x3e4041,
    0x3f4041, 0x404041, 0x414041, 0x424041, 0x3f4141, 0x404141, 0x414141, 0x424141, 0x434141,
    0x404241, 0x414241, 0x424241, 0x434241, 0x444241, 0x414341, 0x424341, 0x434341, 0x444341,
    0x454341, 0x3e4042, 0x3f4042, 0x404042, 0x414042, 0x424042, 0x3f4142, 0x404142, 0x414142,
    0x424142, 0x434142, 0x404242, 0x414242, 0x424242, 0x434242, 0x444242, 0x414342, 0x424342,
    0x434342, 0x444342, 0x454342, 0x424442, 0x434442, 0x444442, 0x454442, 0x464442, NO_GROUP,
    NO_GROUP, NO_GROUP,
];

pub(crate) fn steps() -> [u32; 128]
    ensures { Steps result }
{
    STEPS
}

// Whether one of three bytes has the bit of 32.
fn is_marked(three: u32) -> bool
    ensures { (result ≡ false → Unmarked three) × (Unmarked three → result ≡ false) }
{
    (three / 32 % 2 != 0) | (three / 8192 % 2 != 0) | (three / 2097152 % 2 != 0)
}

// Whether one of three exponents is outside 0 to 24: with its 64 it has the bit of 32, or has it when 7 more are added.
fn any_outside(three: u32) -> bool
    requires { NearThree three }
    ensures { (result ≡ false → ThreeInside three) × (ThreeInside three → result ≡ false) }
{
    is_marked(three) | is_marked(three + 7 * EACH)
}

// Why a group is refused: since it is none of the 125, or since one of its three exponents is outside 0 to 24.
fn fault(group: u32) -> Refusal
    ensures { result ≡ made.fault group }
{
    if 124 < group {
        Refusal::BadGroup
    } else {
        Refusal::BadExponent
    }
}

// The three exponents of a group.
pub(crate) fn unpack(steps: &[u32; 128], last: u32, group: u32) -> Result<(u32, u32, u32), Refusal>
    requires last_bound { (last < 32) × (group < 128) }
    requires steps { Steps steps.now }
    ensures group_value { grammar.unpack last group ≡ made.answered result }
    ensures bound { IfOk result (λ three. (three.0 < 25) × ((three.1 < 25) × (three.2 < 25))) }
{
    let three = last * EACH + steps[group as usize];
    if any_outside(three) {
        return Err(fault(group));
    }
    let plain = three - 64 * EACH;
    Ok((plain % 256, plain / 256 % 256, plain / 65536))
}
