// A binary64 number in card units, from its bits: point 4 of document 01's "The elimination". The rounding is `whole`'s.
#![tactic(auto)]

ghost use Rattle.std.specs.Prelude.{◌≡◌, true, ◌*◌, ◌^◌, ◌≤◌, ◌<◌, min};
ghost use Rattle.std.specs.Float.Ieee.Nearest.{closest};
ghost use Rattle.elimination.specs.Refusal.{is_finite};
ghost use Rattle.units.specs.Units.{signed, units_of, farthest, held};
ghost use Rattle.units.specs.Bits.{size_of};

// Where numbers beyond every card's range are held.
const FARTHEST: u64 = 1_073_741_824;

// The weight of the exponent's field.
const LEADING: u64 = 4_503_599_627_370_496;

// The weight of the sign.
const SIGN: u64 = 9_223_372_036_854_775_808;

// q·2^k / 2^1062, rounded. With no leading digit k is 0.
fn magnitude(q: u64, k: u64) -> u64
    requires { (q < 2 ^ 53) × (0 < k → 2 ^ 52 ≤ q) }
    ensures { result ≡ min (closest (q * 2 ^ k) (2 ^ 1062)) farthest }
{
    if k >= 1040 {
        return FARTHEST;
    }
    if k < 1008 {
        return 0;
    }
    whole::nearest_unsigned(q, 1 << (1062 - k))
}

#[tactic(auto, unfolding(crate::specs::Bits::size_of))]
fn size(bits: u64) -> u64
    ensures { result ≡ size_of bits }
{
    let digits = bits % LEADING;
    let exponent = bits / LEADING % 2048;
    if exponent == 0 {
        magnitude(digits, 0)
    } else {
        magnitude(digits + LEADING, exponent - 1)
    }
}

fn signed(negative: bool, n: u64) -> i32
    requires { n ≤ farthest }
    ensures { result ≡ signed negative n }
{
    if negative { -(n as i32) } else { n as i32 }
}

// The whole number nearest to the exact 4096·u, ties to even.
pub fn units_of(u: f64) -> i32
    requires { is_finite u ≡ true }
    ensures { result ≡ held (units_of u) }
{
    let bits = u.to_bits();
    signed(bits >= SIGN, size(bits))
}
