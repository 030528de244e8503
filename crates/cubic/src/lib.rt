// Document 001's Table 1: the whole numbers that the unknowns of the pre-heater's cubic are over. Document 02,
// order 10: "the table checked against its rule". What is true of the unknowns is in proofs/.
#![tactic(auto)]

ghost use Rattle.std.specs.Prelude.{◌≡◌, ◌+◌, ◌≤◌, pos};
ghost use Rattle.cubic.specs.Cubic.{most_values, a};

// The most values that a table may have.
pub const MOST: usize = 20;

const TABLE: [i64; 19] = [
    1,
    4,
    15,
    56,
    209,
    780,
    2_911,
    10_864,
    40_545,
    151_316,
    564_719,
    2_107_560,
    7_865_521,
    29_354_524,
    109_552_575,
    408_855_776,
    1_525_870_529,
    5_694_626_340,
    21_252_634_831,
];

// The a with index place - 1.
pub fn entry(place: usize) -> i64
    requires { place + 2 ≤ most_values }
    ensures { result ≡ pos (a place) }
{
    TABLE[place]
}
