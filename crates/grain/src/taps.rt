// The tap places of Annex C: a table is a sum, and each of its entries a product of taps. A sum of Annex C's is that of its tables,
// in Annex C's order; no table has more than eight entries, so that a compiler can read it without a loop.

use Tap::{B, S};

// A place of b or of s.
#[derive(Clone, Copy)]
pub enum Tap {
    B(usize),
    S(usize),
}

// The output: the products of two taps.
pub const OUTPUT_TWOFOLD: [[Tap; 2]; 4] = [
    [B(12), S(8)],
    [S(13), S(20)],
    [B(95), S(42)],
    [S(60), S(79)],
];

// The output: the product of three.
pub const OUTPUT_THREEFOLD: [[Tap; 3]; 1] = [[B(12), B(95), S(94)]];

// The output: the single taps.
pub const OUTPUT_SINGLE: [[Tap; 1]; 8] = [
    [S(93)],
    [B(2)],
    [B(15)],
    [B(36)],
    [B(45)],
    [B(64)],
    [B(73)],
    [B(89)],
];

// The feedback of s: single taps.
pub const NEXT_S: [[Tap; 1]; 6] = [[S(0)], [S(7)], [S(38)], [S(70)], [S(81)], [S(96)]];

// The feedback of b: the single taps.
pub const NEXT_B_SINGLE: [[Tap; 1]; 6] = [[S(0)], [B(0)], [B(26)], [B(56)], [B(91)], [B(96)]];

// The feedback of b: the products of two.
pub const NEXT_B_TWOFOLD: [[Tap; 2]; 7] = [
    [B(3), B(67)],
    [B(11), B(13)],
    [B(17), B(18)],
    [B(27), B(59)],
    [B(40), B(48)],
    [B(61), B(65)],
    [B(68), B(84)],
];

// The feedback of b: the product of four.
pub const NEXT_B_FOURFOLD: [[Tap; 4]; 1] = [[B(88), B(92), B(93), B(95)]];

// The feedback of b: the products of three.
pub const NEXT_B_THREEFOLD: [[Tap; 3]; 2] = [[B(22), B(24), B(25)], [B(70), B(78), B(82)]];
