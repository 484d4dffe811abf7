// The field of 256 elements: bytes as polynomials over two elements modulo 0x11B.
// Public contracts name the definition and no table.
#![tactic(auto)]

mod table;

ghost use Rattle.std.specs.Prelude.{◌≡◌, ℕ, ◌*◌, ◌%◌, ◌<◌, get_or};
ghost use mathlib.Core.List.{map, foldl};
ghost use Rattle.std.specs.Int.Bits.{bit_xor};
ghost use Rattle.gf256.specs.Field.{times_x, product, power, inverse};

use table::{EXPONENTS, POWERS};

// 0x03 to the power i. The table is named here alone, so that no other proof meets it.
fn power_at(i: usize) -> u8
    requires { i < 510 }
    ensures { result ≡ power 3 i }
{
    POWERS[i]
}

// The exponent at which the power of 0x03 is a; 0 has none. This table too is named here alone.
fn exponent_of(a: u8) -> usize
    requires { 0 < a }
    ensures { (result < 255) × (power 3 result ≡ a) }
{
    usize::from(EXPONENTS[usize::from(a)])
}

// The product of two bytes by the tables: exponents add, and the power at their sum is looked up.
#[tactic(auto, using(crate::proofs::Exponents::products))]
pub fn mul(a: u8, b: u8) -> u8
    ensures { result ≡ product a b }
{
    if a == 0 || b == 0 {
        return 0;
    }
    power_at(exponent_of(a) + exponent_of(b))
}

// Multiplies each byte of a row by a.
pub fn mul_row(a: u8, row: &mut [u8])
    ensures { row.new ≡ map (product a) row.old }
{
    for x in row.iter_mut() {
        *x = mul(a, *x);
    }
}

// The product of the bytes of a row; 1 for none.
pub fn row_product(row: &[u8]) -> u8
    ensures { result ≡ foldl product 1 row.now }
{
    row.iter().fold(1, |total, x| mul(total, *x))
}

// x times a: `times_x` without its ninth bit, so that it stays a byte.
fn times_x(a: u8) -> u8
    ensures { result ≡ times_x a }
{
    (a % 128 * 2) ^ (a / 128 * 0x1B)
}

// The product of two bytes again, by Horner's rule over the bits of a, from the highest down. It has neither table nor branch: over a row of bytes b
// the compiler works out 16 at once.
#[tactic(auto, using(crate::proofs::Bits::bits))]
pub fn mul_bits(a: u8, b: u8) -> u8
    ensures { result ≡ product a b }
{
    let mut total = 0;
    for k in (0..8u32).rev() {
        total = ((a >> k) % 2 * b) ^ times_x(total);
    }
    total
}

// The inverse of a byte; 0 for 0. It stands at 255 less the exponent of a, for 1 at place 255.
#[tactic(auto, using(crate::proofs::Exponents::inverses))]
pub fn inv(a: u8) -> u8
    ensures { result ≡ inverse a }
{
    if a == 0 {
        return 0;
    }
    power_at(255 - exponent_of(a))
}

// a to the power k. k is reduced before the product of exponents, which then fits for every k.
#[tactic(auto, using(crate::proofs::Exponents::powers))]
pub fn pow(a: u8, k: usize) -> u8
    ensures { result ≡ power a k }
{
    if k == 0 {
        return 1;
    }
    if a == 0 {
        return 0;
    }
    let times = k % 255;
    power_at(exponent_of(a) * times % 255)
}
