//! The subkey of GHASH with its multiples, by which blocks are multiplied four bits at a time.

ghost use Rattle.std.specs.Prelude.{◌≡◌, ◌∷◌, false};
ghost use Rattle.gcm_core.specs.Polynomial.{reduced};
ghost use Rattle.gcm_core.specs.Block.{bits, block_product, low_terms};
ghost use Rattle.gcm_core.specs.Tables.{HasMultiples, times_power_of_x};

use std::marker::Model;

/// The terms of the modulus below x^128: x^7 + x^2 + x + 1.
const LOW_TERMS: u128 = 0xe1 << 120;

/// Entry m is the product of x^4 and the block whose number is m: what the last four bits of a block become.
const REDUCTION: [u128; 16] = [
    0 << 112,
    0x1c20 << 112,
    0x3840 << 112,
    0x2460 << 112,
    0x7080 << 112,
    0x6ca0 << 112,
    0x48c0 << 112,
    0x54e0 << 112,
    0xe100 << 112,
    0xfd20 << 112,
    0xd940 << 112,
    0xc560 << 112,
    0x9180 << 112,
    0x8da0 << 112,
    0xa9c0 << 112,
    0xb5e0 << 112,
];

/// The subkey's products with the polynomials of four bits. A contract sees it as the subkey.
#[derive(Drop)]
pub(crate) struct Subkey {
    entries: [u128; 16],
}

impl Model for Subkey {
    ghost use Rattle.std.specs.Prelude.{List, Bool, slice_index};
    ghost use Rattle.gcm_core.specs.Block.{bits};
    ghost use Rattle.gcm_core.specs.Tables.{HasMultiples};

    ghost Value = { List Bool };

    // The four bits of 8 are those of the polynomial 1.
    ghost view = { λ s. bits 128 (slice_index s.entries 8) };

    ghost invariant = { λ s. HasMultiples (bits 128 (slice_index s.entries 8)) s.entries };
}

impl Subkey {
    /// The block as a subkey.
    pub(crate) fn new(block: u128) -> Subkey
        ensures { result ≡ bits 128 block }
    {
        Subkey {
            entries: multiples(block),
        }
    }

    /// The subkey as a block.
    pub(crate) fn block(&self) -> u128
        ensures { bits 128 result ≡ self.now }
    {
        self.entries[8]
    }

    /// The product of a block and the subkey, from the last four coefficients of the block to the first.
    pub(crate) fn product(&self, block: u128) -> u128
        ensures { bits 128 result ≡ block_product (bits 128 block) self.now }
    {
        let entries = &self.entries;
        let mut sum: u128 = 0;
        for place in 0..32u32 {
            sum = times_x_4(sum) ^ entries[((block >> (4 * place)) & 15) as usize];
        }
        sum
    }
}

/// The product of a block and x.
pub(crate) fn times_x(block: u128) -> u128
    ensures { bits 128 result ≡ reduced low_terms (false ∷ bits 128 block) }
{
    if block & 1 == 1 {
        (block >> 1) ^ LOW_TERMS
    } else {
        block >> 1
    }
}

/// The product of a block and x^4.
fn times_x_4(block: u128) -> u128
    ensures { bits 128 result ≡ times_power_of_x 4 (bits 128 block) }
{
    (block >> 4) ^ REDUCTION[(block & 15) as usize]
}

/// The products of a block and the polynomials of four bits.
pub(crate) fn multiples(block: u128) -> [u128; 16]
    ensures { HasMultiples (bits 128 block) result }
{
    let a = block;
    let b = times_x(a);
    let c = times_x(b);
    let d = times_x(c);
    let ab = a ^ b;
    let cd = c ^ d;
    [
        0,
        d,
        c,
        cd,
        b,
        b ^ d,
        b ^ c,
        b ^ cd,
        a,
        a ^ d,
        a ^ c,
        a ^ cd,
        ab,
        ab ^ d,
        ab ^ c,
        ab ^ cd,
    ]
}
