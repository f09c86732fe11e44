//! Lists of bytes added bit by bit, and compared.

ghost use Rattle.std.specs.Prelude.{◌≡◌, ◌↔◌, ◌≤◌, IsTrue, length};
ghost use Rattle.gf2_polynomial.specs.Bytes.{bytes_sum};

/// Adds to each byte the one at its place, bit by bit.
pub fn add_bytes(bytes: &mut [u8], added: &[u8])
    requires { length bytes.old ≤ length added.now }
    ensures { bytes.new ≡ bytes_sum bytes.old added.now }
{
    for (place, byte) in bytes.iter_mut().enumerate() {
        *byte ^= added[place];
    }
}

/// The bits in which bytes differ, those of all places in one.
fn difference(left: &[u8], right: &[u8]) -> u8
    requires { length left.now ≡ length right.now }
    ensures { (result ≡ 0) ↔ (left.now ≡ right.now) }
{
    let mut difference = 0;
    for (place, byte) in left.iter().enumerate() {
        difference |= byte ^ right[place];
    }
    difference
}

/// Whether both are the same bytes. Lists of one length are read to their end, wherever they differ, so the time tells
/// nothing of secret bytes.
pub fn same_bytes(left: &[u8], right: &[u8]) -> bool
    ensures { IsTrue result ↔ (left.now ≡ right.now) }
{
    left.len() == right.len() && difference(left, right) == 0
}
