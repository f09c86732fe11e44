//! The state as four words, one for each column: the byte in row r is byte r of its word, from the lowest on.

ghost use Rattle.std.specs.Prelude.{◌≡◌, ◌+◌, ◌*◌, ◌≤◌, ◌<◌, [], ◌∷◌, length, slice_index};
ghost use Rattle.std.specs.Int.{byte_at};
ghost use Rattle.aes_core.specs.State.{add_round_key};
ghost use Rattle.aes_core.specs.Sliced.{sum_of};
ghost use Rattle.aes_core.specs.Words.{IsColumn, state_in};

// The columns of a block.
#[inline(always)]
pub(crate) fn words_of(block: &[u8; 16]) -> [u32; 4]
    ensures { state_in result ≡ block.now }
{
    [
        u32::from_le_bytes([block[0], block[1], block[2], block[3]]),
        u32::from_le_bytes([block[4], block[5], block[6], block[7]]),
        u32::from_le_bytes([block[8], block[9], block[10], block[11]]),
        u32::from_le_bytes([block[12], block[13], block[14], block[15]]),
    ]
}

// The block with these columns.
#[inline(always)]
pub(crate) fn bytes_of(state: [u32; 4]) -> [u8; 16]
    ensures { result ≡ state_in state }
{
    let a = state[0].to_le_bytes();
    let b = state[1].to_le_bytes();
    let c = state[2].to_le_bytes();
    let d = state[3].to_le_bytes();
    [
        a[0], a[1], a[2], a[3], b[0], b[1], b[2], b[3], c[0], c[1], c[2], c[3], d[0], d[1], d[2],
        d[3],
    ]
}

// A byte of each of four columns: that in row 0 of the first, in row 1 of the second, and so on.
#[inline(always)]
pub(crate) fn diagonal(a: u32, b: u32, c: u32, d: u32) -> [u8; 4]
    ensures { result ≡ byte_at 0 a ∷ byte_at 1 b ∷ byte_at 2 c ∷ byte_at 3 d ∷ [] }
{
    [
        a.to_le_bytes()[0],
        b.to_le_bytes()[1],
        c.to_le_bytes()[2],
        d.to_le_bytes()[3],
    ]
}

// Column c of round key n of the expanded key w.
#[inline(always)]
pub(crate) fn key_column(w: &[u8], n: usize, c: usize) -> u32
    requires column { c < 4 }
    requires words { 16 * n + 16 ≤ length w.now }
    ensures { IsColumn result (λ r. slice_index w.now (16 * n + (r + 4 * c))) }
{
    let i = 16 * n + 4 * c;
    u32::from_le_bytes([w[i], w[i + 1], w[i + 2], w[i + 3]])
}

// Round key n of the expanded key w, which is its bytes from 16 n on, is added.
#[inline(always)]
pub(crate) fn add_round_key(w: &[u8], n: usize, state: [u32; 4]) -> [u32; 4]
    requires { 16 * n + 16 ≤ length w.now }
    ensures { state_in result ≡ add_round_key w.now n (state_in state) }
{
    let [a, b, c, d] = state;
    [
        a ^ key_column(w, n, 0),
        b ^ key_column(w, n, 1),
        c ^ key_column(w, n, 2),
        d ^ key_column(w, n, 3),
    ]
}

// The sum of two states.
#[inline(always)]
pub(crate) fn sum(s: [u32; 4], t: [u32; 4]) -> [u32; 4]
    ensures { state_in result ≡ sum_of (state_in s) (state_in t) }
{
    [s[0] ^ t[0], s[1] ^ t[1], s[2] ^ t[2], s[3] ^ t[3]]
}
