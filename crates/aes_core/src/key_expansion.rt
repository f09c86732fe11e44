//! The expansion of a key into the words of the round keys (FIPS 197, section 5.2).

ghost use Rattle.std.specs.Prelude.{◌≡◌, ◌+◌, ◌-◌, ◌*◌, ◌/◌, ◌%◌, ◌≤◌, ◌++◌, length, take};
ghost use Rattle.aes_core.specs.Field.{power};
ghost use Rattle.aes_core.specs.KeyExpansion.{IsKeySize, word_at, add_words, rot_word, sub_word, word_term, next_word, key_expansion};

use crate::boxes::sub_byte;
use crate::field::times_x;

/// The bytes of the longest expanded key, that of 8 words.
pub(crate) const MOST: usize = 240;

// Word i of some words.
fn word_at(w: &[u8], i: usize) -> [u8; 4]
    requires { 4 * i + 4 ≤ length w.now }
    ensures { result ≡ word_at w.now i }
{
    [w[4 * i], w[4 * i + 1], w[4 * i + 2], w[4 * i + 3]]
}

// The sum of two words.
fn add_words(a: [u8; 4], b: [u8; 4]) -> [u8; 4]
    ensures { result ≡ add_words a b }
{
    [a[0] ^ b[0], a[1] ^ b[1], a[2] ^ b[2], a[3] ^ b[3]]
}

// The word turned to the left by one byte.
fn rot_word(a: [u8; 4]) -> [u8; 4]
    ensures { result ≡ rot_word a }
{
    [a[1], a[2], a[3], a[0]]
}

// Each byte of the word through the S-box.
fn sub_word(a: [u8; 4]) -> [u8; 4]
    ensures { result ≡ sub_word a }
{
    [
        sub_byte(a[0]),
        sub_byte(a[1]),
        sub_byte(a[2]),
        sub_byte(a[3]),
    ]
}

// What is added to word i - nk to make word i, from the word before it. `constant` is the first byte of the round
// constant, where one is added.
#[tactic(auto, unfolding(crate::specs::KeyExpansion::word_term))]
fn word_term(nk: usize, i: usize, constant: u8, previous: [u8; 4]) -> [u8; 4]
    requires size { IsKeySize nk }
    requires constant { i % nk ≡ 0 → constant ≡ power 2 (i / nk - 1) }
    ensures { result ≡ word_term nk i previous }
{
    if i % nk == 0 {
        add_words(sub_word(rot_word(previous)), [constant, 0, 0, 0])
    } else if nk == 8 && i % nk == 4 {
        sub_word(previous)
    } else {
        previous
    }
}

// Word i, from the words before it.
#[tactic(auto, unfolding(crate::specs::KeyExpansion::next_word))]
fn next_word(nk: usize, i: usize, constant: u8, w: &[u8]) -> [u8; 4]
    requires size { IsKeySize nk }
    requires later { nk ≤ i }
    requires words { length w.now ≡ 4 * i }
    requires constant { i % nk ≡ 0 → constant ≡ power 2 (i / nk - 1) }
    ensures { result ≡ next_word nk i w.now }
{
    let term = word_term(nk, i, constant, word_at(w, i - 1));
    add_words(word_at(w, i - nk), term)
}

// Writes the bytes from place `at` on.
fn write_at(w: &mut [u8], at: usize, bytes: &[u8])
    requires { at + length bytes.now ≤ length w.old }
    ensures { take (at + length bytes.now) w.new ≡ take at w.old ++ bytes.now }
{
    w[at..at + bytes.len()].copy_from_slice(bytes);
}

/// The expanded key, and zeros after it.
pub(crate) fn expand(nk: usize, key: &[u8]) -> [u8; MOST]
    requires size { IsKeySize nk }
    requires words { length key.now ≡ 4 * nk }
    ensures key { take (4 * nk) result ≡ key.now }
    ensures expanded { take (16 * (nk + 7)) result ≡ key_expansion nk key.now }
{
    let mut w = [0; MOST];
    write_at(&mut w, 0, key);
    let mut constant = 1;
    for i in nk..4 * (nk + 7) {
        let word = next_word(nk, i, constant, &w[..4 * i]);
        write_at(&mut w, 4 * i, &word);
        if i % nk == 0 {
            constant = times_x(constant);
        }
    }
    w
}
