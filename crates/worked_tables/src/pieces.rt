//! Bytes that are fed in pieces.

use cbor_profile::Feed;

/// Feeds pieces of so many bytes, as a caller does that knows the trait alone.
pub fn feed_in_pieces<F: Feed>(into: &mut F, bytes: &[u8], size: u64) {
    let size = size as usize;
    for piece in bytes.chunks(size.max(1)) {
        into.feed(piece);
    }
}
