//! Feeding the covered bytes.

ghost use Rattle.std.specs.Prelude.{◌≡◌, ◌+◌, ◌^◌, ◌≤◌, length, IsTrue, IsFalse};
ghost use Rattle.cbor_profile.specs.Feeds.{Feeds};
ghost use Rattle.bpsec_scope.specs.Target.{target_of, is_sealed, body_of};
ghost use Rattle.bpsec_scope.specs.Covered.{scoped, assigned, header_items, primary_items, selected_primary, selected_target_header, selected_security_header, content_of, content_items, front, ippt, aad};
ghost use Rattle.bpsec_scope.specs.View.{parts_of};

use crate::covered::Covered;
use crate::header::Header;
use crate::target::TargetOf;
use cbor_profile::{Feed, feed_bytes, feed_uint};

/// The assigned block processing control flags (RFC 9171, section 4.2.4).
const ASSIGNED: u64 = 0x17;

/// The scope flags (RFC 9173, sections 3.3.3 and 4.3.4).
const PRIMARY: u64 = 0x1;

const TARGET_HEADER: u64 = 0x2;

const SECURITY_HEADER: u64 = 0x4;

/// Feeds a header, with the assigned flags alone.
fn feed_header<F: Feed>(header: Header, into: &mut F)
    ensures stands { Feeds F.stands_for F.MOST into.old into.new (header_items (Some (assigned header))) }
    ensures fixed { F.fixed into.new ≡ F.fixed into.old }
    ensures short { length (header_items (Some (assigned header))) ≤ 27 }
{
    feed_uint(into, header.kind);
    feed_uint(into, header.number);
    feed_uint(into, header.flags & ASSIGNED);
}

/// Feeds the primary block, where the flags select it and it isn't the target.
fn feed_primary<F: Feed>(covered: &Covered, flags: u64, into: &mut F)
    ensures stands { Feeds F.stands_for F.MOST into.old into.new (primary_items (selected_primary flags (parts_of covered.now))) }
    ensures fixed { F.fixed into.new ≡ F.fixed into.old }
    ensures short { length (primary_items (selected_primary flags (parts_of covered.now))) ≤ 3200 }
{
    if flags & PRIMARY == PRIMARY && !covered.target.is_primary() {
        // Asked for so that it is known to be small.
        let _size = covered.primary.size();
        covered.primary.feed_into(into);
    }
}

/// Feeds the header of the target, where the flags select it and the target isn't the primary block.
fn feed_target_header<F: Feed>(covered: &Covered, flags: u64, into: &mut F)
    ensures stands { Feeds F.stands_for F.MOST into.old into.new (header_items (selected_target_header flags (parts_of covered.now))) }
    ensures fixed { F.fixed into.new ≡ F.fixed into.old }
    ensures short { length (header_items (selected_target_header flags (parts_of covered.now))) ≤ 27 }
{
    if flags & TARGET_HEADER == TARGET_HEADER && !covered.target.is_primary() {
        if let Some(header) = covered.target_header {
            feed_header(header, into);
        }
    }
}

/// Feeds the header of the security block, where the flags select it.
fn feed_security_header<F: Feed>(covered: &Covered, flags: u64, into: &mut F)
    ensures stands { Feeds F.stands_for F.MOST into.old into.new (header_items (selected_security_header flags (parts_of covered.now))) }
    ensures fixed { F.fixed into.new ≡ F.fixed into.old }
    ensures short { length (header_items (selected_security_header flags (parts_of covered.now))) ≤ 27 }
{
    if flags & SECURITY_HEADER == SECURITY_HEADER {
        feed_header(covered.security_header, into);
    }
}

/// Feeds the scope flags and what they select.
fn feed_front<F: Feed>(covered: &Covered, scope: u64, into: &mut F)
    ensures stands { Feeds F.stands_for F.MOST into.old into.new (front (scoped (parts_of covered.now) scope)) }
    ensures fixed { F.fixed into.new ≡ F.fixed into.old }
    ensures short { length (front (scoped (parts_of covered.now) scope)) ≤ 3263 }
{
    let flags = scope % 8;
    feed_uint(into, flags);
    feed_primary(covered, flags, into);
    feed_target_header(covered, flags, into);
    feed_security_header(covered, flags, into);
}

/// Feeds the target itself, where it isn't sealed.
fn feed_content<F: Feed>(covered: &Covered, into: &mut F)
    ensures stands { Feeds F.stands_for F.MOST into.old into.new (content_items (content_of covered.now.primary.now (target_of covered.now.target))) }
    ensures fixed { F.fixed into.new ≡ F.fixed into.old }
    ensures short { length (content_items (content_of covered.now.primary.now (target_of covered.now.target)))
        ≤ length (body_of (target_of covered.now.target)) + 3200 }
{
    match covered.target {
        TargetOf::Primary => {
            // Asked for so that it is known to be small.
            let _size = covered.primary.size();
            covered.primary.feed_into(into);
        }
        TargetOf::Body(body) => feed_bytes(into, body),
        TargetOf::Sealed => {}
    }
}

/// Feeds the bytes that an integrity operation with these scope flags covers, its integrity-protected plaintext (RFC 9173,
/// section 3.7). Takes no memory.
pub fn ippt<F: Feed>(covered: &Covered, scope: u64, into: &mut F)
    requires { IsFalse (is_sealed (target_of covered.now.target)) }
    ensures stands { Feeds F.stands_for F.MOST into.old into.new (ippt (scoped (parts_of covered.now) scope)) }
    ensures fixed { F.fixed into.new ≡ F.fixed into.old }
    ensures short { length (ippt (scoped (parts_of covered.now) scope)) ≤ length (body_of (target_of covered.now.target)) + 2 ^ 13 }
{
    feed_front(covered, scope, into);
    feed_content(covered, into);
}

/// Feeds the bytes that a confidentiality operation with these scope flags covers beside the ciphertext, its additional
/// authenticated data (section 4.7.2). Takes no memory.
pub fn aad<F: Feed>(covered: &Covered, scope: u64, into: &mut F)
    requires { IsTrue (is_sealed (target_of covered.now.target)) }
    ensures stands { Feeds F.stands_for F.MOST into.old into.new (aad (scoped (parts_of covered.now) scope)) }
    ensures fixed { F.fixed into.new ≡ F.fixed into.old }
    ensures short { length (aad (scoped (parts_of covered.now) scope)) ≤ 2 ^ 13 }
{
    feed_front(covered, scope, into);
}
