//! Writing a status report.

ghost use Rattle.std.specs.Prelude.{◌≡◌, ◌+◌, ◌≤◌, ◌++◌, length, take, OnOk, OnErr};
ghost use Rattle.bp_status.specs.StatusReport.{assertion, information, timestamp, extent_items};
ghost use Rattle.bp_status.specs.StatusReport.{content_count, IsAssertion, IsExtent};
ghost use Rattle.std.specs.Option.{ForSome};

use crate::report::{Assertion, Extent, Report};
use cbor_profile::{Bytes, NoMemory, put_array, put_bool, put_uint, uint_size};

/// The type of an administrative record that is a bundle status report (RFC 9171, section 6.1).
const STATUS_REPORT: u64 = 1;

/// Appends an assertion, or for want of memory a part of it.
fn append_assertion(made: Assertion, out: &mut Bytes) -> Result<(), NoMemory>
    ensures ok { OnOk result (out.new ≡ out.old ++ assertion made) }
    ensures err { OnErr result (take (length out.old) out.new ≡ out.old) }
{
    match made {
        Assertion::No => {
            put_array(out, 1)?;
            put_bool(out, false)
        }
        Assertion::Yes => {
            put_array(out, 1)?;
            put_bool(out, true)
        }
        Assertion::At(time) => {
            put_array(out, 2)?;
            put_bool(out, true)?;
            put_uint(out, time)
        }
    }
}

/// Appends an assertion, or leaves the bytes as they were for want of memory.
fn put_assertion(made: Assertion, out: &mut Bytes) -> Result<(), NoMemory>
    ensures ok { OnOk result (out.new ≡ out.old ++ assertion made) }
    ensures err { OnErr result (out.new ≡ out.old) }
{
    let before = out.len();
    let appended = append_assertion(made, out);
    out.settle(before, appended)
}

/// Appends a creation timestamp, or for want of memory a part of it.
fn put_timestamp(created: u64, sequence: u64, out: &mut Bytes) -> Result<(), NoMemory>
    ensures ok { OnOk result (out.new ≡ out.old ++ timestamp created sequence) }
    ensures err { OnErr result (take (length out.old) out.new ≡ out.old) }
{
    put_array(out, 2)?;
    put_uint(out, created)?;
    put_uint(out, sequence)
}

/// Appends the extent, where there is one, or for want of memory a part of it.
fn put_extent(piece: Option<Extent>, out: &mut Bytes) -> Result<(), NoMemory>
    ensures ok { OnOk result (out.new ≡ out.old ++ extent_items piece) }
    ensures err { OnErr result (take (length out.old) out.new ≡ out.old) }
{
    match piece {
        Some(extent) => {
            put_uint(out, extent.offset)?;
            put_uint(out, extent.length)
        }
        None => Ok(()),
    }
}

/// How many items the content has.
fn content_count(piece: Option<Extent>) -> u64
    ensures { result ≡ content_count piece }
{
    match piece {
        Some(_) => 6,
        None => 4,
    }
}

/// How many bytes an assertion has.
#[tactic(auto, unfolding(cbor_profile::specs::Put::array_head, cbor_profile::specs::Put::truth))]
fn assertion_size(made: Assertion) -> u64
    ensures size { result ≡ length (assertion made) }
    ensures within { result ≤ 11 }
    ensures fits { IsAssertion made }
{
    match made {
        Assertion::No => 2,
        Assertion::Yes => 2,
        Assertion::At(time) => 2 + uint_size(time),
    }
}

/// How many bytes an extent has, where there is one.
fn extent_size(piece: Option<Extent>) -> u64
    ensures size { result ≡ length (extent_items piece) }
    ensures within { result ≤ 18 }
    ensures fits { ForSome piece IsExtent }
{
    match piece {
        Some(extent) => uint_size(extent.offset) + uint_size(extent.length),
        None => 0,
    }
}

impl Report {
    ghost use Rattle.bp_status.specs.StatusReport.{IsReport, spelling, subject_items};

    /// Appends the status information, or for want of memory a part of it.
    fn append_information(&self, out: &mut Bytes) -> Result<(), NoMemory>
        ensures ok { OnOk result (out.new ≡ out.old
            ++ information self.now.received self.now.forwarded self.now.delivered self.now.deleted) }
        ensures err { OnErr result (take (length out.old) out.new ≡ out.old) }
    {
        put_array(out, 4)?;
        put_assertion(self.received, out)?;
        put_assertion(self.forwarded, out)?;
        put_assertion(self.delivered, out)?;
        put_assertion(self.deleted, out)
    }

    /// Appends the status information, or leaves the bytes as they were for want of memory.
    fn put_information(&self, out: &mut Bytes) -> Result<(), NoMemory>
        ensures ok { OnOk result (out.new ≡ out.old
            ++ information self.now.received self.now.forwarded self.now.delivered self.now.deleted) }
        ensures err { OnErr result (out.new ≡ out.old) }
    {
        let before = out.len();
        let appended = self.append_information(out);
        out.settle(before, appended)
    }

    /// Appends what names the bundle, or for want of memory a part of it.
    fn append_subject(&self, out: &mut Bytes) -> Result<(), NoMemory>
        ensures ok { OnOk result (out.new ≡ out.old ++ subject_items self.now) }
        ensures err { OnErr result (take (length out.old) out.new ≡ out.old) }
    {
        self.source.put(out)?;
        put_timestamp(self.created, self.sequence, out)?;
        put_extent(self.piece, out)
    }

    /// Appends what names the bundle, or leaves the bytes as they were for want of memory.
    fn put_subject(&self, out: &mut Bytes) -> Result<(), NoMemory>
        ensures ok { OnOk result (out.new ≡ out.old ++ subject_items self.now) }
        ensures err { OnErr result (out.new ≡ out.old) }
    {
        let before = out.len();
        let appended = self.append_subject(out);
        out.settle(before, appended)
    }

    /// Appends the spelling, or for want of memory a part of it.
    #[tactic(auto, unfolding(crate::specs::StatusReport::spelling))]
    fn append(&self, out: &mut Bytes) -> Result<(), NoMemory>
        ensures ok { OnOk result (out.new ≡ out.old ++ spelling self.now) }
        ensures err { OnErr result (take (length out.old) out.new ≡ out.old) }
    {
        put_array(out, 2)?;
        put_uint(out, STATUS_REPORT)?;
        put_array(out, content_count(self.piece))?;
        self.put_information(out)?;
        put_uint(out, self.reason)?;
        self.put_subject(out)
    }

    /// Appends the one spelling (RFC 9171, sections 6.1 and 6.1.1), or leaves the bytes as they were for want of memory.
    pub fn put(&self, out: &mut Bytes) -> Result<(), NoMemory>
        ensures ok { OnOk result (out.new ≡ out.old ++ spelling self.now) }
        ensures err { OnErr result (out.new ≡ out.old) }
    {
        let before = out.len();
        let appended = self.append(out);
        out.settle(before, appended)
    }

    /// How many bytes the spelling has. Takes no memory.
    pub fn size(&self) -> u64
        ensures size { result ≡ length (spelling self.now) }
        ensures within { result ≤ 1123 }
        ensures fits { IsReport self.now }
    {
        let information = assertion_size(self.received)
            + assertion_size(self.forwarded)
            + assertion_size(self.delivered)
            + assertion_size(self.deleted);
        let subject = self.source.size() + uint_size(self.created) + uint_size(self.sequence);
        5 + information + uint_size(self.reason) + subject + extent_size(self.piece)
    }
}
