//! What a node doesn't take.

ghost use Rattle.std.specs.Prelude.{◌≡◌, ◌++◌, map, filter, None, [], IfOk, IfErr, OnOk, MatchResult};
ghost use Rattle.bpsec_asb.specs.Known.{operation, targets_of};
ghost use Rattle.bpsec_node.specs.Plain.{may_be_covered};
ghost use Rattle.bpsec_node.specs.Site.{block_at};
ghost use Rattle.bpsec_node.specs.Session.{has};
ghost use Rattle.bpsec_node.specs.Least.{is_cipher, is_visible_bib, read_those, ops_of, least_broken, double_of};
ghost use Rattle.bpsec_node.specs.Begin.{CanBegin, IsBeginFault};
ghost use Rattle.bpsec_node.specs.Lists.{ready_among};
ghost use Rattle.bpsec_node.specs.Start.{first_covers, first_sealed, first_ops, IsStartFault, begin_fault, IsFaultOf};
ghost use Rattle.bpsec_asb.specs.declared.operation.Service.TheVariants.{Bib};

use crate::held::{Held, read_held};
use crate::least::{double_of, least_broken};
use crate::lists::{has, ready_among};
use crate::session::Session;
use crate::site::find_block;
use bp_blocks::Block;
use bp_bundle::Bundle;
use bpsec_asb::{OpId, Service};
use bpsec_context::Suite;
use bpsec_policy::Policy;
use cbor_profile::{Fault, List, NoMemory};
use std::alloc::Global;

/// Why a session isn't begun: the first of these that holds. Memory may run out in each case.
#[derive(Clone, Copy, Debug, PartialEq, Eq)]
pub enum BeginFault {
    /// The bundle is a fragment.
    IsFragment,
    /// A block confidentiality block can't be read: the one of least number, with its first fault.
    BrokenBcb {
        block: u64,
        fault: Fault,
    },
    /// Operations of two block confidentiality blocks cover one block: the least target, and the two least numbers of these.
    DoubleCipher {
        target: u64,
        first: u64,
        second: u64,
    },
    /// No memory was left.
    NoMemory,
}

impl From<NoMemory> for BeginFault {
    ghost use Rattle.bpsec_node.specs.declared.begin.BeginFault.{BeginFault};

    ghost from_gives = { λ _ fault. fault ≡ BeginFault.NoMemory };

    fn from(_error: NoMemory) -> BeginFault {
        BeginFault::NoMemory
    }
}

/// Reads the block confidentiality blocks.
fn read_ciphers(alloc: Global, blocks: &[Block]) -> Result<List<Held>, NoMemory>
    ensures { IfOk result (λ held. held ≡ read_those is_cipher blocks.now) }
{
    let mut held = List::new(alloc);
    for block in blocks {
        if block.kind == 12 {
            let one = read_held(alloc, block.number, block.body.as_slice())?;
            held.append(one)?;
        }
    }
    Ok(held)
}

/// Reads the block integrity blocks that aren't sealed, after others.
fn read_bibs(
    alloc: Global,
    sealed: &[u64],
    blocks: &[Block],
    held: &mut List<Held>,
) -> Result<(), NoMemory>
    ensures { OnOk result (held.new
        ≡ held.old ++ read_those (is_visible_bib sealed.now) blocks.now) }
{
    for block in blocks {
        if block.kind == 11 && !has(sealed, block.number) {
            let one = read_held(alloc, block.number, block.body.as_slice())?;
            held.append(one)?;
        }
    }
    Ok(())
}

/// Appends the operations of a security block.
fn append_held(ops: &mut List<OpId>, service: Service, held: &Held) -> Result<(), NoMemory>
    ensures { OnOk result (ops.new ≡ ops.old
        ++ map (operation service held.now.number) (targets_of held.now.read)) }
{
    let asb = match &held.read {
        Ok(asb) => asb,
        Err(_) => return Ok(()),
    };
    for target in asb.targets.items() {
        let op = OpId {
            service,
            block: held.number,
            target: *target,
        };
        ops.append(op)?;
    }
    Ok(())
}

/// Appends the operations of these security blocks.
fn append_all(ops: &mut List<OpId>, service: Service, held: &[Held]) -> Result<(), NoMemory>
    ensures { OnOk result (ops.new ≡ ops.old ++ ops_of service held.now) }
{
    for one in held {
        append_held(ops, service, one)?;
    }
    Ok(())
}

/// Whether a canonical block may be covered.
fn may_be_covered(blocks: &[Block], number: u64) -> bool
    ensures { result ≡ may_be_covered (block_at blocks.now number) }
{
    match find_block(blocks, number) {
        Some(block) => block.kind != 12,
        None => false,
    }
}

/// Those of these operations that cover a block.
fn covering(alloc: Global, blocks: &[Block], ops: &[OpId]) -> Result<List<OpId>, NoMemory>
    ensures { IfOk result (λ covers. covers
        ≡ filter (λ op. may_be_covered (block_at blocks.now op.target)) ops.now) }
{
    let mut covers = List::new(alloc);
    for op in ops {
        if may_be_covered(blocks, op.target) {
            covers.append(*op)?;
        }
    }
    Ok(covers)
}

/// The targets of these operations.
fn targets(alloc: Global, ops: &[OpId]) -> Result<List<u64>, NoMemory>
    ensures { IfOk result (λ targets. targets ≡ map (λ op. op.target) ops.now) }
{
    Ok(List::of(ops.iter().map(|op| op.target).collect(alloc)?))
}

/// What a session keeps at its beginning.
#[derive(Drop)]
pub(crate) struct Start {
    pub held: List<Held>,
    pub sealed: List<u64>,
    pub open: List<OpId>,
    pub ready: List<OpId>,
}

/// What a session keeps at its beginning, over these covering operations.
fn started(
    alloc: Global,
    blocks: &[Block],
    ciphers: List<Held>,
    ops: List<OpId>,
    covers: &[OpId],
) -> Result<Start, NoMemory>
    ensures held { IfOk result (λ s. s.held
        ≡ ciphers ++ read_those (is_visible_bib (map (λ op. op.target) covers.now)) blocks.now) }
    ensures sealed { IfOk result (λ s. s.sealed ≡ map (λ op. op.target) covers.now) }
    ensures open { IfOk result (λ s. s.open
        ≡ ops ++ ops_of Bib (read_those (is_visible_bib (map (λ op. op.target) covers.now))
        blocks.now)) }
    ensures ready { IfOk result (λ s. s.ready ≡ ready_among (map (λ op. op.target) covers.now)
        (ops ++ ops_of Bib (read_those (is_visible_bib (map (λ op. op.target) covers.now))
        blocks.now))) }
{
    let sealed = targets(alloc, covers)?;
    let mut held = ciphers;
    let mut open = ops;
    let count = held.items().len();
    read_bibs(alloc, sealed.items(), blocks, &mut held)?;
    append_all(&mut open, Service::Bib, &held.items()[count..])?;
    let ready = ready_among(alloc, sealed.items(), open.items())?;
    Ok(Start {
        held,
        sealed,
        open,
        ready,
    })
}

/// What a session over these blocks keeps at its beginning, or the first that stands in the way.
pub(crate) fn begun(alloc: Global, blocks: &[Block]) -> Result<Start, BeginFault>
    ensures readable { OnOk result (least_broken (read_those is_cipher blocks.now) ≡ None) }
    ensures once { OnOk result (double_of (first_covers blocks.now) ≡ None) }
    ensures held { IfOk result (λ s. s.held
        ≡ read_those is_cipher blocks.now
        ++ read_those (is_visible_bib (first_sealed blocks.now)) blocks.now) }
    ensures sealed { IfOk result (λ s. s.sealed ≡ first_sealed blocks.now) }
    ensures open { IfOk result (λ s. s.open ≡ first_ops blocks.now) }
    ensures ready { IfOk result (λ s. s.ready
        ≡ ready_among (first_sealed blocks.now) (first_ops blocks.now)) }
    ensures err { IfErr result (IsStartFault blocks.now) }
{
    let ciphers = match read_ciphers(alloc, blocks) {
        Ok(ciphers) => ciphers,
        Err(error) => return Err(error.into()),
    };
    if let Some((block, fault)) = least_broken(ciphers.items()) {
        return Err(BeginFault::BrokenBcb { block, fault });
    }
    let mut ops = List::new(alloc);
    if let Err(error) = append_all(&mut ops, Service::Bcb, ciphers.items()) {
        return Err(error.into());
    }
    let covers = match covering(alloc, blocks, ops.items()) {
        Ok(covers) => covers,
        Err(error) => return Err(error.into()),
    };
    if let Some((target, first, second)) = double_of(covers.items()) {
        return Err(BeginFault::DoubleCipher {
            target,
            first,
            second,
        });
    }
    match started(alloc, blocks, ciphers, ops, covers.items()) {
        Ok(start) => Ok(start),
        Err(error) => Err(error.into()),
    }
}

impl<'a, S: Suite> Session<'a, S> {
    /// A session over a bundle, or the first that stands in the way, which drops the bundle.
    pub fn begin(
        alloc: Global,
        bundle: Bundle,
        policy: &'a Policy,
        suite: &'a S,
    ) -> Result<Session<'a, S>, BeginFault>
        ensures ok { IfOk result (λ session. session
            ≡ record { received = bundle; policy = policy.now; done = []; keys = [] }) }
        // Which fault it is, or none. Memory may run out in each case.
        ensures exact { MatchResult result (λ _. CanBegin bundle) (IsBeginFault bundle) }
        ensures means { OnOk result (begin_fault bundle ≡ None) }
        ensures fault { IfErr result (IsFaultOf bundle) }
    {
        let _size = bundle.size();
        if bundle.primary().is_fragment() {
            return Err(BeginFault::IsFragment);
        }
        let Start {
            held,
            sealed,
            open,
            ready,
        } = match begun(alloc, bundle.blocks()) {
            Ok(start) => start,
            Err(fault) => return Err(fault),
        };
        match bundle.copy(alloc) {
            Ok(shown) => Ok(Session {
                alloc,
                policy,
                suite,
                received: bundle,
                shown,
                held,
                sealed,
                stuck: List::new(alloc),
                open,
                ready,
                done: List::new(alloc),
                keys: List::new(alloc),
                verdicts: List::new(alloc),
            }),
            Err(error) => Err(error.into()),
        }
    }
}
