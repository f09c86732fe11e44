//! A confidentiality operation that opens the body of its target.

ghost use Rattle.std.specs.Prelude.{◌≡◌, ◌≢◌, false, if◌then◌else◌, Some, None, IsSome, IsFalse, IsTrue, IfOk};
ghost use Rattle.std.specs.Option.{option_copied};
ghost use Rattle.bpsec_asb.specs.declared.operation.Service.TheVariants.{Bcb};
ghost use Rattle.bpsec_context.specs.Calls.{IsShort};
ghost use Rattle.bpsec_node.specs.Situation.{meaning};
ghost use Rattle.bpsec_node.specs.Site.{parameters_of, results_of, parts, is_narrow, rule_over, judge_over, open_over, body_in};
ghost use Rattle.bpsec_node.specs.Plain.{may_be_covered, is_right};
ghost use Rattle.bpsec_node.specs.Verdict.{verdict_of};
ghost use Rattle.bpsec_node.specs.Over.{site_in, target_in, IsRead, IsSmall, verdict_over, opened_over};

use crate::event::Verdict;
use crate::over::{Opening, Over};
use crate::site::{parameters, results, verdict_of};
use bp_blocks::Block;
use bp_primary::Primary;
use bpsec_asb::{Asb, OpId, Pair, Service};
use bpsec_context::{Judgement, MissetReason, Suite};
use bpsec_policy::{Policy, Role, Rule, TargetKind};
use bpsec_scope::{Covered, Header, TargetOf};
use cbor_profile::{Bytes, NoMemory};
use std::alloc::Global;

impl<'b> Over<'b> {
    /// Judges a confidentiality operation on a copy of its target's body, and opens the copy where it is judged right.
    fn unseal<S: Suite>(
        &self,
        alloc: Global,
        suite: &S,
        key: Option<&[u8]>,
    ) -> Result<(Judgement, Bytes), NoMemory>
        requires service { self.now.op.service ≡ Bcb }
        requires canonical { self.now.op.target ≢ 0 }
        requires target { IsSome self.now.target }
        requires small { IsSmall self.now }
        requires key { IsShort (option_copied key) }
        ensures judged { IfOk result (λ r. r.0
            ≡ S.checked self.now.asb.now.context (option_copied key.entry)
            (parameters_of self.now.asb.now)
            (results_of self.now.asb.now self.now.op.target) (parts (site_in self.now) self.now.op)
            (body_in (target_in self.now))) }
        ensures opened { IfOk result (λ r. r.1
            ≡ S.opened self.now.asb.now.context (option_copied key.entry)
            (parameters_of self.now.asb.now)
            (results_of self.now.asb.now self.now.op.target) (parts (site_in self.now) self.now.op)
            (body_in (target_in self.now))) }
    {
        let covered = self.covered_sealed();
        let mut body = match self.target {
            Some(block) => block.body.copy(alloc)?,
            None => Bytes::new(alloc),
        };
        let judgement = suite.unseal(
            self.asb.context,
            key,
            parameters(self.asb),
            results(self.asb, self.op.target),
            &covered,
            &mut body,
        );
        Ok((judgement, body))
    }

    /// Accepts a confidentiality operation whose scope isn't too narrow: judges it, and opens the body where it is right.
    #[tactic(auto, unfolding(crate::specs::Site::judge_over, crate::specs::Site::open_over))]
    fn accept<S: Suite>(
        &self,
        alloc: Global,
        suite: &S,
        policy: &Policy,
        key: Option<&[u8]>,
    ) -> Result<Opening, NoMemory>
        requires service { self.now.op.service ≡ Bcb }
        requires canonical { self.now.op.target ≢ 0 }
        requires target { IsSome self.now.target }
        requires read { IsRead self.now }
        requires small { IsSmall self.now }
        requires key { IsShort (option_copied key) }
        requires wide { IsFalse (is_narrow
            (rule_over policy.now (site_in self.now) self.now.op).least_scope
            (S.scope self.now.asb.now.context (parameters_of self.now.asb.now))) }
        ensures verdict { IfOk result (λ o. o.verdict
            ≡ verdict_of (judge_over (meaning S.scope S.judged S.checked S.opened) policy.now
            (site_in self.now) self.now.op (option_copied key.entry))) }
        ensures body { IfOk result (λ o. o.body
            ≡ (if is_right (judge_over (meaning S.scope S.judged S.checked S.opened) policy.now
            (site_in self.now) self.now.op (option_copied key.entry))
            then Some (open_over (meaning S.scope S.judged S.checked S.opened) (site_in self.now)
            self.now.op (option_copied key.entry)) else None)) }
    {
        match self.unseal(alloc, suite, key) {
            Ok((Judgement::Right, body)) => Ok(Opening {
                verdict: Verdict::Passed,
                body: Some(body),
            }),
            Ok((judgement, _body)) => Ok(Opening {
                verdict: verdict_of(judgement),
                body: None,
            }),
            Err(error) => Err(error),
        }
    }

    /// Judges a confidentiality operation, and opens nothing.
    fn check<S: Suite>(&self, suite: &S, policy: &Policy, key: Option<&[u8]>) -> Opening
        requires service { self.now.op.service ≡ Bcb }
        requires canonical { self.now.op.target ≢ 0 }
        requires target { IsSome self.now.target }
        requires read { IsRead self.now }
        requires small { IsSmall self.now }
        requires key { IsShort (option_copied key) }
        ensures verdict { result.verdict
            ≡ verdict_of (judge_over (meaning S.scope S.judged S.checked S.opened) policy.now
            (site_in self.now) self.now.op (option_copied key.entry)) }
        ensures body { result.body ≡ None }
    {
        Opening {
            verdict: verdict_of(self.judge_bcb(suite, policy, key)),
            body: None,
        }
    }

    /// Accepts a confidentiality operation: judges it, and opens the body where it is right. One of too narrow a scope opens
    /// nothing.
    #[tactic(auto, using(crate::proofs::Narrow::narrow_is_not_right))]
    fn accept_wide<S: Suite>(
        &self,
        alloc: Global,
        suite: &S,
        policy: &Policy,
        key: Option<&[u8]>,
    ) -> Result<Opening, NoMemory>
        requires service { self.now.op.service ≡ Bcb }
        requires canonical { self.now.op.target ≢ 0 }
        requires target { IsSome self.now.target }
        requires read { IsRead self.now }
        requires small { IsSmall self.now }
        requires key { IsShort (option_copied key) }
        ensures verdict { IfOk result (λ o. o.verdict
            ≡ verdict_of (judge_over (meaning S.scope S.judged S.checked S.opened) policy.now
            (site_in self.now) self.now.op (option_copied key.entry))) }
        ensures body { IfOk result (λ o. o.body
            ≡ (if is_right (judge_over (meaning S.scope S.judged S.checked S.opened) policy.now
            (site_in self.now) self.now.op (option_copied key.entry))
            then Some (open_over (meaning S.scope S.judged S.checked S.opened) (site_in self.now)
            self.now.op (option_copied key.entry)) else None)) }
    {
        if self.has_narrow_scope(suite, self.rule(policy)) {
            return Ok(self.check(suite, policy, key));
        }
        self.accept(alloc, suite, policy, key)
    }

    /// The verdict of a confidentiality operation on a block that it covers, and the opened body where it opens it.
    pub fn open<S: Suite>(
        &self,
        alloc: Global,
        suite: &S,
        policy: &Policy,
        key: Option<&[u8]>,
    ) -> Result<Opening, NoMemory>
        requires service { self.now.op.service ≡ Bcb }
        requires canonical { self.now.op.target ≢ 0 }
        requires target { IsTrue (may_be_covered (target_in self.now)) }
        requires read { IsRead self.now }
        requires small { IsSmall self.now }
        requires key { IsShort (option_copied key) }
        ensures verdict { IfOk result (λ o. o.verdict
            ≡ verdict_over (meaning S.scope S.judged S.checked S.opened) policy.now self.now false
            (option_copied key.entry)) }
        ensures body { IfOk result (λ o. o.body
            ≡ opened_over (meaning S.scope S.judged S.checked S.opened) policy.now self.now
            (option_copied key.entry)) }
    {
        match self.role(policy) {
            Role::None => Ok(Opening {
                verdict: Verdict::NotOurs,
                body: None,
            }),
            Role::Verifier => Ok(self.check(suite, policy, key)),
            Role::Acceptor => self.accept_wide(alloc, suite, policy, key),
        }
    }
}
