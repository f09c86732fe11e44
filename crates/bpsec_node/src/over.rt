//! An operation over the blocks of a bundle, and how it is judged.

ghost use Rattle.std.specs.Prelude.{◌≡◌, ◌≢◌, ◌≤◌, ◌^◌, false, Some, None, IsSome, IsFalse, IsTrue, length};
ghost use Rattle.std.specs.Option.{option_copied};
ghost use Rattle.bpsec_asb.specs.declared.operation.Service.TheVariants.{Bib, Bcb};
ghost use Rattle.bpsec_scope.specs.View.{parts_of};
ghost use Rattle.bpsec_scope.specs.Target.{target_of, is_sealed, body_of};
ghost use Rattle.bpsec_context.specs.Calls.{IsShort};
ghost use Rattle.bpsec_node.specs.Situation.{meaning};
ghost use Rattle.bpsec_node.specs.Site.{kind_at, parameters_of, results_of, parts, integrity_target, target_header, is_narrow, unless_narrow, rule_over, role_over, judge_over, body_in};
ghost use Rattle.bpsec_node.specs.Verdict.{is_forbidden, verdict_of};
ghost use Rattle.bpsec_node.specs.Over.{site_in, target_in, type_of, IsRead, IsSmall, verdict_over};

use crate::event::Verdict;
use crate::site::{
    header, is_forbidden, is_narrow, kind_of, parameters, results, unless_narrow, verdict_of,
};
use bp_blocks::Block;
use bp_primary::Primary;
use bpsec_asb::{Asb, OpId, Pair, Service};
use bpsec_context::{Judgement, MissetReason, Suite};
use bpsec_policy::{Policy, Role, Rule, TargetKind};
use bpsec_scope::{Covered, Header, TargetOf};
use cbor_profile::{Bytes, NoMemory};
use std::alloc::Global;

/// An operation, the primary block, the security block that holds it, and its target where that is a canonical block.
#[derive(Drop)]
pub(crate) struct Over<'b> {
    pub op: OpId,
    pub primary: &'b Primary,
    pub security: &'b Block,
    pub asb: &'b Asb,
    pub target: Option<&'b Block>,
}

/// What a confidentiality operation made of its target: a verdict, and the opened body where it opened it.
#[derive(Drop)]
pub(crate) struct Opening {
    pub verdict: Verdict,
    pub body: Option<Bytes>,
}

impl<'b> Over<'b> {
    /// What kind of block the target is.
    pub fn kind(&self) -> Option<TargetKind>
        ensures { result ≡ kind_at self.now.op.target (option_copied self.now.target) }
    {
        kind_of(self.op.target, self.target)
    }

    /// The type of the target, and 0 where there is none.
    pub fn target_type(&self) -> u64
        ensures { result ≡ type_of (target_in self.now) }
    {
        match self.target {
            Some(block) => block.kind,
            None => 0,
        }
    }

    /// The rule of the operation.
    #[tactic(auto, unfolding(crate::specs::Site::rule_over))]
    pub fn rule<'p>(&self, policy: &'p Policy) -> &'p Rule
        requires { IsRead self.now }
        ensures { result.now ≡ rule_over policy.now (site_in self.now) self.now.op }
    {
        policy.rule_for(
            self.op.service,
            &self.asb.source,
            self.asb.context,
            self.kind(),
        )
    }

    /// The node's role in the operation.
    #[tactic(auto, unfolding(crate::specs::Site::role_over))]
    pub fn role(&self, policy: &Policy) -> Role
        requires { IsRead self.now }
        ensures { result ≡ role_over policy.now (site_in self.now) self.now.op }
    {
        policy.role_at(
            self.rule(policy),
            self.op.service,
            &self.primary.destination,
        )
    }

    /// What integrity applies to.
    fn integrity_target(&self) -> TargetOf<'b>
        requires { IsSmall self.now }
        ensures small { length (body_of (target_of result)) ≤ 2 ^ 32 }
        ensures means { target_of result
            ≡ integrity_target self.now.op.target (option_copied self.now.target) }
    {
        match self.target {
            Some(block) if self.op.target != 0 => TargetOf::Body(block.body.as_slice()),
            _ => TargetOf::Primary,
        }
    }

    /// The header of the target.
    fn target_header(&self) -> Option<Header>
        ensures { result ≡ target_header self.now.op.target (option_copied self.now.target) }
    {
        match self.target {
            Some(block) if self.op.target != 0 => Some(header(block)),
            _ => None,
        }
    }

    /// What an integrity operation may cover.
    #[tactic(auto, unfolding(crate::specs::Site::parts))]
    fn covered(&self) -> Covered<'b>
        requires service { self.now.op.service ≡ Bib }
        requires small { IsSmall self.now }
        ensures parts { parts_of result ≡ parts (site_in self.now) self.now.op }
        ensures unsealed { IsFalse (is_sealed (target_of result.target)) }
        ensures small { length (body_of (target_of result.target)) ≤ 2 ^ 32 }
    {
        Covered {
            target: self.integrity_target(),
            primary: self.primary,
            target_header: self.target_header(),
            security_header: header(self.security),
        }
    }

    /// What a confidentiality operation may cover.
    #[tactic(auto, unfolding(crate::specs::Site::parts))]
    pub fn covered_sealed(&self) -> Covered<'b>
        requires service { self.now.op.service ≡ Bcb }
        requires canonical { self.now.op.target ≢ 0 }
        requires target { IsSome self.now.target }
        ensures parts { parts_of result ≡ parts (site_in self.now) self.now.op }
        ensures sealed { IsTrue (is_sealed (target_of result.target)) }
    {
        Covered {
            target: TargetOf::Sealed,
            primary: self.primary,
            target_header: self.target_header(),
            security_header: header(self.security),
        }
    }

    /// The scope is narrower than the rule asks for.
    pub fn has_narrow_scope<S: Suite>(&self, suite: &S, rule: &Rule) -> bool
        ensures { result ≡ is_narrow rule.now.least_scope
            (S.scope self.now.asb.now.context (parameters_of self.now.asb.now)) }
    {
        is_narrow(
            rule.least_scope,
            suite.scope_of(self.asb.context, parameters(self.asb)),
        )
    }

    /// The suite's judgement of an integrity operation.
    fn judge_integrity<S: Suite>(&self, suite: &S, key: Option<&[u8]>) -> Judgement
        requires service { self.now.op.service ≡ Bib }
        requires small { IsSmall self.now }
        requires key { IsShort (option_copied key) }
        ensures { result ≡ S.judged self.now.asb.now.context (option_copied key.entry)
            (parameters_of self.now.asb.now)
            (results_of self.now.asb.now self.now.op.target)
            (parts (site_in self.now) self.now.op) }
    {
        let covered = self.covered();
        suite.judge(
            self.asb.context,
            key,
            parameters(self.asb),
            results(self.asb, self.op.target),
            &covered,
        )
    }

    /// The suite's judgement of a confidentiality operation.
    fn judge_confidentiality<S: Suite>(&self, suite: &S, key: Option<&[u8]>) -> Judgement
        requires service { self.now.op.service ≡ Bcb }
        requires canonical { self.now.op.target ≢ 0 }
        requires target { IsSome self.now.target }
        requires small { IsSmall self.now }
        requires key { IsShort (option_copied key) }
        ensures { result ≡ S.checked self.now.asb.now.context (option_copied key.entry)
            (parameters_of self.now.asb.now)
            (results_of self.now.asb.now self.now.op.target) (parts (site_in self.now) self.now.op)
            (body_in (target_in self.now)) }
    {
        let covered = self.covered_sealed();
        let body = match self.target {
            Some(block) => block.body.as_slice(),
            None => &[],
        };
        suite.check(
            self.asb.context,
            key,
            parameters(self.asb),
            results(self.asb, self.op.target),
            &covered,
            body,
        )
    }

    /// The judgement of an integrity operation.
    #[tactic(auto, unfolding(crate::specs::Site::judge_over))]
    fn judge_bib<S: Suite>(&self, suite: &S, policy: &Policy, key: Option<&[u8]>) -> Judgement
        requires service { self.now.op.service ≡ Bib }
        requires read { IsRead self.now }
        requires small { IsSmall self.now }
        requires key { IsShort (option_copied key) }
        ensures { result ≡ judge_over (meaning S.scope S.judged S.checked S.opened) policy.now
            (site_in self.now) self.now.op (option_copied key.entry) }
    {
        let narrow = self.has_narrow_scope(suite, self.rule(policy));
        unless_narrow(narrow, self.judge_integrity(suite, key))
    }

    /// The judgement of a confidentiality operation.
    #[tactic(auto, unfolding(crate::specs::Site::judge_over))]
    pub fn judge_bcb<S: Suite>(&self, suite: &S, policy: &Policy, key: Option<&[u8]>) -> Judgement
        requires service { self.now.op.service ≡ Bcb }
        requires canonical { self.now.op.target ≢ 0 }
        requires target { IsSome self.now.target }
        requires read { IsRead self.now }
        requires small { IsSmall self.now }
        requires key { IsShort (option_copied key) }
        ensures { result ≡ judge_over (meaning S.scope S.judged S.checked S.opened) policy.now
            (site_in self.now) self.now.op (option_copied key.entry) }
    {
        let narrow = self.has_narrow_scope(suite, self.rule(policy));
        unless_narrow(narrow, self.judge_confidentiality(suite, key))
    }

    /// The judgement of an operation whose target is there and may be one.
    fn judge<S: Suite>(
        &self,
        suite: &S,
        policy: &Policy,
        kind: TargetKind,
        key: Option<&[u8]>,
    ) -> Judgement
        requires there { kind_at self.now.op.target (target_in self.now) ≡ Some kind }
        requires allowed { is_forbidden self.now.op.service kind ≡ false }
        requires read { IsRead self.now }
        requires small { IsSmall self.now }
        requires key { IsShort (option_copied key) }
        ensures { result ≡ judge_over (meaning S.scope S.judged S.checked S.opened) policy.now
            (site_in self.now) self.now.op (option_copied key.entry) }
    {
        match self.op.service {
            Service::Bib => self.judge_bib(suite, policy, key),
            Service::Bcb => self.judge_bcb(suite, policy, key),
        }
    }

    /// The verdict of a step that opens nothing.
    pub fn verdict<S: Suite>(
        &self,
        suite: &S,
        policy: &Policy,
        blocked: bool,
        key: Option<&[u8]>,
    ) -> Verdict
        requires read { IsRead self.now }
        requires small { IsSmall self.now }
        requires key { IsShort (option_copied key) }
        ensures { result ≡ verdict_over (meaning S.scope S.judged S.checked S.opened) policy.now
            self.now blocked (option_copied key.entry) }
    {
        if self.role(policy) == Role::None {
            return Verdict::NotOurs;
        }
        let Some(kind) = self.kind() else {
            return Verdict::Misset(MissetReason::NoTarget);
        };
        if is_forbidden(self.op.service, kind) {
            return Verdict::Misset(MissetReason::TargetForbidden);
        }
        if blocked {
            return Verdict::Blocked;
        }
        verdict_of(self.judge(suite, policy, kind, key))
    }
}
