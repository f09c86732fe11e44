//! The jobs, by what they are done on: from values to an answer.

ghost use Rattle.std.specs.Prelude.{◌≡◌, IfOk};
ghost use Rattle.bpsec_answer.specs.Riders.{NoFault, NoOutput, NotEarly};

use crate::texts::NamedText;
use bp_bundle::Bundle;
use bpsec_answer::Answer;
use bpsec_policy::KeyRing;
use cbor_profile::NoMemory;
use std::alloc::Global;

/// The job of a command that reads one bundle.
pub trait BundleJob {
    ghost use Rattle.bp_bundle.specs.Shape.{Contents};
    ghost use Rattle.bpsec_answer.specs.declared.answer.Answer.{Answer};

    /// The answer to each bundle.
    ghost answer_to: { Self → Contents → Answer };

    /// Answers.
    fn answer(&self, alloc: Global, bundle: Bundle) -> Result<Answer, NoMemory>
        ensures is { IfOk result (λ answer. answer ≡ answer_to self.now bundle) }
        ensures no_fault { NoFault result }
        ensures not_early { NotEarly result }
        ensures no_output { NoOutput result };
}

/// The job of a command that names one text, and reads no input.
pub trait TextJob {
    ghost use Rattle.bpsec_answer.specs.declared.answer.Answer.{Answer};

    /// The kind of its text.
    type Text: NamedText;

    /// The answer to each text.
    ghost answer_to: { Self → Self.Text → Answer };

    /// Answers.
    fn answer(&self, alloc: Global, text: Self::Text) -> Result<Answer, NoMemory>
        ensures is { IfOk result (λ answer. answer ≡ answer_to self.now text) }
        ensures no_fault { NoFault result }
        ensures no_output { NoOutput result };
}

/// The job of a command that names one text and a key ring, and reads no input.
pub trait RingJob {
    ghost use Rattle.std.specs.Prelude.{List};
    ghost use Rattle.bpsec_policy.specs.declared.ring.NamedKey.{NamedKey};
    ghost use Rattle.bpsec_answer.specs.declared.answer.Answer.{Answer};

    /// The kind of its text.
    type Text: NamedText;

    /// The answer to each text and each ring.
    ghost answer_to: { Self → Self.Text → List NamedKey → Answer };

    /// Answers.
    fn answer(&self, alloc: Global, text: Self::Text, ring: KeyRing) -> Result<Answer, NoMemory>
        ensures is { IfOk result (λ answer. answer ≡ answer_to self.now text ring) }
        ensures no_fault { NoFault result }
        ensures no_output { NoOutput result };
}

/// The job of a command that names one text and a key ring, and reads one bundle.
pub trait KeyedJob {
    ghost use Rattle.std.specs.Prelude.{List};
    ghost use Rattle.bp_bundle.specs.Shape.{Contents};
    ghost use Rattle.bpsec_policy.specs.declared.ring.NamedKey.{NamedKey};
    ghost use Rattle.bpsec_answer.specs.declared.answer.Answer.{Answer};

    /// The kind of its text.
    type Text: NamedText;

    /// The answer to each text, each ring and each bundle.
    ghost answer_to: { Self → Self.Text → List NamedKey → Contents → Answer };

    /// Answers.
    fn answer(
        &self,
        alloc: Global,
        text: Self::Text,
        ring: KeyRing,
        bundle: Bundle,
    ) -> Result<Answer, NoMemory>
        ensures is { IfOk result (λ answer. answer ≡ answer_to self.now text ring bundle) }
        ensures no_fault { NoFault result }
        ensures not_early { NotEarly result }
        ensures no_output { NoOutput result };
}
