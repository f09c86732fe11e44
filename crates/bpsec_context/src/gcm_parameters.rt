//! The parameters of context 2 (RFC 9173, section 4.3).

ghost use Rattle.std.specs.Prelude.{◌≡◌, true, false, length, IsTrue, IfOk, OnOk, OnErr};
ghost use Rattle.std.specs.Option.{ForSome, option_copied};
ghost use Rattle.bpsec_context.specs.Pairs.{has_length, wrapped_lengths, vector_lengths, given};
ghost use Rattle.bpsec_context.specs.Confidentiality.{variant_numbered, variant_read, bad_parameters, vector_of, variant_of, wrapped_of, flags_of, words_of};

use crate::pairs::{Lengths, Malformed, WRAPPED, bytes, number};
use bpsec_asb::Pair;

/// The lengths of an initialisation vector.
const VECTOR: Lengths = Lengths {
    least: 8,
    most: 16,
    group: 1,
};

/// The AES variant of a cipher (section 4.3.2).
#[derive(Clone, Copy, Debug, PartialEq, Eq)]
pub(crate) enum GcmVariant {
    Aes128,
    Aes256,
}

impl GcmVariant {
    /// How many words of four bytes a key has.
    pub(crate) fn words(self) -> usize
        ensures { result ≡ words_of self }
    {
        match self {
            GcmVariant::Aes128 => 4,
            GcmVariant::Aes256 => 8,
        }
    }

    /// The variant of this number.
    fn numbered(number: u64) -> Option<GcmVariant>
        ensures { result ≡ variant_numbered number }
    {
        match number {
            1 => Some(GcmVariant::Aes128),
            3 => Some(GcmVariant::Aes256),
            _ => None,
        }
    }
}

/// Well-formed parameters, with what stands for those that are absent.
#[derive(Clone, Copy)]
pub(crate) struct GcmParameters<'a> {
    pub(crate) vector: &'a [u8],
    pub(crate) variant: GcmVariant,
    pub(crate) wrapped: Option<&'a [u8]>,
    pub(crate) scope: u64,
    ghost vector_fits: { IsTrue (has_length vector_lengths (length vector.now)) },
    ghost fits: { ForSome wrapped (λ key. IsTrue (has_length wrapped_lengths (length key.now))) },
}

/// The variant, if one is given.
fn variant(parameters: &[Pair]) -> Result<Option<GcmVariant>, Malformed>
    ensures { result ≡ given variant_read 2 parameters.now }
{
    match number(parameters, 2) {
        Err(malformed) => Err(malformed),
        Ok(None) => Ok(None),
        Ok(Some(number)) => match GcmVariant::numbered(number) {
            None => Err(Malformed),
            Some(variant) => Ok(Some(variant)),
        },
    }
}

/// The parameters, if they are well formed.
pub(crate) fn gcm_parameters(parameters: &[Pair]) -> Result<GcmParameters<'_>, Malformed>
    ensures ok { OnOk result (bad_parameters parameters.now ≡ false) }
    ensures err { OnErr result (bad_parameters parameters.now ≡ true) }
    ensures vector { IfOk result (λ given. given.vector.now ≡ vector_of parameters.now) }
    ensures variant { IfOk result (λ given. given.variant ≡ variant_of parameters.now) }
    ensures wrapped { IfOk result (λ given. option_copied given.wrapped
        ≡ wrapped_of parameters.now) }
    ensures scope { IfOk result (λ given. given.scope ≡ flags_of parameters.now) }
{
    let Some(vector) = bytes(parameters, 1, VECTOR)? else {
        return Err(Malformed);
    };
    let variant = variant(parameters)?;
    let wrapped = bytes(parameters, 3, WRAPPED)?;
    let scope = number(parameters, 4)?;
    Ok(GcmParameters {
        vector,
        variant: variant.unwrap_or(GcmVariant::Aes256),
        wrapped,
        scope: scope.unwrap_or(7),
    })
}
