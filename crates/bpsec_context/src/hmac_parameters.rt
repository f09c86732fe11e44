//! The parameters of context 1 (RFC 9173, section 3.3).

ghost use Rattle.std.specs.Prelude.{◌≡◌, true, false, length, IsTrue, IfOk, OnOk, OnErr};
ghost use Rattle.std.specs.Option.{ForSome, option_copied};
ghost use Rattle.bpsec_context.specs.Pairs.{has_length, wrapped_lengths, given};
ghost use Rattle.bpsec_context.specs.Integrity.{variant_numbered, variant_read, bad_parameters, variant_of, wrapped_of, flags_of, size_of};

use crate::pairs::{Malformed, WRAPPED, bytes, number};
use bpsec_asb::Pair;

/// The hash function of an HMAC (section 3.3.1).
#[derive(Clone, Copy, Debug, PartialEq, Eq)]
pub(crate) enum HmacVariant {
    Sha256,
    Sha384,
    Sha512,
}

impl HmacVariant {
    /// How many bytes a code has.
    pub(crate) fn size(self) -> usize
        ensures { result ≡ size_of self }
    {
        match self {
            HmacVariant::Sha256 => 32,
            HmacVariant::Sha384 => 48,
            HmacVariant::Sha512 => 64,
        }
    }

    /// The variant of this number.
    fn numbered(number: u64) -> Option<HmacVariant>
        ensures { result ≡ variant_numbered number }
    {
        match number {
            5 => Some(HmacVariant::Sha256),
            6 => Some(HmacVariant::Sha384),
            7 => Some(HmacVariant::Sha512),
            _ => None,
        }
    }
}

/// Well-formed parameters, with what stands for those that are absent.
#[derive(Clone, Copy)]
pub(crate) struct HmacParameters<'a> {
    pub(crate) variant: HmacVariant,
    pub(crate) wrapped: Option<&'a [u8]>,
    pub(crate) scope: u64,
    ghost fits: { ForSome wrapped (λ key. IsTrue (has_length wrapped_lengths (length key.now))) },
}

/// The variant, if one is given.
fn variant(parameters: &[Pair]) -> Result<Option<HmacVariant>, Malformed>
    ensures { result ≡ given variant_read 1 parameters.now }
{
    match number(parameters, 1) {
        Err(malformed) => Err(malformed),
        Ok(None) => Ok(None),
        Ok(Some(number)) => match HmacVariant::numbered(number) {
            None => Err(Malformed),
            Some(variant) => Ok(Some(variant)),
        },
    }
}

/// The parameters, if they are well formed.
pub(crate) fn hmac_parameters(parameters: &[Pair]) -> Result<HmacParameters<'_>, Malformed>
    ensures ok { OnOk result (bad_parameters parameters.now ≡ false) }
    ensures err { OnErr result (bad_parameters parameters.now ≡ true) }
    ensures variant { IfOk result (λ given. given.variant ≡ variant_of parameters.now) }
    ensures wrapped { IfOk result (λ given. option_copied given.wrapped
        ≡ wrapped_of parameters.now) }
    ensures scope { IfOk result (λ given. given.scope ≡ flags_of parameters.now) }
{
    let variant = variant(parameters)?;
    let wrapped = bytes(parameters, 2, WRAPPED)?;
    let scope = number(parameters, 3)?;
    Ok(HmacParameters {
        variant: variant.unwrap_or(HmacVariant::Sha384),
        wrapped,
        scope: scope.unwrap_or(7),
    })
}
