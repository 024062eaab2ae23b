//! Parameters as numbers in a row.
ghost use Rattle.std.specs.Prelude.{◌≡◌, ◌≢◌, ◌≤◌, MatchBool, MatchOption};
ghost use Rattle.lms.specs.declared.OtsType.{OtsType};
ghost use Rattle.lms.specs.declared.SigningHeight.{SigningHeight};
ghost use Rattle.lms.specs.Parameters.{height, ots_code, signing_type};
ghost use Rattle.lms.specs.Keys.{leaf_count};

use lms::{OtsType, Params, SigningHeight};

/// The number of an LM-OTS type (RFC 8554, section 4.1).
pub fn code_of(ots: OtsType) -> u32
    ensures { result ≡ ots_code ots }
{
    match ots {
        OtsType::W1 => 1,
        OtsType::W2 => 2,
        OtsType::W4 => 3,
        OtsType::W8 => 4,
    }
}

/// The LM-OTS type of a number.
pub fn ots_of(code: u32) -> Option<OtsType>
    ensures { MatchOption result ((ots : OtsType) → code ≢ ots_code ots) (λ ots. code ≡ ots_code ots) }
{
    match code {
        1 => Some(OtsType::W1),
        2 => Some(OtsType::W2),
        3 => Some(OtsType::W4),
        4 => Some(OtsType::W8),
        _ => None,
    }
}

/// The height as a number.
pub fn number_of(signing: SigningHeight) -> u32
    ensures { result ≡ height (signing_type signing) }
{
    match signing {
        SigningHeight::H5 => 5,
        SigningHeight::H10 => 10,
    }
}

/// The height of a number.
pub fn height_of(number: u32) -> Option<SigningHeight>
    ensures { MatchOption result ((h : SigningHeight) → number ≢ height (signing_type h)) (λ h. number ≡ height (signing_type h)) }
{
    match number {
        5 => Some(SigningHeight::H5),
        10 => Some(SigningHeight::H10),
        _ => None,
    }
}

/// How many leaves a tree has.
pub fn leaves_of(params: Params) -> u32
    ensures value { result ≡ leaf_count params }
    ensures few { result ≤ 1024 }
{
    match params.height {
        SigningHeight::H5 => 32,
        SigningHeight::H10 => 1024,
    }
}

/// Whether the parameters are the same.
pub fn same_params(a: Params, b: Params) -> bool
    ensures { MatchBool result (a ≡ b) (a ≢ b) }
{
    code_of(a.ots) == code_of(b.ots) && number_of(a.height) == number_of(b.height)
}
