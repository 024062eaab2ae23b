// The numbers that go with each parameter set (RFC 8554, sections 4.1 and 5.1).

ghost use Rattle.std.specs.Prelude.{◌≡◌, ◌≢◌, ◌^◌, MatchOption};
ghost use Rattle.lms.specs.Parameters.{ots_code, width as width_of, chain_count as chain_count_of, chain_end as chain_end_of, checksum_shift as checksum_shift_of, lms_code, height as height_of, signing_type};
ghost use Rattle.lms.specs.declared.OtsType.{OtsType};
ghost use Rattle.lms.specs.declared.LmsType.{LmsType};

use crate::{LmsType, OtsType, SigningHeight};

impl OtsType {
    /// The type with this number in keys and signatures, `None` where it is another number than 1 to 4.
    pub fn from_code(code: u32) -> Option<OtsType>
        ensures { MatchOption result ((ots : OtsType) → code ≢ ots_code ots) (λ ots. code ≡ ots_code ots) }
    {
        match code {
            1 => Some(OtsType::W1),
            2 => Some(OtsType::W2),
            3 => Some(OtsType::W4),
            4 => Some(OtsType::W8),
            _ => None,
        }
    }

    /// The number that stands for the type in keys and signatures.
    pub(crate) fn code(self) -> u32
        ensures { result ≡ ots_code self }
    {
        match self {
            OtsType::W1 => 1,
            OtsType::W2 => 2,
            OtsType::W4 => 3,
            OtsType::W8 => 4,
        }
    }

    /// The bits of a coefficient.
    pub(crate) fn width(self) -> usize
        ensures { result ≡ width_of self }
    {
        match self {
            OtsType::W1 => 1,
            OtsType::W2 => 2,
            OtsType::W4 => 4,
            OtsType::W8 => 8,
        }
    }

    /// The last number of a chain.
    pub(crate) fn chain_end(self) -> u8
        ensures { result ≡ chain_end_of self }
    {
        match self {
            OtsType::W1 => 1,
            OtsType::W2 => 3,
            OtsType::W4 => 15,
            OtsType::W8 => 255,
        }
    }

    /// How many chains there are.
    pub(crate) fn chain_count(self) -> u16
        ensures { result ≡ chain_count_of self }
    {
        match self {
            OtsType::W1 => 265,
            OtsType::W2 => 133,
            OtsType::W4 => 67,
            OtsType::W8 => 34,
        }
    }

    /// How many bits the checksum is shifted by.
    pub(crate) fn checksum_shift(self) -> u32
        ensures { result ≡ checksum_shift_of self }
    {
        match self {
            OtsType::W1 => 7,
            OtsType::W2 => 6,
            OtsType::W4 => 4,
            OtsType::W8 => 0,
        }
    }
}

impl LmsType {
    /// The type with this number in keys and signatures, `None` where it is another number than 5 to 9.
    pub fn from_code(code: u32) -> Option<LmsType>
        ensures { MatchOption result ((lms : LmsType) → code ≢ lms_code lms) (λ lms. code ≡ lms_code lms) }
    {
        match code {
            5 => Some(LmsType::H5),
            6 => Some(LmsType::H10),
            7 => Some(LmsType::H15),
            8 => Some(LmsType::H20),
            9 => Some(LmsType::H25),
            _ => None,
        }
    }

    /// The number that stands for the type in keys and signatures.
    pub(crate) fn code(self) -> u32
        ensures { result ≡ lms_code self }
    {
        match self {
            LmsType::H5 => 5,
            LmsType::H10 => 6,
            LmsType::H15 => 7,
            LmsType::H20 => 8,
            LmsType::H25 => 9,
        }
    }

    /// The height of the tree.
    pub(crate) fn height(self) -> u32
        ensures { result ≡ height_of self }
    {
        match self {
            LmsType::H5 => 5,
            LmsType::H10 => 10,
            LmsType::H15 => 15,
            LmsType::H20 => 20,
            LmsType::H25 => 25,
        }
    }

    /// How many leaves the tree has. The leaves' nodes are numbered from there on.
    pub(crate) fn leaves(self) -> u32
        ensures { result ≡ 2 ^ height_of self }
    {
        1 << self.height()
    }
}

impl SigningHeight {
    /// The type of a tree of this height (RFC 8554, section 5.1).
    pub fn lms_type(self) -> LmsType
        ensures { result ≡ signing_type self }
    {
        match self {
            SigningHeight::H5 => LmsType::H5,
            SigningHeight::H10 => LmsType::H10,
        }
    }
}
