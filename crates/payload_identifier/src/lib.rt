// The names of payload identifiers (RFC 8831, section 8).
#![tactic(auto)]

ghost use Rattle.std.specs.Prelude.{◌≡◌};
ghost use Rattle.payload_identifier.specs.Identifier.{identifier_number, identifier_name};

// What a payload identifier says of the user data: five have names. It is a reading of the number alone; what is kept and sent is the number.
#[derive(Clone, Copy, Debug, PartialEq, Eq)]
pub enum PayloadProtocolIdentifier {
    Dcep,
    String,
    Binary,
    StringEmpty,
    BinaryEmpty,
    Unknown,
}

// The name of a number; Unknown where it has none.
impl From<u32> for PayloadProtocolIdentifier {
    ghost from_gives = { λ v name. name ≡ identifier_name v };

    #[tactic(auto, unfolding(crate::specs::Identifier::identifier_name))]
    fn from(v: u32) -> PayloadProtocolIdentifier {
        match v {
            50 => Self::Dcep,
            51 => Self::String,
            53 => Self::Binary,
            56 => Self::StringEmpty,
            57 => Self::BinaryEmpty,
            _ => Self::Unknown,
        }
    }
}

// The number of a name; 58 for Unknown.
impl From<PayloadProtocolIdentifier> for u32 {
    ghost from_gives = { λ name v. v ≡ identifier_number name };

    fn from(name: PayloadProtocolIdentifier) -> u32 {
        match name {
            PayloadProtocolIdentifier::Dcep => 50,
            PayloadProtocolIdentifier::String => 51,
            PayloadProtocolIdentifier::Binary => 53,
            PayloadProtocolIdentifier::StringEmpty => 56,
            PayloadProtocolIdentifier::BinaryEmpty => 57,
            PayloadProtocolIdentifier::Unknown => 58,
        }
    }
}
