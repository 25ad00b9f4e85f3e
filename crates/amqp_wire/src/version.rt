//! Versions of the protocol, as protocol headers name them (AMQP 0-9-1, section 4.2.2).

ghost use Rattle.std.specs.Prelude.{◌≡◌, ◌≢◌, ◌∷◌, [], ℕ, Some, Ok, Err, IfErr};
ghost use Rattle.amqp_types.specs.Answers.{AnswersWhole};
ghost use Rattle.amqp_wire.specs.declared.frame_type.AMQPFrameType.TheVariants as kinds;
ghost use Rattle.amqp_wire.specs.Display.{version_text};
ghost use Rattle.amqp_wire.specs.Frames.{Proto};
ghost use Rattle.amqp_wire.specs.Verdicts.{IsPayloadError, decode_payload};

use amqp_types::{ParserError, ShortShortUInt};
use std::fmt;

/// The version that a protocol header names.
#[derive(Clone, Copy, Debug, PartialEq, Eq)]
pub struct ProtocolVersion {
    /// The first number, 0 in version 0.9.1.
    pub major: ShortShortUInt,

    /// The second number, 9 in version 0.9.1.
    pub minor: ShortShortUInt,

    /// The third number, 1 in version 0.9.1.
    pub revision: ShortShortUInt,
}

impl ProtocolVersion {
    /// Version 0.9.1, which these crates are about.
    pub fn amqp_0_9_1() -> Self
        ensures { result ≡ record { major = 0; minor = 9; revision = 1 } }
    {
        ProtocolVersion {
            major: 0,
            minor: 9,
            revision: 1,
        }
    }

    /// The version that the payload of a protocol header is, which has 3 bytes. Fewer are `ShortPayload`, and more
    /// `TrailingBytes`.
    #[tactic(auto, unfolding(crate::specs::Verdicts::decode_payload))]
    pub fn from_payload(payload: &[u8]) -> Result<Self, ParserError>
        ensures whole { (channel : ℕ)
            → AnswersWhole (λ version. Proto version.major version.minor version.revision) result
            (decode_payload kinds.ProtocolHeader channel payload.now) }
        ensures found { (major minor revision : ℕ) → payload.now ≡ major ∷ minor ∷ revision ∷ []
            → result ≡ Ok (record { major = major; minor = minor; revision = revision }) }
        ensures inside { IfErr result IsPayloadError }
        ensures memory { result ≢ Err ParserError.NoMemory }
    {
        match payload {
            [major, minor, revision] => Ok(ProtocolVersion {
                major: *major,
                minor: *minor,
                revision: *revision,
            }),
            [_, _, _, _, ..] => Err(ParserError::TrailingBytes),
            _ => Err(ParserError::ShortPayload),
        }
    }
}

impl fmt::Display for ProtocolVersion {
    ghost output = { λ version. Some (version_text version) };

    fn fmt<W: fmt::Write>(&self, f: &mut fmt::Formatter<W>) -> fmt::Result {
        let major = self.major;
        let minor = self.minor;
        let revision = self.revision;
        write!(f, "{major}.{minor}.{revision}")
    }
}
