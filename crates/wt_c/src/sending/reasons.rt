//! Why something is not sent, by number and by name.
ghost use Rattle.std.specs.Prelude.{◌≡◌, ◌≢◌, ◌⊎◌, MatchOption};
ghost use Rattle.wtp_messages.specs.declared.malformed.Malformed.{Malformed};
ghost use Rattle.wtp_sending.specs.declared.error.SendError.{SendError};
ghost use Rattle.wt_c.specs.ConnectionEvents.{rule_number};
ghost use Rattle.wt_c.specs.Output.{WritesPrefix, TooShort};
ghost use Rattle.wt_c.specs.Sending.{reason_number, reason_name, rule_name, IsReasonNumber};

use crate::connections::events::rule_of;
use crate::output::write_bytes;
use crate::status::{BUFFER_TOO_SMALL, INVALID, MEMORY, OK, REFUSED};
use wtp_messages::malformed::Malformed;
use wtp_sending::error::SendError;

/// This may not be sent now.
pub const UNEXPECTED: u32 = 64;

/// Bytes of the last DATA frame are still to be sent.
pub const DATA_MISSING: u32 = 65;

/// There are more bytes than the DATA frame has left.
pub const DATA_EXCEEDED: u32 = 66;

/// A DATA frame would have no bytes.
pub const EMPTY_DATA: u32 = 67;

/// It is larger than the peer accepts, or than a frame can be.
pub const TOO_LARGE: u32 = 68;

/// There were 64 interim responses.
pub const TOO_MANY_INTERIM: u32 = 69;

/// The ID of a GOAWAY to a client is not that of a request.
pub const INVALID_ID: u32 = 70;

/// The ID of a GOAWAY is above that of the last one.
pub const ID_RISES: u32 = 71;

/// The peer does not support what a request asks for.
pub const UNSUPPORTED: u32 = 72;

// Returns the number of a reason.
fn number_of(error: SendError) -> u32
    ensures { result ≡ reason_number error }
{
    match error {
        SendError::Unexpected => UNEXPECTED,
        SendError::DataMissing => DATA_MISSING,
        SendError::DataExceeded => DATA_EXCEEDED,
        SendError::EmptyData => EMPTY_DATA,
        SendError::TooLarge => TOO_LARGE,
        SendError::TooManyInterim => TOO_MANY_INTERIM,
        SendError::InvalidId => INVALID_ID,
        SendError::IdRises => ID_RISES,
        SendError::Unsupported => UNSUPPORTED,
        SendError::Malformed(rule) => rule_of(rule),
        SendError::EndOfBuffer | SendError::Memory => 0,
    }
}

// Says why something is not sent.
pub(crate) fn tell(error: SendError, why: &mut u32) -> i32
    ensures answer { result ≡ REFUSED }
    ensures why { why.new ≡ reason_number error }
{
    *why = number_of(error);
    REFUSED
}

// Says why something is not sent, or that allocation failed.
pub(crate) fn refuse(error: SendError, why: &mut u32) -> i32
    ensures answers { (result ≡ REFUSED) ⊎ (result ≡ MEMORY) }
    ensures why { result ≡ REFUSED → (error ≢ SendError.Memory)
        × (why.new ≡ reason_number error) }
    ensures memory { result ≡ MEMORY → (error ≡ SendError.Memory) × (why.new ≡ why.old) }
{
    match error {
        SendError::Memory => MEMORY,
        other => tell(other, why),
    }
}

// Returns the rule of a number.
fn rule_at(number: u32) -> Option<Malformed>
    ensures { MatchOption result ((rule : Malformed) → ¬ (number ≡ rule_number rule))
        (λ rule. number ≡ rule_number rule) }
{
    Some(match number {
        1 => Malformed::InvalidName,
        2 => Malformed::InvalidValue,
        3 => Malformed::ConnectionField,
        4 => Malformed::InvalidTe,
        5 => Malformed::UnknownPseudoHeader,
        6 => Malformed::LatePseudoHeader,
        7 => Malformed::RepeatedPseudoHeader,
        8 => Malformed::InvalidContentLength,
        9 => Malformed::MissingMethod,
        10 => Malformed::InvalidMethod,
        11 => Malformed::MissingScheme,
        12 => Malformed::InvalidScheme,
        13 => Malformed::MissingPath,
        14 => Malformed::InvalidPath,
        15 => Malformed::MissingAuthority,
        16 => Malformed::InvalidAuthority,
        17 => Malformed::ConnectWithTarget,
        18 => Malformed::UnexpectedProtocol,
        19 => Malformed::InvalidProtocol,
        20 => Malformed::ContentField,
        21 => Malformed::MissingStatus,
        22 => Malformed::InvalidStatus,
        23 => Malformed::UnexpectedStatus,
        24 => Malformed::MissingHead,
        25 => Malformed::ContentTooLong,
        26 => Malformed::ContentTooShort,
        _ => return None,
    })
}

// Returns the reason of a number.
fn reason_at(number: u32) -> Option<SendError>
    ensures { MatchOption result ((e : SendError) → ¬ (IsReasonNumber number e))
        (λ e. IsReasonNumber number e) }
{
    match number {
        UNEXPECTED => Some(SendError::Unexpected),
        DATA_MISSING => Some(SendError::DataMissing),
        DATA_EXCEEDED => Some(SendError::DataExceeded),
        EMPTY_DATA => Some(SendError::EmptyData),
        TOO_LARGE => Some(SendError::TooLarge),
        TOO_MANY_INTERIM => Some(SendError::TooManyInterim),
        INVALID_ID => Some(SendError::InvalidId),
        ID_RISES => Some(SendError::IdRises),
        UNSUPPORTED => Some(SendError::Unsupported),
        _ => match rule_at(number) {
            Some(rule) => Some(SendError::Malformed(rule)),
            None => None,
        },
    }
}

// Returns the name of a rule.
fn rule_text(rule: Malformed) -> &'static str
    ensures { result.now ≡ rule_name rule }
{
    match rule {
        Malformed::InvalidName => "InvalidName",
        Malformed::InvalidValue => "InvalidValue",
        Malformed::ConnectionField => "ConnectionField",
        Malformed::InvalidTe => "InvalidTe",
        Malformed::UnknownPseudoHeader => "UnknownPseudoHeader",
        Malformed::LatePseudoHeader => "LatePseudoHeader",
        Malformed::RepeatedPseudoHeader => "RepeatedPseudoHeader",
        Malformed::InvalidContentLength => "InvalidContentLength",
        Malformed::MissingMethod => "MissingMethod",
        Malformed::InvalidMethod => "InvalidMethod",
        Malformed::MissingScheme => "MissingScheme",
        Malformed::InvalidScheme => "InvalidScheme",
        Malformed::MissingPath => "MissingPath",
        Malformed::InvalidPath => "InvalidPath",
        Malformed::MissingAuthority => "MissingAuthority",
        Malformed::InvalidAuthority => "InvalidAuthority",
        Malformed::ConnectWithTarget => "ConnectWithTarget",
        Malformed::UnexpectedProtocol => "UnexpectedProtocol",
        Malformed::InvalidProtocol => "InvalidProtocol",
        Malformed::ContentField => "ContentField",
        Malformed::MissingStatus => "MissingStatus",
        Malformed::InvalidStatus => "InvalidStatus",
        Malformed::UnexpectedStatus => "UnexpectedStatus",
        Malformed::MissingHead => "MissingHead",
        Malformed::ContentTooLong => "ContentTooLong",
        Malformed::ContentTooShort => "ContentTooShort",
    }
}

// Returns the name of a reason.
fn reason_text(error: SendError) -> &'static str
    ensures { result.now ≡ reason_name error }
{
    match error {
        SendError::Unexpected => "Unexpected",
        SendError::DataMissing => "DataMissing",
        SendError::DataExceeded => "DataExceeded",
        SendError::EmptyData => "EmptyData",
        SendError::TooLarge => "TooLarge",
        SendError::TooManyInterim => "TooManyInterim",
        SendError::InvalidId => "InvalidId",
        SendError::IdRises => "IdRises",
        SendError::Unsupported => "Unsupported",
        SendError::Malformed(rule) => rule_text(rule),
        SendError::EndOfBuffer => "EndOfBuffer",
        SendError::Memory => "Memory",
    }
}

/// Writes the name of a reason to the start of `out`, in ASCII and without a final zero: `DataMissing`
/// and its like, or the rule that a message breaks, as `MissingPath`.
///
/// Returns `OK` with the size of the name in `used`. Returns `BUFFER_TOO_SMALL` if `out` is shorter
/// than that size, which `used` then is; `out` does not change. Returns `INVALID` if no reason has
/// this number; then nothing changes.
#[unsafe(no_mangle)]
pub extern "C" fn wt_send_reason_name(why: u32, out: &mut [u8], used: &mut usize) -> i32
    ensures answers { (result ≡ OK) ⊎ ((result ≡ BUFFER_TOO_SMALL) ⊎ (result ≡ INVALID)) }
    ensures name { result ≡ OK → (e : SendError) × IsReasonNumber why e
        × WritesPrefix (reason_name e) out.old out.new used.new }
    ensures room { result ≡ BUFFER_TOO_SMALL → (e : SendError) × IsReasonNumber why e
        × TooShort (reason_name e) out.old out.new used.new }
    ensures invalid { result ≡ INVALID → ((e : SendError) → ¬ (IsReasonNumber why e))
        × (out.new ≡ out.old) × (used.new ≡ used.old) }
{
    match reason_at(why) {
        Some(found) => write_bytes(reason_text(found).as_bytes(), out, used),
        None => INVALID,
    }
}

// The numbers in c/include/wtransport_sending.h.
const _: () = prove!(UNEXPECTED == 64);

const _: () = prove!(DATA_MISSING == 65);

const _: () = prove!(DATA_EXCEEDED == 66);

const _: () = prove!(EMPTY_DATA == 67);

const _: () = prove!(TOO_LARGE == 68);

const _: () = prove!(TOO_MANY_INTERIM == 69);

const _: () = prove!(INVALID_ID == 70);

const _: () = prove!(ID_RISES == 71);

const _: () = prove!(UNSUPPORTED == 72);
