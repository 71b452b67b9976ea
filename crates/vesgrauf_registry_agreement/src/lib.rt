//! The tables of `vesgrauf_registry` agree with the definitions that the other crates have of the
//! same numbers. There is no product code here: the contract of each function is the fact.
#![tactic(auto)]

ghost use Rattle.std.specs.Prelude.{◌≡◌, ℕ, false, option_map};
ghost use Rattle.vesgrauf_registry.specs.Capsules.{capsule_of};
ghost use Rattle.vesgrauf_registry.specs.Frames.{columns_of, kind_of};
ghost use Rattle.vesgrauf_registry.specs.Settings.{is_http2_by, setting_columns, setting_of};
ghost use Rattle.vesgrauf_registry.specs.Streams.{stream_of};
ghost use Rattle.vesgrauf_registry_agreement.specs.Views.{frame_type_of, frame_kind_of, stream_kind_by, setting_name_by, capsule_kind_by, longest_by};
ghost use Rattle.vesgrauf_registry_agreement.specs.Rules.{action_by};
ghost use Rattle.wtp_frames.specs.FrameType.{type_of};
ghost use Rattle.wtp_frames.specs.Rules.{action_of};
ghost use Rattle.wtp_frames.specs.declared.endpoint.Endpoint.{Endpoint};
ghost use Rattle.wtp_frames.specs.declared.reader.Place.{Place};
ghost use Rattle.wtp_wire.specs.Capsule.{capsule_kind_of, max_value_len};
ghost use Rattle.wtp_wire.specs.Kind.{is_exercise, registered_kind};
ghost use Rattle.wtp_wire.specs.SettingId.{is_reserved, setting_id_of, setting_name_of};
ghost use Rattle.wtp_wire.specs.StreamKind.{stream_kind_of};

pub mod connections;

/// Frame types: `wtp_frames` chooses the rules of a frame by the kind of its row, and these rules
/// follow from the columns of the row; `wtp_wire` names the same types.
pub fn frame_types_agree()
    ensures kind { (n : ℕ) → type_of n ≡ frame_type_of (kind_of n) }
    ensures rules { (e : Endpoint) (place : Place) (idle n len : ℕ)
        → action_of e place idle (type_of n) len ≡ action_by e place idle (columns_of n) len }
    ensures wire { (n : ℕ) → registered_kind n ≡ frame_kind_of (kind_of n) }
{}

/// Types of unidirectional streams: `wtp_wire` names the types that are no push streams.
pub fn stream_types_agree()
    ensures { (n : ℕ) → is_exercise n ≡ false → stream_kind_of n ≡ stream_kind_by (stream_of n) }
{}

/// Settings: `wtp_wire` has the same identifiers of HTTP/2, and the same names.
pub fn settings_agree()
    ensures http2 { (n : ℕ) → is_reserved n ≡ is_http2_by (setting_columns n) }
    ensures name { (n : ℕ) → is_exercise n ≡ false
        → option_map (λ s. setting_name_of s) (setting_id_of n) ≡ setting_name_by (setting_of n) }
{}

/// Capsule types: `wtp_wire` names the capsule that closes a session, and has the same longest
/// value.
pub fn capsule_types_agree()
    ensures kind { (n : ℕ) → capsule_kind_of n ≡ capsule_kind_by (capsule_of n) }
    ensures longest { (n : ℕ) → option_map (λ k. max_value_len k) (capsule_kind_of n)
        ≡ longest_by (capsule_of n) }
{}
