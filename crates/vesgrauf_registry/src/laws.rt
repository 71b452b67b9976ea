//! Laws of the tables. Each function does nothing: its contract is the law.
//!
//! An entry that is found has the number and is one of the table; no two entries have the same
//! number; and no reserved number is in the table.
ghost use Rattle.std.specs.Prelude.{◌≡◌, ℕ, None, Some, IsTrue};
ghost use Rattle.vesgrauf_registry.specs.declared.capsules.Capsule.{Capsule};
ghost use Rattle.vesgrauf_registry.specs.declared.frames.Frame.{Frame};
ghost use Rattle.vesgrauf_registry.specs.declared.settings.Setting.{Setting};
ghost use Rattle.vesgrauf_registry.specs.Capsules.{capsule_of, capsules};
ghost use Rattle.vesgrauf_registry.specs.Codes.{Code, code_of, registered};
ghost use Rattle.vesgrauf_registry.specs.Frames.{columns_of, frame_of, frames, has_rules, is_http2 as is_http2_kind, is_http2_type, is_read, kind_of};
ghost use Rattle.vesgrauf_registry.specs.Numbers.{reserved, reserved_capsule};
ghost use Rattle.vesgrauf_registry.specs.Settings.{is_http2_by, is_http2_setting, setting_columns, setting_of, settings};
ghost use Rattle.vesgrauf_registry.specs.Streams.{UniStream, stream_of, streams};
ghost use Rattle.vesgrauf_registry.specs.Table.{Entry, IsEntry, are_distinct};

/// Frame types. Exactly the four types of HTTP/2 have no counterpart in HTTP/3 (RFC 9114, section
/// 11.2.1), and the payloads that are read are those of frames with rules.
pub fn frame_types_are_registered()
    ensures found { (n : ℕ) (e : Entry Frame) → frame_of n ≡ Some e
        → (n ≡ e.number) × IsEntry e frames }
    ensures one { IsTrue (are_distinct frames) }
    ensures none_reserved { (n : ℕ) → frame_of (reserved n) ≡ None }
    ensures http2 { (n : ℕ) → is_http2_kind (kind_of n) ≡ is_http2_type n }
    ensures read { (n : ℕ) (f : Frame) → columns_of n ≡ Some f
        → is_read f.form ≡ has_rules f.kind }
{}

/// Types of unidirectional streams.
pub fn stream_types_are_registered()
    ensures found { (n : ℕ) (e : Entry UniStream) → stream_of n ≡ Some e
        → (n ≡ e.number) × IsEntry e streams }
    ensures one { IsTrue (are_distinct streams) }
    ensures none_reserved { (n : ℕ) → stream_of (reserved n) ≡ None }
{}

/// Settings. Exactly the five identifiers of HTTP/2 have no values (RFC 9114, section 11.2.2).
pub fn settings_are_registered()
    ensures found { (n : ℕ) (e : Entry Setting) → setting_of n ≡ Some e
        → (n ≡ e.number) × IsEntry e settings }
    ensures one { IsTrue (are_distinct settings) }
    ensures none_reserved { (n : ℕ) → setting_of (reserved n) ≡ None }
    ensures http2 { (n : ℕ) → is_http2_by (setting_columns n) ≡ is_http2_setting n }
{}

/// Capsule types.
pub fn capsule_types_are_registered()
    ensures found { (n : ℕ) (e : Entry Capsule) → capsule_of n ≡ Some e
        → (n ≡ e.number) × IsEntry e capsules }
    ensures one { IsTrue (are_distinct capsules) }
    ensures none_reserved { (n : ℕ) → capsule_of (reserved_capsule n) ≡ None }
{}

/// Error codes.
pub fn error_codes_are_registered()
    ensures found { (n : ℕ) (e : Entry Code) → code_of n ≡ Some e
        → (n ≡ e.number) × IsEntry e registered }
    ensures one { IsTrue (are_distinct registered) }
    ensures none_reserved { (n : ℕ) → code_of (reserved n) ≡ None }
{}
