//! Laws of settings.
ghost use Rattle.std.specs.Prelude.{◌≡◌, ◌≢◌, ◌⊎◌, ℕ, List, Option, Ok, Err, Some, None};
ghost use Rattle.wtp_core.specs.declared.error.ErrorCode.{ErrorCode};
ghost use Rattle.wtp_core.specs.declared.error.ErrorCode.TheVariants.{Settings};
ghost use Rattle.wtp_wire.specs.SettingId.{IsSettingId, setting_id_of};
ghost use Rattle.wtp_wire.specs.Settings.{IsSettings, IsPayload, IsSettingsFault, AreFaultless, AreKept, value_at, with_setting, settings_in, settings_wire};
ghost use Rattle.wtp_wire.specs.SettingPairs.{HasPairs, Repeats, numbers_of, pair_items, setting_items};
ghost use Rattle.wtp_wire.specs.declared.settings.pairs.SettingPair.{SettingPair};
ghost use Rattle.wtp_wire.specs.SettingsList.{AreListed, settings_list};
ghost use Rattle.wtp_wire.specs.declared.settings.SettingId.{SettingId};

/// Computing the setting of an identifier agrees with its definition.
pub fn setting_id_is_computed()
    ensures computed { (setting : SettingId) (id : ℕ) → IsSettingId setting id
        → setting_id_of id ≡ Some setting }
    ensures defined { (setting : SettingId) (id : ℕ) → setting_id_of id ≡ Some setting
        → IsSettingId setting id }
{}

/// If a payload contains settings, or has a first error, `settings_in` computes it. So a payload
/// has at most one result.
pub fn settings_are_computed()
    ensures settings { (m : List (ℕ × ℕ)) (payload : List ℕ) → IsPayload m payload
        → settings_in payload ≡ Ok m }
    ensures fault { (code : ErrorCode) (payload : List ℕ) → IsSettingsFault code payload
        → settings_in payload ≡ Err code }
{}

/// Each payload contains valid settings or has an error.
pub fn one_reading()
    ensures { (payload : List ℕ)
        → ((m : List (ℕ × ℕ)) × IsPayload m payload)
        ⊎ ((code : ErrorCode) × IsSettingsFault code payload) }
{}

/// Written settings are read back.
pub fn written_settings_are_read()
    ensures { (m : List (ℕ × ℕ)) → IsSettings m → settings_in (settings_wire m) ≡ Ok m }
{}

/// Setting the value of one identifier does not change the values of others.
pub fn one_setting_changes()
    ensures set { (m : List (ℕ × ℕ)) (id value : ℕ)
        → value_at (with_setting m id value) id ≡ Some value }
    ensures others { (m : List (ℕ × ℕ)) (id value other : ℕ) → other ≢ id
        → value_at (with_setting m id value) other ≡ value_at m other }
{}

/// Exactly the settings that are set are listed: each once with its value, in ascending order of
/// identifiers.
pub fn settings_are_listed()
    ensures { (m : List (ℕ × ℕ)) → IsSettings m → AreListed m (settings_list m) }
{}

/// Computing the pairs of a payload and its error agrees with their definition.
pub fn setting_pairs_are_computed()
    ensures computed { (ps : List SettingPair) (fault : Option ErrorCode) (payload : List ℕ)
        → HasPairs ps fault payload → setting_items payload ≡ pair_items ps fault }
    ensures defined { (ps : List SettingPair) (fault : Option ErrorCode) (payload : List ℕ)
        → setting_items payload ≡ pair_items ps fault → HasPairs ps fault payload }
{}

/// Each payload is a list of pairs, followed by its end or by an error.
pub fn one_list_of_pairs()
    ensures { (payload : List ℕ)
        → (ps : List SettingPair) × (fault : Option ErrorCode) × HasPairs ps fault payload }
{}

/// The settings of a payload are those among its pairs, and its first error is that of its pairs.
/// The exception is a repeated identifier of a setting, which is an error of the settings only.
pub fn settings_are_among_the_pairs()
    ensures settings { (m : List (ℕ × ℕ)) (payload : List ℕ) → settings_in payload ≡ Ok m
        → (ps : List SettingPair) × HasPairs ps None payload × AreFaultless (numbers_of ps)
        × AreKept m (numbers_of ps) }
    ensures fault { (code : ErrorCode) (payload : List ℕ) → settings_in payload ≡ Err code
        → (ps : List SettingPair) × AreFaultless (numbers_of ps)
        × (HasPairs ps (Some code) payload ⊎ ((code ≡ Settings) × Repeats ps payload)) }
    ensures same_settings { (ps : List SettingPair) (m : List (ℕ × ℕ)) (payload : List ℕ)
        → HasPairs ps None payload → AreFaultless (numbers_of ps) → AreKept m (numbers_of ps)
        → settings_in payload ≡ Ok m }
    ensures same_fault { (ps : List SettingPair) (code : ErrorCode) (payload : List ℕ)
        → HasPairs ps (Some code) payload → AreFaultless (numbers_of ps)
        → settings_in payload ≡ Err code }
{}
