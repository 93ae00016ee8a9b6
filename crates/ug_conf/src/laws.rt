// What a text of settings means.
ghost use Rattle.std.specs.Prelude.{◌≡◌, ◌↔◌, ◌⊎◌, ℕ, List, [], ◌∷◌, ◌++◌, Some, Ok, codes, false, true};
ghost use Rattle.ug_types.specs.Elements.{Has};
ghost use Rattle.ug_types.specs.declared.text_fault.TextFault.{TextFault};
ghost use Rattle.ug_conf.specs.Draft.{Draft, draft_of, setting_line_read, with_setting};
ghost use Rattle.ug_types.specs.TextFaults.{fault_of_kind};
ghost use Rattle.ug_lines.specs.Entries.{IsSkippedLine};
ghost use Rattle.ug_conf.specs.FolderFiles.{IsRuleFileName, is_rule_file_name};
ghost use Rattle.ug_conf.specs.Grammar.{IsSettingsLine, IsSetting, IsBadSetting};
ghost use Rattle.ug_types.specs.declared.parameter.Inserted.TheVariants as inserted;
ghost use Rattle.ug_types.specs.declared.verdict.Target.TheVariants as target;
ghost use Rattle.ug_conf.specs.declared.settings.AuthDefault.TheVariants as auth_default;
ghost use Rattle.ug_conf.specs.declared.settings.Present.TheVariants as present;
ghost use Rattle.ug_conf.specs.Settings.{defaults};
ghost use Rattle.ug_conf.specs.Values.{default_of, flag_of, present_of};
ghost use Rattle.ug_conf.specs.Meaning.{GivesSettings, IsFirstBadSetting};
ghost use Rattle.ug_conf.specs.Texts.{conf_read};

use crate::fault::FaultKind;
use crate::keys::Key;
use crate::settings::Settings;
use crate::values::Setting;

/// A line is skipped, sets a key for the first time, or is bad, and is read so.
pub fn lines_law()
    ensures each { (seen : List Key) (line : List ℕ) → IsSettingsLine seen line }
    ensures skipped { (number : ℕ) (draft : Draft) (line : List ℕ) → IsSkippedLine line
        → setting_line_read number draft line ≡ Ok draft }
    ensures sets { (number : ℕ) (draft : Draft) (line : List ℕ) (key : Key) (set : Setting)
        → IsSetting line key set → ¬ Has draft.seen key → setting_line_read number draft line
        ≡ Ok (draft_of (with_setting number set draft.settings) (draft.seen ++ key ∷ [])) }
    ensures bad { (number : ℕ) (draft : Draft) (line : List ℕ) (kind : FaultKind) (place : ℕ)
        → IsBadSetting draft.seen line kind place
        → setting_line_read number draft line ≡ Err (fault_of_kind kind place) }
{}

/// A text reads as settings exactly where its lines give them, and has a fault exactly where that is its first bad line.
pub fn reading_is_grammar()
    ensures good { (text : List ℕ) (settings : Settings) → (conf_read text ≡ Ok settings)
        ↔ GivesSettings text settings }
    ensures bad { (text : List ℕ) (fault : TextFault) → (conf_read text ≡ Err fault)
        ↔ IsFirstBadSetting text fault }
{}

/// A text gives one value of all settings, or has one first bad line, and never both.
pub fn one_meaning()
    ensures some { (text : List ℕ) → ((settings : Settings) × GivesSettings text settings)
        ⊎ ((fault : TextFault) × IsFirstBadSetting text fault) }
    ensures one_settings { (text : List ℕ) (a b : Settings) → GivesSettings text a
        → GivesSettings text b → a ≡ b }
    ensures one_fault { (text : List ℕ) (a b : TextFault) → IsFirstBadSetting text a
        → IsFirstBadSetting text b → a ≡ b }
    ensures not_both { (text : List ℕ) (settings : Settings) (fault : TextFault)
        → GivesSettings text settings → IsFirstBadSetting text fault → ⊥ }
{}

/// Each key sets its own setting, or is noted, and the others keep their defaults.
pub fn key_words_law()
    ensures rule_file { conf_read (codes "RuleFile=/etc/a")
        ≡ Ok (record defaults { rule_file = codes "/etc/a" }) }
    ensures rule_folder { conf_read (codes "RuleFolder=/etc/a")
        ≡ Ok (record defaults { rule_folder = codes "/etc/a" }) }
    ensures implicit { conf_read (codes "ImplicitPolicyTarget=allow")
        ≡ Ok (record defaults { implicit = target.Allow }) }
    ensures present_device { conf_read (codes "PresentDevicePolicy=allow")
        ≡ Ok (record defaults { present_device = present.Allow }) }
    ensures present_controller { conf_read (codes "PresentControllerPolicy=allow")
        ≡ Ok (record defaults { present_controller = present.Allow }) }
    ensures inserted { conf_read (codes "InsertedDevicePolicy=block")
        ≡ Ok (record defaults { inserted = inserted.Block }) }
    ensures default { conf_read (codes "AuthorizedDefault=none")
        ≡ Ok (record defaults { default = auth_default.None }) }
    ensures users { conf_read (codes "IPCAllowedUsers=joe")
        ≡ Ok (record defaults { users = record { group = false; name = codes "joe" } ∷ [] }) }
    ensures groups { conf_read (codes "IPCAllowedGroups=joe")
        ≡ Ok (record defaults { users = record { group = true; name = codes "joe" } ∷ [] }) }
    ensures access_folder { conf_read (codes "IPCAccessControlFiles=/etc/a")
        ≡ Ok (record defaults { access_folder = codes "/etc/a" }) }
    ensures with_port { conf_read (codes "DeviceRulesWithPort=true")
        ≡ Ok (record defaults { with_port = true }) }
    ensures restore { conf_read (codes "RestoreControllerDeviceState=true")
        ≡ Ok (record defaults { unused = 1 ∷ [] }) }
    ensures backend { conf_read (codes "DeviceManagerBackend=uevent")
        ≡ Ok (record defaults { unused = 1 ∷ [] }) }
    ensures audit { conf_read (codes "AuditBackend=FileAudit")
        ≡ Ok (record defaults { unused = 1 ∷ [] }) }
    ensures audit_file { conf_read (codes "AuditFilePath=/var/a")
        ≡ Ok (record defaults { unused = 1 ∷ [] }) }
    ensures hide { conf_read (codes "HidePII=true")
        ≡ Ok (record defaults { unused = 1 ∷ [] }) }
{}

/// Each value has one word.
pub fn value_words_law()
    ensures allowed { present_of (codes "allow") ≡ Some present.Allow }
    ensures blocked { present_of (codes "block") ≡ Some present.Block }
    ensures rejected { present_of (codes "reject") ≡ Some present.Reject }
    ensures kept { present_of (codes "keep") ≡ Some present.Keep }
    ensures by_rules { present_of (codes "apply-policy") ≡ Some present.Apply }

    ensures as_it_is { default_of (codes "keep") ≡ Some auth_default.Keep }
    ensures off { default_of (codes "none") ≡ Some auth_default.None }
    ensures on { default_of (codes "all") ≡ Some auth_default.All }
    ensures built_in { default_of (codes "internal") ≡ Some auth_default.Internal }

    ensures yes { flag_of (codes "true") ≡ Some true }
    ensures no { flag_of (codes "false") ≡ Some false }
{}

/// A folder's file counts by its name alone: at most 255 letters, digits, `_`, `-` and `.`, of which the last five are `.conf`.
pub fn file_names_law()
    ensures counts { (name : List ℕ) → (is_rule_file_name name ≡ true) ↔ IsRuleFileName name }
    ensures plain { is_rule_file_name (codes "10-a.conf") ≡ true }
    ensures hidden { is_rule_file_name (codes ".10.conf") ≡ true }
    ensures backup { is_rule_file_name (codes "10-a.conf~") ≡ false }
    ensures old { is_rule_file_name (codes "10-a.conf.bak") ≡ false }
    ensures spaced { is_rule_file_name (codes "10 a.conf") ≡ false }
{}
