//! Laws of rules, in functions that do nothing.
ghost use Rattle.std.specs.Prelude.{◌↔◌, ℕ, List};
ghost use Rattle.keys_roles.specs.Plain.{RoleRule, Signature, Table};
ghost use Rattle.keys_roles.specs.Rules.{Meets};
ghost use Rattle.keys_roles.specs.BeforeLevels.{NamesLms, WasMet};

/// A law, which does nothing: a rule whose ids name keys of `lms-sha256` alone is met exactly where it was met before there were
/// keys of another scheme.
pub fn lms_rules_as_before()
    ensures { (rule : RoleRule) (table : Table) (signed : List ℕ) (entries : List Signature) → NamesLms rule table → Meets rule table signed entries ↔ WasMet rule table signed entries }
{}
