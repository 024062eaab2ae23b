// Of which kind a role's documents are, and which rule a root, or a list of delegations, gives a role.
ghost use Rattle.std.specs.Prelude.{◌≡◌, option_map, map, find, bytes_eq};
ghost use Rattle.keys_roles.specs.Views.{rule_view};
ghost use Rattle.document_parts.specs.RoleRules.{kind_of_role, root_rule, delegated_rule};
ghost use Rattle.document_parts.specs.Views.{root_view, delegation_view, delegations_view};

use crate::documents::{Delegation, Delegations, Kind, Root};
use keys_roles::RoleRule;

impl Kind {
    /// The kind of a role's documents: `root`, `timestamp` and `snapshot` have a kind of their own, every other role has targets
    /// metadata. It takes no memory.
    pub fn of_role(role: &str) -> Kind
        ensures { result ≡ kind_of_role role.now }
    {
        match role {
            "root" => Kind::Root,
            "timestamp" => Kind::Timestamp,
            "snapshot" => Kind::Snapshot,
            _ => Kind::Targets,
        }
    }
}

impl Root {
    /// The rule that the root gives the role (TUF 1.0, section 4.3, ROLE): it gives one to `root`, `targets`, `snapshot` and
    /// `timestamp`, and to no other. It takes no memory.
    pub fn rule(&self, role: &str) -> Option<&RoleRule>
        ensures { option_map (λ r. rule_view r.now) result ≡ root_rule (root_view self.now) role.now }
    {
        match role {
            "root" => Some(&self.root),
            "targets" => Some(&self.targets),
            "snapshot" => Some(&self.snapshot),
            "timestamp" => Some(&self.timestamp),
            _ => None,
        }
    }
}

impl Delegations {
    /// The rule by which they delegate to the role, if they do (TUF 1.0, section 4.5, DELEGATIONS): they have one delegation to a
    /// role at most. It takes no memory.
    pub fn rule(&self, role: &str) -> Option<&RoleRule>
        ensures { option_map (λ r. rule_view r.now) result ≡ delegated_rule (delegations_view self.now) role.now }
    {
        let delegation = delegation_to(&self.roles, role)?;
        Some(&delegation.rule)
    }
}

// The first delegation to the role.
fn delegation_to<'a>(delegations: &'a [Delegation], role: &str) -> Option<&'a Delegation>
    ensures { option_map (λ d. delegation_view d.now) result ≡ find (λ d. bytes_eq d.name role.now) (map delegation_view delegations.now) }
{
    let mut rest = delegations;
    'delegations: while let Some((first, later)) = rest.split_first() {
        if first.name.as_str() == role {
            return Some(first);
        }
        rest = later;
    }
    None
}
