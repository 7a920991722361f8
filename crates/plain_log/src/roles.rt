//! What a role says.

ghost use Rattle.std.specs.Prelude.{◌≡◌};
ghost use Rattle.plain_log.specs.State.{leads, leads_in, leading, followed, joined, acking, epoch_in, same_role};

use crate::state::Role;

/// Whether the broker leads some epoch.
pub fn is_leader(role: Role) -> bool
    ensures { result ≡ leads role }
{
    matches!(role, Role::Leads(_))
}

/// Whether the broker leads this epoch.
pub fn is_leader_in(epoch: u32, role: Role) -> bool
    ensures { result ≡ leads_in epoch role }
{
    match role {
        Role::Leads(e) => e == epoch,
        _ => false,
    }
}

/// The epoch that the broker leads.
pub fn leading_in(role: Role) -> Option<u32>
    ensures { result ≡ leading role }
{
    match role {
        Role::Leads(e) => Some(e),
        _ => None,
    }
}

/// The epoch that the broker follows, whether the logs have met or not.
pub fn followed_in(role: Role) -> Option<u32>
    ensures { result ≡ followed role }
{
    match role {
        Role::Follows(e) | Role::Joined(e) => Some(e),
        _ => None,
    }
}

/// The epoch that the broker follows, where the logs have met.
pub fn joined_in(role: Role) -> Option<u32>
    ensures { result ≡ joined role }
{
    match role {
        Role::Joined(e) => Some(e),
        _ => None,
    }
}

/// The epoch in which the broker may acknowledge.
pub fn acking_in(role: Role) -> Option<u32>
    ensures { result ≡ acking role }
{
    match role {
        Role::Leads(e) | Role::Joined(e) => Some(e),
        _ => None,
    }
}

/// The epoch of a role.
pub fn epoch_of(role: Role) -> Option<u32>
    ensures { result ≡ epoch_in role }
{
    match role {
        Role::Idle => None,
        Role::Leads(e) | Role::Follows(e) | Role::Joined(e) => Some(e),
    }
}

/// Whether two roles are one.
pub fn is_role(role: Role, other: Role) -> bool
    ensures { result ≡ same_role role other }
{
    match (role, other) {
        (Role::Idle, Role::Idle) => true,
        (Role::Leads(e), Role::Leads(f)) => e == f,
        (Role::Follows(e), Role::Follows(f)) => e == f,
        (Role::Joined(e), Role::Joined(f)) => e == f,
        _ => false,
    }
}
