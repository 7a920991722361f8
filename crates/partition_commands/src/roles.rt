//! What a role says.

ghost use Rattle.std.specs.Prelude.{◌≡◌};
ghost use Rattle.plain_log.specs.State.{leading as leading_in, followed as followed_in, joined as joined_in};
ghost use Rattle.plain_log.specs.State.{acking as acking_in, epoch_in as epoch_of};

use plain_log::Role;

/// The epoch that the broker leads.
pub fn leading(role: Role) -> Option<u32>
    ensures { result ≡ leading_in role }
{
    match role {
        Role::Leads(epoch) => Some(epoch),
        _ => None,
    }
}

/// The epoch that the broker follows, whether the logs have met or not.
pub(crate) fn followed(role: Role) -> Option<u32>
    ensures { result ≡ followed_in role }
{
    match role {
        Role::Follows(epoch) => Some(epoch),
        Role::Joined(epoch) => Some(epoch),
        _ => None,
    }
}

/// The epoch that the broker follows, where the logs have met.
pub(crate) fn joined(role: Role) -> Option<u32>
    ensures { result ≡ joined_in role }
{
    match role {
        Role::Joined(epoch) => Some(epoch),
        _ => None,
    }
}

/// The epoch in which the broker may acknowledge.
pub(crate) fn acking(role: Role) -> Option<u32>
    ensures { result ≡ acking_in role }
{
    match role {
        Role::Leads(epoch) => Some(epoch),
        Role::Joined(epoch) => Some(epoch),
        _ => None,
    }
}

/// The epoch of a role.
pub(crate) fn epoch_in(role: Role) -> Option<u32>
    ensures { result ≡ epoch_of role }
{
    match role {
        Role::Idle => None,
        Role::Leads(epoch) => Some(epoch),
        Role::Follows(epoch) => Some(epoch),
        Role::Joined(epoch) => Some(epoch),
    }
}
