//! What a power cut of everything leaves.

ghost use Rattle.std.specs.Prelude.{◌≡◌, map};
ghost use Rattle.cold_state.specs.Cold.{cold_broker, cold_of};

use plain_log::{Broker, Role, State};
use std::alloc::Global;
use tier_base::Items;

/// Takes a broker down as if it had never stopped.
fn take_down(x: &mut Broker)
    ensures { x.new ≡ cold_broker x.old }
{
    x.up = false;
    x.stops = 0;
    x.role = Role::Idle;
    x.known_high_watermark = 0;
}

/// Takes all of them down.
fn take_all_down(brokers: &mut Items<Broker>)
    ensures { brokers.new ≡ map cold_broker brokers.old }
{
    for b in 0..brokers.len() {
        take_down(brokers.at_mut(b));
    }
}

/// Takes everything down, and forgets how far the actors have come.
pub(crate) fn cool(p: &mut State, alloc: Global)
    ensures { p.new ≡ cold_of p.old }
{
    take_all_down(&mut p.brokers);
    p.actors = Items::new(alloc);
}
