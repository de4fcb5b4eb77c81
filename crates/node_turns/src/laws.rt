//! The laws of turns, stated as the contracts of functions with empty bodies.
ghost use Rattle.node_turns.specs.Served.{EachAddressIsServed, EachIsServed};

/// Each that is ready is served within as many turns as its queue has keys before it, and one more, whatever is added
/// meanwhile, unless it is removed.
pub fn each_is_served()
    ensures { EachIsServed }
{}

/// What one address queued delays the first request of another by one at most. Each that is ready is served after as
/// many others as the keys before it in the queue of its address, times the most addresses that have keys at a time,
/// and those before its own, whatever is added meanwhile, unless it is removed.
pub fn each_address_is_served()
    ensures { EachAddressIsServed }
{}
