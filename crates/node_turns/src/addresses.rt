//! The slot of an address, which has its queues.
ghost use Rattle.std.specs.Prelude.{◌≡◌, ◌<◌};
ghost use Rattle.std.specs.Net.Addr.{ipv6_segments};
ghost use Rattle.node_turns.specs.Addresses.{front_bits, network_of, slot_limit, IsSlotOf};

use std::net::{IpAddr, Ipv6Addr};

/// The number of slots.
pub const SLOTS: usize = 4_093;

// Returns the value of the first four segments.
fn front_bits(addr: Ipv6Addr) -> u64
    ensures { result ≡ front_bits (ipv6_segments addr) }
{
    let [a, b, c, d, _, _, _, _] = addr.segments();
    ((u64::from(a) * 65_536 + u64::from(b)) * 65_536 + u64::from(c)) * 65_536 + u64::from(d)
}

// Returns what counts as one client: an address of IPv4, and the first half of one of IPv6, since a subscriber has the
// other (RFC 6177).
fn network_of(addr: IpAddr) -> u64
    ensures { result ≡ network_of addr }
{
    match addr {
        IpAddr::V4(addr) => u64::from(addr.to_bits()),
        IpAddr::V6(addr) => front_bits(addr),
    }
}

/// Returns the slot of an address: that of its network. Two networks may share a slot, as keys of a hash table do.
pub fn slot_of(addr: IpAddr) -> usize
    ensures slot { IsSlotOf addr result }
    ensures below { result < slot_limit }
{
    (network_of(addr.to_canonical()) % 4_093) as usize
}
