//! IP addresses as texts.
ghost use Rattle.std.specs.Prelude.{◌≡◌};
ghost use Rattle.std.specs.Option.{option_map};
ghost use Rattle.std.specs.Net.Addr.{octets_of};
ghost use Rattle.ii_term_text.specs.Addresses.{address_in, segments_in};

use std::net::{Ipv4Addr, Ipv6Addr};

/// Parses an IP address as a 128-bit number; an IPv4 address as its mapped IPv6 address `::ffff:a.b.c.d`.
#[tactic(auto, unfolding(crate::specs::Addresses::address_in))]
pub fn address_of(text: &str) -> Option<u128>
    ensures { result ≡ address_in text.now }
{
    match octets_in(text) {
        Some(octets) => Some(u128::from_be_bytes(octets)),
        None => None,
    }
}

// Parses an IP address as 16 bytes, big-endian; an IPv4 address as its mapped IPv6 address.
fn octets_in(text: &str) -> Option<[u8; 16]>
    ensures { result ≡ option_map octets_of (segments_in text.now) }
{
    match Ipv4Addr::parse_ascii(text.as_bytes()) {
        Ok(address) => Some(address.to_ipv6_mapped().octets()),
        Err(_) => match Ipv6Addr::parse_ascii(text.as_bytes()) {
            Ok(address) => Some(address.octets()),
            Err(_) => None,
        },
    }
}
