//! Addresses that are fit for the stations of one segment.
ghost use Rattle.std.specs.Prelude.{◌≡◌, ◌==◌};
ghost use Rattle.std.specs.List.{list_any, list_all};
ghost use Rattle.pgn_ids.specs.Address.{is_one};
ghost use Rattle.segment_law.specs.Segment.{are_addresses as are_addresses_of, are_distinct as are_distinct_of};

use pgn_ids::Address;

/// How many stations a segment has at most.
const MAX_STATIONS: usize = 32;

// Whether an address is among others.
fn is_among(addresses: &[Address], address: Address) -> bool
    ensures { result ≡ list_any (λ other. address.0 == other.0) addresses.now }
{
    addresses.iter().any(|other| address.0 == other.0)
}

// Whether each of them is the address of one node.
fn are_of_nodes(addresses: &[Address]) -> bool
    ensures { result ≡ list_all (λ address. is_one address.0) addresses.now }
{
    addresses.iter().all(|address| address.is_one())
}

// Whether no address is among those behind it.
fn are_distinct(addresses: &[Address]) -> bool
    ensures { result ≡ are_distinct_of addresses.now }
{
    match addresses.split_first() {
        None => true,
        Some((first, others)) => !is_among(others, *first) && are_distinct(others),
    }
}

/// Whether addresses are 1 to 32 distinct ones, each of one node.
pub fn are_addresses(addresses: &[Address]) -> bool
    ensures { result ≡ are_addresses_of addresses.now }
{
    !addresses.is_empty()
        && addresses.len() <= MAX_STATIONS
        && are_of_nodes(addresses)
        && are_distinct(addresses)
}
