//! An address that no event has in a field of addresses.

use sig_base::Place;
use sig_encode::Network;
use std::test::Fail;

const PLACE: Place = Place {
    line: 6,
    column: 14,
};

#[test]
fn octets_have_no_zero_in_front(rt: HostRuntime) -> Result<(), Fail> {
    let network = Network::read("192.168.0.0/14", PLACE)?;
    assert!(rt; !network.holds("192.169.01.2"));
    Ok(())
}
