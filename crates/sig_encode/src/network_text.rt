//! Networks, read from their texts.

ghost use Rattle.std.specs.Prelude.{◌≡◌, IfErr};
ghost use Rattle.std.specs.Str.{chars};
ghost use Rattle.sig_encode.specs.Answers.{IsCut, NetworkIs, NetworkRead, PartedIs, WholeIs};

use crate::network::{Network, number_in, prefix_in};
use sig_base::{Code, Fault, Place, refused};

/// What stands before the first `/` and behind it.
fn cut(text: &str) -> Option<(&str, &str)>
    ensures { IsCut (chars text.now) result }
{
    text.split_once('/')
}

/// The network of an address alone.
fn whole(text: &str) -> Option<Network>
    ensures { WholeIs (chars text.now) result }
{
    let bits = number_in(text)?;
    Some(Network::of(bits, 32))
}

/// The network of an address and a prefix.
fn parted(address: &str, prefix: &str) -> Option<Network>
    ensures { PartedIs (chars address.now) (chars prefix.now) result }
{
    let bits = number_in(address)?;
    let prefix = prefix_in(prefix)?;
    Some(Network::of(bits, prefix))
}

fn network_in(text: &str) -> Option<Network>
    ensures { NetworkIs (chars text.now) result }
{
    match cut(text) {
        Some((address, prefix)) => parted(address, prefix),
        None => whole(text),
    }
}

impl Network {
    /// Reads an address alone, or with a number of bits from 0 to 32 behind a `/`. Anything else is refused 44.
    pub fn read(text: &str, place: Place) -> Result<Network, Fault>
        ensures { NetworkRead place (chars text.now) result }
    {
        match network_in(text) {
            Some(network) => Ok(network),
            None => Err(refused(Code::BAD_NETWORK, place)),
        }
    }
}
