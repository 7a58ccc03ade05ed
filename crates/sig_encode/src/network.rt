//! Networks of IPv4 addresses, and the addresses that they hold.

ghost use Rattle.std.specs.Prelude.{◌≡◌, ◌↔◌, ◌≤◌, ◌/◌, ◌-◌, ◌^◌, IsTrue};
ghost use Rattle.std.specs.Str.{chars};
ghost use Rattle.sig_encode.specs.Answers.{NumberIs, PrefixIs};
ghost use Rattle.sig_encode.specs.Networks.{InNetwork};

use itoa::Buffer;
use std::marker::Model;
use std::net::Ipv4Addr;

/// A network of IPv4 addresses. Those of its bits that are behind the prefix don't count.
#[derive(Drop, Debug)]
pub struct Network {
    bits: u32,
    prefix: u8,
    ghost few: { prefix ≤ 32 },
}

impl Model for Network {
    ghost use Rattle.sig_encode.specs.Networks.{Net};

    ghost Value = { Net };

    ghost view = { λ n. record { bits = n.bits; prefix = n.prefix } };
}

/// The number of an address's 32 bits, where the text is a canonical one.
pub(crate) fn number_in(text: &str) -> Option<u32>
    ensures { NumberIs (chars text.now) result }
{
    match text.parse::<Ipv4Addr>() {
        Ok(address) => Some(address.to_bits()),
        Err(_) => None,
    }
}

/// A canonical decimal from 0 to 32.
pub(crate) fn prefix_in(text: &str) -> Option<u8>
    ensures { PrefixIs (chars text.now) result }
{
    let Ok(prefix) = text.parse::<u8>() else {
        return None;
    };
    if prefix > 32 {
        return None;
    }
    let mut buffer = Buffer::new();
    if buffer.format(prefix) != text {
        return None;
    }
    Some(prefix)
}

impl Network {
    /// The same network; takes no memory.
    pub fn copy(&self) -> Network
        ensures { result ≡ self.now }
    {
        Network {
            bits: self.bits,
            prefix: self.prefix,
        }
    }

    /// The first bits of an address's number.
    pub(crate) fn front(&self, number: u32) -> u32
        ensures { result ≡ number / 2 ^ (32 - self.now.prefix) }
    {
        (u64::from(number) >> (32 - self.prefix)) as u32
    }

    /// The network of an address's number and of so many bits.
    pub(crate) fn of(bits: u32, prefix: u8) -> Network
        requires { prefix ≤ 32 }
        ensures bits { result.bits ≡ bits }
        ensures prefix { result.prefix ≡ prefix }
    {
        Network { bits, prefix }
    }

    /// How many bits of an address count.
    pub(crate) fn prefix(&self) -> u8
        ensures value { result ≡ self.now.prefix }
        ensures few { result ≤ 32 }
    {
        self.prefix
    }

    /// The network's own first bits.
    pub(crate) fn first(&self) -> u32
        ensures { result ≡ self.now.bits / 2 ^ (32 - self.now.prefix) }
    {
        self.front(self.bits)
    }

    /// Whether the text is an address of the network, in its canonical form; takes no memory.
    pub fn holds(&self, text: &str) -> bool
        ensures { IsTrue result ↔ InNetwork self.now (chars text.now) }
    {
        match number_in(text) {
            Some(number) => self.front(number) == self.first(),
            None => false,
        }
    }
}
