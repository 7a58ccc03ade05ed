//! The patterns of a network's addresses.

ghost use Rattle.std.specs.Prelude.{◌≡◌, ◌++◌, ◌<◌, ◌≤◌, ◌+◌, ◌-◌, ◌*◌, ◌/◌, ◌^◌, map, IfOk, IfErr, OnOk};
ghost use Rattle.std.specs.Fmt.{decimal};
ghost use Rattle.std.specs.Str.{chars};
ghost use Rattle.sig_encode.specs.Networks.{counted, front_text, front_pattern, pattern_count, patterns_of, told_octets};

use crate::network::Network;
use itoa::Buffer;
use sig_base::Fault;
use sig_strings::{Part, Pattern};
use std::alloc::Global;

fn put_chars(parts: &mut Vec<Part>, text: &str) -> Result<(), Fault>
    ensures ok { OnOk result (parts.new.items ≡ parts.old.items ++ map Part.Char (chars text.now)) }
    ensures err { IfErr result (λ e. e ≡ Fault.Memory) }
{
    for c in text.chars() {
        parts.push(Part::Char(c))?;
    }
    Ok(())
}

fn put_octet(parts: &mut Vec<Part>, octet: u64) -> Result<(), Fault>
    ensures ok { OnOk result (parts.new.items ≡ parts.old.items ++ map Part.Char (decimal octet)) }
    ensures err { IfErr result (λ e. e ≡ Fault.Memory) }
{
    let mut buffer = Buffer::new();
    put_chars(parts, buffer.format(octet))
}

fn put_front(parts: &mut Vec<Part>, octets: u8, number: u64) -> Result<(), Fault>
    ensures ok { OnOk result (parts.new.items ≡ parts.old.items ++ map Part.Char (front_text octets number)) }
    ensures err { IfErr result (λ e. e ≡ Fault.Memory) }
{
    if octets == 0 {
        return Ok(());
    }
    if octets == 1 {
        return put_octet(parts, number);
    }
    put_front(parts, octets - 1, number / 256)?;
    parts.push(Part::Char('.'))?;
    put_octet(parts, number % 256)
}

fn front(alloc: Global, octets: u8, number: u64) -> Result<Pattern, Fault>
    ensures ok { IfOk result (λ pattern. pattern ≡ front_pattern octets number) }
    ensures err { IfErr result (λ e. e ≡ Fault.Memory) }
{
    let mut parts = Vec::new(alloc);
    put_front(&mut parts, octets, number)?;
    if octets < 4 {
        parts.push(Part::Char('.'))?;
        parts.push(Part::Run)?;
    }
    Ok(Pattern::of_parts(parts))
}

/// How many octets a network's patterns tell.
fn octets_told(prefix: u8) -> u8
    requires { prefix ≤ 32 }
    ensures { result ≡ told_octets prefix }
{
    ((prefix + 7) / 8).max(1)
}

fn fronts(alloc: Global, octets: u8, start: u64, count: u64) -> Result<Vec<Pattern>, Fault>
    requires { start + count < 2 ^ 64 }
    ensures ok { IfOk result (λ all. all.items ≡ map (front_pattern octets) (counted start count)) }
    ensures err { IfErr result (λ e. e ≡ Fault.Memory) }
{
    let mut all = Vec::new(alloc);
    for k in 0..count {
        all.push(front(alloc, octets, start + k)?)?;
    }
    Ok(all)
}

impl Network {
    /// How many patterns fit the network's addresses: at most 256.
    pub fn pattern_count(&self) -> u64
        ensures { result ≡ pattern_count self.now }
    {
        1u64 << (8 * octets_told(self.prefix()) - self.prefix())
    }

    /// The patterns that fit the network's addresses: those of its first octets, in ascending order.
    pub fn patterns(&self, alloc: Global) -> Result<Vec<Pattern>, Fault>
        ensures ok { IfOk result (λ all. all.items ≡ patterns_of self.now) }
        ensures err { IfErr result (λ e. e ≡ Fault.Memory) }
    {
        let octets = octets_told(self.prefix());
        let count = self.pattern_count();
        let start = u64::from(self.first()) * count;
        fronts(alloc, octets, start, count)
    }
}
