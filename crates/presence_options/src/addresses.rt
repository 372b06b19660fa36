//! Addresses of machines as they are given.
ghost use Rattle.std.specs.Prelude.{◌≡◌, ◌≤◌, IfOk, IfErr, OnOk, MatchOption, length, map, string_bytes, vec_len};
ghost use Rattle.presence_options.specs.Given.{AreFewAddresses, HasCause, IsAddressText, IsFor, WriteAddresses, WritesAddress};

use crate::fault::{UsageCause, UsageFault};
use crate::values::usage_of;
use std::alloc::Global;
use std::net::IpAddr;

/// Which addresses are given: those of what, by which option, and how many there may be.
#[derive(Clone, Copy)]
pub(crate) struct AddressRule<'a> {
    pub cause: UsageCause,
    pub option: &'a str,
    pub most: usize,
}

/// The text of an address.
pub(crate) fn listen_of(alloc: Global, text: &str) -> Result<String, UsageFault>
    ensures text { IfOk result (λ address. string_bytes address ≡ text.now) }
    ensures cause { IfErr result (λ fault. fault ≡ UsageFault.Memory) }
{
    match String::from_str(alloc, text) {
        Ok(address) => Ok(address),
        Err(_) => Err(UsageFault::Memory),
    }
}

// The address that a text writes, if it writes one.
fn address_in(text: &str) -> Option<IpAddr>
    ensures { MatchOption result (IsAddressText text.now → ⊥) (WritesAddress text.now) }
{
    match text.parse::<IpAddr>() {
        Ok(written) => Some(written.to_canonical()),
        Err(_) => None,
    }
}

// The address that a text writes, or what is wrong with it.
fn address_of(alloc: Global, text: &str, rule: AddressRule<'_>) -> Result<IpAddr, UsageFault>
    ensures address { IfOk result (WritesAddress text.now) }
    ensures text { OnOk result (IsAddressText text.now) }
    ensures cause { IfErr result (IsFor rule.entry.cause (IsAddressText text.now → ⊥)) }
{
    let option = rule.option;
    match address_in(text) {
        Some(address) => Ok(address),
        None => Err(usage_of(
            rule.cause,
            format!(in alloc;
                "--{option} '{text}': an address of IPv4 or IPv6 is wanted, as 10.0.0.5 or fd00::5"
            ),
        )),
    }
}

// There are more addresses than may be.
fn too_many(alloc: Global, rule: AddressRule<'_>) -> UsageFault
    ensures { HasCause rule.entry.cause result }
{
    let option = rule.option;
    let most = rule.most;
    usage_of(
        rule.cause,
        format!(in alloc; "--{option}: up to {most} addresses may be given"),
    )
}

/// The addresses that these texts write, in their order.
#[tactic(auto, using(crate::proofs::Written::addresses_more, crate::proofs::Written::addresses_all, crate::proofs::Written::few_addresses, crate::proofs::Written::many_addresses))]
pub(crate) fn addresses_of(
    alloc: Global,
    texts: &[&str],
    rule: AddressRule<'_>,
) -> Result<Vec<IpAddr>, UsageFault>
    ensures addresses { IfOk result (λ all. WriteAddresses (map (λ t. t.now) texts.now) all.items) }
    ensures few { IfOk result (λ all. vec_len all ≤ rule.entry.most) }
    ensures given { OnOk result (AreFewAddresses rule.entry.most (map (λ t. t.now) texts.now)) }
    ensures cause { IfErr result (IsFor rule.entry.cause
        (AreFewAddresses rule.entry.most (map (λ t. t.now) texts.now) → ⊥)) }
{
    if texts.len() > rule.most {
        return Err(too_many(alloc, rule));
    }
    let mut addresses = Vec::new(alloc);
    for text in texts {
        let address = match address_of(alloc, text, rule) {
            Ok(address) => address,
            Err(fault) => return Err(fault),
        };
        if addresses.push(address).is_err() {
            return Err(UsageFault::Memory);
        }
    }
    Ok(addresses)
}
