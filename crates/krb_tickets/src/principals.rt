//! Principals of a credential cache as names of Kerberos, and back.

ghost use Rattle.std.specs.Prelude.{◌≡◌, ◌≤◌, ◌^◌, nat_le, length, IfOk, IfSome};
ghost use Rattle.std.specs.List.{list_all};
ghost use Rattle.sspi_core.specs.declared.cause.Cause.TheVariants as causes;
ghost use Rattle.sspi_core.specs.Checks.{Answers, Gives, Holds, Takes};
ghost use Rattle.krb_der.specs.Schema.{is_ascii};
ghost use Rattle.krb_messages.specs.Layouts.{principal_name_layout};
ghost use Rattle.krb_context.specs.ServiceKeys.{all_ascii};
ghost use Rattle.krb_requests.specs.Pieces.{Fits, name_of};
ghost use Rattle.krb_tickets.specs.Principals.{unused_octets, type_octets, type_in, type_number, are_short, names_of, named, ReadsRealm, ReadsName, cache_principal};

use krb_ccache::CcachePrincipal;
use krb_der::{IntegerAsn1, Items, Name, Octets, OutOfMemory, is_ascii};
use krb_messages::PrincipalName;
use krb_replies::MAX_TOKEN_LEN;
use krb_requests::integer_of;
use sspi_core::{Cause, hold};
use std::alloc::Global;

/// The most components of a name.
const MAX_COMPONENTS: usize = 256;

/// The most bytes of a component.
const MAX_COMPONENT: usize = 65_000;

/// Fails with `Shape` if there are more than 2^24 bytes.
pub(crate) fn check_short(octets: &[u8]) -> Result<(), Cause>
    ensures step { Holds causes.Shape (nat_le (length octets.now) 16777216) result }
    ensures short { IfOk result (λ done. length octets.now ≤ 2 ^ 24) }
{
    if octets.len() <= MAX_TOKEN_LEN {
        Ok(())
    } else {
        Err(Cause::Shape)
    }
}

/// Copies a name, which is of ASCII.
fn ascii_name(alloc: Global, octets: &Octets) -> Result<Name, Cause>
    ensures { Answers (Takes causes.NotAscii (name_of octets.now)) result }
{
    match Name::new(Vec::from_slice(alloc, octets.as_slice())?) {
        Some(name) => Ok(name),
        None => Err(Cause::NotAscii),
    }
}

/// Returns a realm of a cache as a name.
#[tactic(auto, unfolding(crate::specs::Principals::ReadsRealm))]
pub(crate) fn read_realm(alloc: Global, realm: &Octets) -> Result<Name, Cause>
    ensures step { Answers (ReadsRealm realm.now) result }
    ensures short { IfOk result (λ name. length name ≤ 2 ^ 24) }
{
    check_short(realm.as_slice())?;
    ascii_name(alloc, realm)
}

fn is_short(component: &Octets) -> bool
    ensures { result ≡ nat_le (length component.now) 65000 }
{
    component.as_slice().len() <= MAX_COMPONENT
}

fn all_short(components: &[Octets]) -> bool
    ensures { result ≡ list_all (λ component. nat_le (length component) 65000) components.now }
{
    components.iter().all(|component| is_short(component))
}

fn are_short(components: &[Octets]) -> bool
    ensures { result ≡ are_short components.now }
{
    components.len() <= MAX_COMPONENTS && all_short(components)
}

/// Fails with `Shape` if there are more than 256 components, or one has more than 65,000 bytes.
fn check_components(components: &[Octets]) -> Result<(), Cause>
    ensures { Holds causes.Shape (are_short components.now) result }
{
    hold(are_short(components), Cause::Shape)
}

fn is_component(component: &Octets) -> bool
    ensures { result ≡ is_ascii component.now }
{
    is_ascii(component.as_slice())
}

fn all_ascii(components: &[Octets]) -> bool
    ensures { result ≡ all_ascii components.now }
{
    components.iter().all(|component| is_component(component))
}

fn component(alloc: Global, octets: &Octets) -> Result<Option<Name>, OutOfMemory>
    ensures { IfOk result (λ name. IfSome name (λ n. n ≡ octets.now)) }
{
    Ok(Name::new(Vec::from_slice(alloc, octets.as_slice())?))
}

/// Copies components, each of which is of ASCII.
fn copied(alloc: Global, components: &[Octets]) -> Result<Items<Name>, OutOfMemory>
    ensures { IfOk result (λ names. names ≡ components.now) }
{
    let mut names = Vec::with_capacity(alloc, components.len())?;
    for octets in components {
        let Some(name) = component(alloc, octets)? else {
            return Err(OutOfMemory);
        };
        names.push(name)?;
    }
    Ok(Items::new(names))
}

/// Copies components. Fails with `NotAscii` if one is past ASCII.
fn names_of(alloc: Global, components: &[Octets]) -> Result<Items<Name>, Cause>
    ensures { Answers (Takes causes.NotAscii (names_of components.now)) result }
{
    if !all_ascii(components) {
        return Err(Cause::NotAscii);
    }
    Ok(copied(alloc, components)?)
}

/// Returns how many bytes of a number only repeat its sign.
fn unused_octets(number: u32) -> usize
    ensures count { result ≡ unused_octets number }
    ensures few { result ≤ 3 }
{
    if number < 0x80 || 0xffff_ff80 <= number {
        3
    } else if number < 0x8000 || 0xffff_8000 <= number {
        2
    } else if number < 0x80_0000 || 0xff80_0000 <= number {
        1
    } else {
        0
    }
}

fn type_octets(alloc: Global, name_type: u32) -> Result<IntegerAsn1, OutOfMemory>
    ensures { IfOk result (λ octets. octets ≡ type_octets name_type) }
{
    let octets = name_type.to_be_bytes();
    integer_of(alloc, &octets[unused_octets(name_type)..])
}

fn named(alloc: Global, name_type: u32, name_string: Items<Name>) -> Result<PrincipalName, Cause>
    ensures { Answers (Gives (named name_type name_string)) result }
{
    Ok(PrincipalName {
        name_type: type_octets(alloc, name_type)?,
        name_string,
    })
}

/// Returns the name of a principal of a cache.
#[tactic(auto, unfolding(crate::specs::Principals::ReadsName))]
pub(crate) fn read_name(alloc: Global, principal: &CcachePrincipal) -> Result<PrincipalName, Cause>
    ensures step { Answers (ReadsName principal.now) result }
    ensures fits { IfOk result (λ name. Fits principal_name_layout (2 ^ 24) name) }
{
    let components = principal.components.as_slice();
    check_components(components)?;
    let names = names_of(alloc, components)?;
    named(alloc, principal.name_type, names)
}

/// Returns the number of a type of a name, as 32 bits in two's complement.
fn type_number(name_type: &IntegerAsn1) -> u32
    ensures { result ≡ type_number name_type.now }
{
    match name_type.value() {
        Some(number @ 0..=0xffff_ffff) => number as u32,
        Some(number @ -0x8000_0000..=-1) => (number + 0x1_0000_0000) as u32,
        _ => 0,
    }
}

fn octets_of(alloc: Global, names: &[Name]) -> Result<Items<Octets>, OutOfMemory>
    ensures { IfOk result (λ components. components ≡ names.now) }
{
    let mut components = Vec::with_capacity(alloc, names.len())?;
    for name in names {
        components.push(Octets::from_slice(alloc, name.as_slice())?)?;
    }
    Ok(Items::new(components))
}

/// Returns a name and its realm as a principal of a cache.
pub(crate) fn cache_principal(
    alloc: Global,
    realm: &Name,
    name: &PrincipalName,
) -> Result<CcachePrincipal, OutOfMemory>
    ensures { IfOk result (λ principal. principal ≡ cache_principal realm.now name.now) }
{
    Ok(CcachePrincipal {
        name_type: type_number(&name.name_type),
        realm: Octets::from_slice(alloc, realm.as_slice())?,
        components: octets_of(alloc, name.name_string.as_slice())?,
    })
}
