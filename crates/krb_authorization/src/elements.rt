//! The element at a place.

ghost use Rattle.std.specs.Prelude.{◌≡◌, [], ◌∷◌, IfOk, FitsSigned};
ghost use Rattle.std.specs.Int.{w32};
ghost use Rattle.std.specs.Option.{SomeIff};
ghost use Rattle.krb_authorization.specs.Elements.{is_if_relevant, ElementAt};
ghost use Rattle.krb_authorization.specs.Steps.{EnclosedIn, Steps, Takes};
ghost use Rattle.krb_der.specs.Integer.{integer_value};

use krb_der::{Asn1, Fault, OutOfMemory, TryCopy};
use krb_messages::{AuthorizationData, AuthorizationDataElement};
use std::alloc::Global;

/// The result of counting at one element.
#[derive(Drop)]
enum Step {
    /// The element at the place.
    Found(AuthorizationDataElement),
    /// The place among the elements after this one.
    Further(usize),
}

fn is_if_relevant(element: &AuthorizationDataElement) -> bool
    ensures { result ≡ is_if_relevant element.now }
{
    match element.ad_type.value() {
        Some(number) => number == 1,
        None => false,
    }
}

/// Returns the elements that an element encloses, if it is an AD-IF-RELEVANT of AuthorizationData.
fn enclosed_in(
    alloc: Global,
    element: &AuthorizationDataElement,
) -> Result<Option<AuthorizationData>, OutOfMemory>
    ensures { IfOk result (EnclosedIn element.now) }
{
    if !is_if_relevant(element) {
        return Ok(None);
    }
    match AuthorizationData::read(alloc, element.ad_data.as_slice()) {
        Ok(inner) => Ok(Some(inner)),
        Err(Fault::Shape) => Ok(None),
        Err(Fault::OutOfMemory) => Err(OutOfMemory),
    }
}

/// Takes the element at the place out of these.
fn take(elements: AuthorizationData, place: usize) -> Step
    ensures { Takes elements place result }
{
    let mut elements = elements.into_inner();
    let count = elements.len();
    if place < count {
        Step::Found(elements.swap_remove(place))
    } else {
        Step::Further(place - count)
    }
}

/// Takes a step of an element that counts as itself.
fn itself(
    alloc: Global,
    element: &AuthorizationDataElement,
    place: usize,
) -> Result<Step, OutOfMemory>
    ensures { IfOk result (Takes (element.now ∷ []) place) }
{
    if place == 0 {
        Ok(Step::Found(element.copy(alloc)?))
    } else {
        Ok(Step::Further(place - 1))
    }
}

fn step_of(
    alloc: Global,
    element: &AuthorizationDataElement,
    place: usize,
) -> Result<Step, OutOfMemory>
    ensures { IfOk result (Steps element.now place) }
{
    match enclosed_in(alloc, element)? {
        Some(inner) => Ok(take(inner, place)),
        None => itself(alloc, element, place),
    }
}

/// Returns a copy of the element at a place, counted from 0, or None past the last. Each AD-IF-RELEVANT whose contents are authorization
/// data counts as the elements inside it, one level deep: an AD-IF-RELEVANT inside another is an element (RFC 4120, section 5.2.6.1). An
/// AD-IF-RELEVANT with any other contents is an element.
///
/// The elements after the returned one are not read.
pub fn element_at(
    alloc: Global,
    elements: &AuthorizationData,
    place: usize,
) -> Result<Option<AuthorizationDataElement>, OutOfMemory>
    ensures { IfOk result (ElementAt elements.now place) }
{
    let mut rest = place;
    for element in elements.as_slice() {
        match step_of(alloc, element, rest)? {
            Step::Found(found) => return Ok(Some(found)),
            Step::Further(further) => rest = further,
        }
    }
    Ok(None)
}

/// Returns the type of an element (RFC 4120, section 7.5.4), if it is an Int32 (section 5.2.4).
pub fn element_type(element: &AuthorizationDataElement) -> Option<i32>
    ensures { SomeIff result (FitsSigned w32 (integer_value element.now.ad_type)) (integer_value element.now.ad_type) }
{
    let number = element.ad_type.value()?;
    i32::try_from(number).ok()
}
