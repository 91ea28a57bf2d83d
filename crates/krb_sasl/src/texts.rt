//! The texts of the negotiation.

ghost use Rattle.std.specs.Prelude.{◌≡◌, ◌≤◌, length, IfOk};
ghost use Rattle.std.specs.Str.{is_utf8};
ghost use Rattle.krb_sasl.specs.Texts.{offer_text, answer_text, layers_in, size_in, name_in, is_offer_text, is_answer_text, chosen_layer, offers_layer};

use crate::layer::Layer;
use krb_der::Octets;
use std::alloc::{AllocError, Global};
use std::str;

/// Returns the text of a server's offer.
pub(crate) fn offer_text(layers: u8, size: u32) -> [u8; 4]
    ensures { result ≡ offer_text layers size }
{
    let [_, a, b, c] = size.to_be_bytes();
    [layers, a, b, c]
}

/// Returns the text of a client's answer.
pub(crate) fn answer_text(
    alloc: Global,
    layer: Layer,
    size: u32,
    name: &str,
) -> Result<Octets, AllocError>
    ensures { IfOk result (λ text. text ≡ answer_text layer size name.now) }
{
    let mut text = Vec::from_slice(alloc, &offer_text(layer.octet(), size))?;
    text.extend_from_slice(name.as_bytes())?;
    Ok(Octets::new(text))
}

/// Returns the octet of layers of a text.
pub(crate) fn layers_in(text: &[u8]) -> u8
    requires { 4 ≤ length text.now }
    ensures { result ≡ layers_in text.now }
{
    text[0]
}

/// Returns the size of a text.
pub(crate) fn size_in(text: &[u8]) -> u32
    requires { 4 ≤ length text.now }
    ensures { result ≡ size_in text.now }
{
    u32::from_be_bytes([0, text[1], text[2], text[3]])
}

/// Returns whether a text has four bytes.
pub(crate) fn is_offer_text(text: &[u8]) -> bool
    ensures { result ≡ is_offer_text text.now }
{
    text.len() == 4
}

fn is_utf8(octets: &[u8]) -> bool
    ensures { result ≡ is_utf8 octets.now }
{
    match str::from_utf8(octets) {
        Ok(_) => true,
        Err(_) => false,
    }
}

/// Returns whether a text has four bytes, and after them a name in UTF-8.
pub(crate) fn is_answer_text(text: &[u8]) -> bool
    ensures { result ≡ is_answer_text text.now }
{
    4 <= text.len() && is_utf8(&text[4..])
}

/// Returns the layer that an answer chooses from these.
pub(crate) fn chosen_layer(layers: u8, text: &[u8]) -> Option<Layer>
    requires { 4 ≤ length text.now }
    ensures { result ≡ chosen_layer layers text.now }
{
    let layer = Layer::from_octet(layers_in(text))?;
    if layer.is_in(layers) && layer.has_size(size_in(text)) {
        Some(layer)
    } else {
        None
    }
}

/// Returns whether an offer has the client's layer, and no size if no layer alone is offered.
pub(crate) fn offers_layer(text: &[u8], wanted: Layer) -> bool
    requires { 4 ≤ length text.now }
    ensures { result ≡ offers_layer text.now wanted }
{
    wanted.is_in(layers_in(text)) && (!(layers_in(text) == 1) || size_in(text) == 0)
}

/// Returns the name after the octet of layers and the size.
pub(crate) fn name_of(text: Octets) -> Octets
    requires { 4 ≤ length text }
    ensures { result ≡ name_in text }
{
    let mut name = text.into_inner();
    let end = name.len() - 4;
    name.as_mut_slice().copy_within(4.., 0);
    name.truncate(end);
    Octets::new(name)
}
