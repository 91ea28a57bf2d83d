//! The security layers, and how long their messages are.

ghost use Rattle.std.specs.Prelude.{◌≡◌, ◌<◌, ◌^◌, IsTrue};
ghost use Rattle.krb_sasl.specs.Layers.{layer_octet, layer_of, has_layer, has_size, is_offer, is_wish, message_size, takes_message};

/// How data are protected once both ends agree (RFC 4752, section 3.3).
#[derive(Clone, Copy, Debug, PartialEq, Eq)]
pub enum Layer {
    /// Data are sent as they are.
    None,
    /// Data are sent in the clear, with a checksum.
    Integrity,
    /// Data are sent encrypted.
    Confidentiality,
}

impl Layer {
    /// Returns the octet of the layer (RFC 4752, section 3.3): 1, 2 and 4.
    pub fn octet(self) -> u8
        ensures { result ≡ layer_octet self }
    {
        match self {
            Layer::None => 1,
            Layer::Integrity => 2,
            Layer::Confidentiality => 4,
        }
    }

    /// Returns the layer of an octet, None if it is not that of one layer alone.
    pub(crate) fn from_octet(octet: u8) -> Option<Layer>
        ensures { result ≡ layer_of octet }
    {
        match octet {
            1 => Some(Layer::None),
            2 => Some(Layer::Integrity),
            4 => Some(Layer::Confidentiality),
            _ => None,
        }
    }

    /// Returns whether these layers have it.
    pub(crate) fn is_in(self, layers: u8) -> bool
        ensures { result ≡ has_layer layers self }
    {
        !(layers & self.octet() == 0)
    }

    /// Returns whether an end with this layer may receive messages of this size.
    pub(crate) fn has_size(self, size: u32) -> bool
        ensures { result ≡ has_size self size }
    {
        match self {
            Layer::None => size == 0,
            _ => true,
        }
    }

    /// Returns the length of the message of `len` bytes.
    pub(crate) fn message_size(self, ec: u16, len: usize) -> u64
        requires { len < 2 ^ 63 }
        ensures { result ≡ message_size self ec len }
    {
        match self {
            Layer::None => len as u64,
            Layer::Integrity => 28 + len as u64,
            Layer::Confidentiality => 60 + ec as u64 + len as u64,
        }
    }

    /// Returns whether an end that receives `size` bytes at most accepts a message of `len`.
    pub(crate) fn takes(self, size: u32, len: u64) -> bool
        ensures exact { result ≡ takes_message self size len }
        ensures short { IsTrue result → len < 2 ^ 32 }
    {
        match self {
            Layer::None => len < 1 << 24,
            _ => len <= size as u64,
        }
    }
}

/// Returns whether these are some of the three layers, with a size that fits three octets, and no size if no layer alone is offered.
pub(crate) fn is_offer(layers: u8, size: u32) -> bool
    ensures { result ≡ is_offer layers size }
{
    1 <= layers && layers <= 7 && size < 1 << 24 && (!(layers == 1) || size == 0)
}

/// Returns whether the size fits three octets, and is zero for no layer.
pub(crate) fn is_wish(layer: Layer, size: u32) -> bool
    ensures { result ≡ is_wish layer size }
{
    size < 1 << 24 && layer.has_size(size)
}
