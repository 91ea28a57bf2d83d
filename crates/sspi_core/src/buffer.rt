//! A buffer of a message: what it holds, and how much it can hold.

ghost use Rattle.std.specs.Prelude.{◌≡◌, ◌≤◌, ◌<◌, length, IsOkUnless, OnErr, OnOk};
ghost use Rattle.sspi_core.specs.Buffer.{Buffer, is_part, is_readonly_alone, no_flags};
ghost use Rattle.sspi_core.specs.Kinds.{error_of};

use crate::cause::Cause;
use crate::error::Error;
use crate::flags::SecurityBufferFlags;
use bitflags::Flags;
use krb_der::Octets;
use std::alloc::Global;
use std::marker::Model;

/// The purpose of a buffer.
#[derive(Clone, Copy, Debug, PartialEq, Eq, Hash)]
pub enum BufferType {
    /// The token that is sent next to the data.
    Token,
    /// A text that is sealed, or that the checksum covers.
    Data,
    /// A whole message, token and data together.
    Stream,
}

/// A buffer that a message has at most once.
#[derive(Clone, Copy, Debug, PartialEq, Eq, Hash)]
pub enum Part {
    Token,
    Stream,
    /// The data that are sealed: a data buffer without flags.
    Plain,
}

/// Octets and the most of them that the buffer can hold.
#[derive(Drop)]
pub struct SecurityBufferRef {
    kind: BufferType,
    flags: SecurityBufferFlags,
    octets: Octets,
    limit: usize,
}

impl Model for SecurityBufferRef {
    ghost use Rattle.std.specs.Prelude.{◌≤◌, length};
    ghost use Rattle.sspi_core.specs.Buffer.{Buffer};

    ghost Value = { Buffer };

    ghost view = { λ b. record { kind = b.kind; flags = b.flags; octets = b.octets; limit = b.limit } };

    ghost invariant = { λ b. length b.octets ≤ b.limit };
}

impl SecurityBufferRef {
    fn new(kind: BufferType, octets: Octets, limit: usize) -> SecurityBufferRef
        requires { length octets ≤ limit }
        ensures { result ≡ record { kind = kind; flags = no_flags; octets = octets; limit = limit } }
    {
        SecurityBufferRef {
            kind,
            flags: SecurityBufferFlags::NONE,
            octets,
            limit,
        }
    }

    /// A token of at most `limit` octets.
    pub fn token_buf(octets: Octets, limit: usize) -> SecurityBufferRef
        requires { length octets ≤ limit }
        ensures { result ≡ record { kind = BufferType.Token; flags = no_flags; octets = octets; limit = limit } }
    {
        SecurityBufferRef::new(BufferType::Token, octets, limit)
    }

    /// Data of at most `limit` octets.
    pub fn data_buf(octets: Octets, limit: usize) -> SecurityBufferRef
        requires { length octets ≤ limit }
        ensures { result ≡ record { kind = BufferType.Data; flags = no_flags; octets = octets; limit = limit } }
    {
        SecurityBufferRef::new(BufferType::Data, octets, limit)
    }

    /// A whole message of at most `limit` octets.
    pub fn stream_buf(octets: Octets, limit: usize) -> SecurityBufferRef
        requires { length octets ≤ limit }
        ensures { result ≡ record { kind = BufferType.Stream; flags = no_flags; octets = octets; limit = limit } }
    {
        SecurityBufferRef::new(BufferType::Stream, octets, limit)
    }

    /// The buffer with these flags in place of its own.
    pub fn with_flags(self, flags: SecurityBufferFlags) -> SecurityBufferRef
        ensures { result ≡ record self { flags = flags } }
    {
        let mut buffer = self;
        buffer.flags = flags;
        buffer
    }

    /// Returns the purpose of the buffer.
    pub fn kind(&self) -> BufferType
        ensures { result ≡ self.now.kind }
    {
        self.kind
    }

    /// How the buffer is covered.
    pub fn flags(&self) -> SecurityBufferFlags
        ensures { result ≡ self.now.flags }
    {
        self.flags
    }

    /// The most octets that the buffer can hold.
    pub fn limit(&self) -> usize
        ensures limit { result ≡ self.now.limit }
        ensures fits { length self.now.octets ≤ self.now.limit }
    {
        self.limit
    }

    /// The octets that it holds.
    pub fn data(&self) -> &[u8]
        ensures { result.now ≡ self.now.octets }
    {
        self.octets.as_slice()
    }

    /// Returns whether the buffer is this part: the token, the stream or the data that are encrypted.
    pub fn is_part(&self, part: Part) -> bool
        ensures { result ≡ is_part part self.now }
    {
        match part {
            Part::Token => matches!(self.kind, BufferType::Token),
            Part::Stream => matches!(self.kind, BufferType::Stream),
            Part::Plain => {
                matches!(self.kind, BufferType::Data)
                    && !self.flags.contains(SecurityBufferFlags::SECBUFFER_READONLY)
                    && !self
                        .flags
                        .contains(SecurityBufferFlags::SECBUFFER_READONLY_WITH_CHECKSUM)
            }
        }
    }

    pub(crate) fn is_readonly_alone(&self) -> bool
        ensures { result ≡ is_readonly_alone self.now }
    {
        matches!(self.kind, BufferType::Data)
            && self.flags.contains(SecurityBufferFlags::SECBUFFER_READONLY)
            && !self
                .flags
                .contains(SecurityBufferFlags::SECBUFFER_READONLY_WITH_CHECKSUM)
    }

    /// Replaces the bytes in the buffer. Fails with `TooSmall` if and only if they are longer than the limit.
    /// The buffer is unchanged after an error.
    pub fn write_data(&mut self, alloc: Global, octets: &[u8]) -> Result<(), Error>
        ensures ok { OnOk result ((length octets.now ≤ self.old.limit) × (self.new ≡ record self.old { octets = octets.now })) }
        ensures err { OnErr result (self.new ≡ self.old) }
        ensures too_small { self.old.limit < length octets.now → result ≡ Err (error_of Cause.TooSmall) }
        ensures fits { length octets.now ≤ self.old.limit → IsOkUnless result (error_of Cause.Memory) }
    {
        if octets.len() > self.limit {
            return Err(Error::from(Cause::TooSmall));
        }
        self.octets = Octets::from_slice(alloc, octets)?;
        Ok(())
    }

    /// Other octets that fit.
    pub(crate) fn put(&mut self, octets: Octets)
        requires { length octets ≤ self.old.limit }
        ensures { self.new ≡ record self.old { octets = octets } }
    {
        self.octets = octets;
    }

    /// Other octets, and as much room as they take.
    pub(crate) fn put_whole(&mut self, octets: Octets)
        ensures { self.new ≡ record self.old { octets = octets; limit = length octets } }
    {
        self.limit = octets.as_slice().len();
        self.octets = octets;
    }
}
