//! The reply to an event, and its line.
ghost use Rattle.std.specs.Prelude.{◌≡◌, ◌++◌, codes, IfOk, string_bytes};
ghost use Rattle.std.specs.List.{flat_map};
ghost use Rattle.hex.specs.Hex.{encode_lower};
ghost use Rattle.sspi_core.specs.Buffer.{has_checksum_flag};
ghost use Rattle.krb_machine.specs.Reply.{hex_or_dash, letter_of, buffer_text, ask_line};

use bitflags::Flags;
use krb_der::Octets;
use sspi_core::{
    BufferType, Error, Message, SecurityBufferFlags, SecurityBufferRef, SecurityStatus,
};
use sspi_generator::NetworkRequest;
use std::alloc::{AllocError, Global};

/// The reply to an event.
#[derive(Drop)]
pub enum Reply {
    /// The event was taken. The token, which may be empty, is for the peer.
    Done {
        status: SecurityStatus,
        token: Octets,
        /// Set if the reply admits the peer. The third leg of an exchange in DCE style does not admit the peer again.
        admits: bool,
    },
    /// A request is to be sent to a KDC: the connection awaits its answer.
    Ask(NetworkRequest),
    /// The buffers of a message that was wrapped or unwrapped.
    Buffers(Message),
    /// The MIC token of a payload.
    Mic(Octets),
    /// The MIC token is the peer's, over the payload.
    Verified,
    /// The event was refused, for the first check that fails. Running out of memory is never reported as `Refused`.
    Refused(Error),
}

impl Reply {
    ghost use Rattle.std.specs.Prelude.{◌≡◌, IfOk, string_bytes};
    ghost use Rattle.krb_machine.specs.Reply.{reply_line, admits_peer};

    /// Returns whether the reply admits the peer.
    pub fn admits_peer(&self) -> bool
        ensures { result ≡ admits_peer self.now }
    {
        match self {
            Reply::Done { admits, .. } => *admits,
            Reply::Ask(_)
            | Reply::Buffers(_)
            | Reply::Mic(_)
            | Reply::Verified
            | Reply::Refused(_) => false,
        }
    }

    /// Returns the line of the reply, with 0A at its end.
    pub fn line(&self, alloc: Global) -> Result<String, AllocError>
        ensures { IfOk result (λ line. string_bytes line ≡ reply_line self.now) }
    {
        match self {
            Reply::Done { status, token, .. } => done_line(alloc, *status, token),
            Reply::Ask(request) => ask_line(alloc, request),
            Reply::Buffers(message) => buffers_line(alloc, message.buffers()),
            Reply::Mic(token) => mic_line(alloc, token),
            Reply::Verified => String::from_str(alloc, "verified\n"),
            Reply::Refused(error) => format!(in alloc; "refused {error}\n"),
        }
    }
}

ghost use Rattle.krb_machine.specs.Reply.{done_line};

fn done_line(alloc: Global, status: SecurityStatus, token: &Octets) -> Result<String, AllocError>
    ensures { IfOk result (λ line. string_bytes line ≡ done_line status token.now) }
{
    let digits = hex_or_dash(alloc, token.as_slice())?;
    match status {
        SecurityStatus::Ok => format!(in alloc; "ok {digits}\n"),
        SecurityStatus::ContinueNeeded => format!(in alloc; "continue {digits}\n"),
    }
}

fn ask_line(alloc: Global, request: &NetworkRequest) -> Result<String, AllocError>
    ensures { IfOk result (λ line. string_bytes line ≡ ask_line request.now) }
{
    let digits = hex_or_dash(alloc, request.payload.as_slice())?;
    let protocol = request.protocol.scheme();
    let url = request.url.as_str();
    format!(in alloc; "ask {protocol} {url} {digits}\n")
}

fn mic_line(alloc: Global, token: &Octets) -> Result<String, AllocError>
    ensures { IfOk result (λ line. string_bytes line ≡ codes "mic " ++ encode_lower token.now ++ codes "\n") }
{
    let digits = hex::encode(alloc, token.as_slice())?;
    format!(in alloc; "mic {digits}\n")
}

fn letter_of(buffer: &SecurityBufferRef) -> &'static str
    ensures { result.now ≡ letter_of buffer.now.kind (has_checksum_flag buffer.now.flags) }
{
    match buffer.kind() {
        BufferType::Token => "T",
        BufferType::Stream => "S",
        BufferType::Data => {
            let covered = SecurityBufferFlags::SECBUFFER_READONLY_WITH_CHECKSUM;
            if buffer.flags().contains(covered) {
                "R"
            } else {
                "D"
            }
        }
    }
}

/// Returns the text of a buffer in a line, after a space.
fn buffer_text(alloc: Global, buffer: &SecurityBufferRef) -> Result<String, AllocError>
    ensures { IfOk result (λ text. string_bytes text ≡ buffer_text buffer.now) }
{
    let letter = letter_of(buffer);
    let digits = hex::encode(alloc, buffer.data())?;
    let limit = buffer.limit();
    format!(in alloc; " {letter}:{digits}:{limit}")
}

fn buffers_line(alloc: Global, buffers: &[SecurityBufferRef]) -> Result<String, AllocError>
    ensures { IfOk result (λ line. string_bytes line ≡ codes "buffers" ++ flat_map buffer_text buffers.now ++ codes "\n") }
{
    let mut line = String::from_str(alloc, "buffers")?;
    for buffer in buffers {
        let text = buffer_text(alloc, buffer)?;
        line.push_str(&text)?;
    }
    line.push_str("\n")?;
    Ok(line)
}

/// Returns octets in lower-case hex; `-` means no octets.
fn hex_or_dash(alloc: Global, octets: &[u8]) -> Result<String, AllocError>
    ensures { IfOk result (λ text. string_bytes text ≡ hex_or_dash octets.now) }
{
    if octets.is_empty() {
        String::from_str(alloc, "-")
    } else {
        hex::encode(alloc, octets)
    }
}
