//! The input of the demonstration.

ghost use Rattle.std.specs.Prelude.{◌≡◌, ◌+◌, ◌≤◌, ◌<◌, ◌++◌, IfOk, OnOk, replicate, string_bytes};
ghost use Rattle.std.specs.Int.{w64, to_be_bytes};
ghost use Rattle.std.specs.List.{flat_map, range_with_len};
ghost use Rattle.hex.specs.Hex.{encode_lower};
ghost use Rattle.krb_demo.specs.Client.{service_key};
ghost use Rattle.krb_demo.specs.Input.{acceptor_line, key_line, acceptor_lines, zeros, token_at, sender, event_line, demonstration};

use crate::client::{DemoClient, START, seconds};
use crate::parts::service_key;
use krb_der::{Octets, OutOfMemory};
use std::alloc::Global;

/// The skew of the service, in seconds.
const SKEW: &str = "skew 300\n";

const ZEROS: &str =
    "00000000000000000000000000000000000000000000000000000000000000000000000000000000000000000000000000000000000000000000000000000000";

/// Room for the lines of one acceptor and its event.
const OCTETS_A_CONNECTION: usize = 1_216;

fn acceptor_line(alloc: Global, k: u32) -> Result<String, OutOfMemory>
    ensures { IfOk result (λ line. string_bytes line ≡ acceptor_line k) }
{
    let line = format!(in alloc; "acceptor {k} 0 demo host/server.example.com\n")?;
    Ok(line)
}

/// The service's key in hex.
fn key_digits(alloc: Global) -> Result<String, OutOfMemory>
    ensures { IfOk result (λ digits. string_bytes digits ≡ encode_lower service_key) }
{
    Ok(hex::encode(alloc, service_key())?)
}

fn key_line(alloc: Global, k: u32) -> Result<String, OutOfMemory>
    ensures { IfOk result (λ line. string_bytes line ≡ key_line k) }
{
    let digits = key_digits(alloc)?;
    let line = format!(in alloc; "key {k} host/server.example.com {digits}\n")?;
    Ok(line)
}

/// Adds an acceptor, and its key.
fn add_acceptor(alloc: Global, input: &mut Vec<u8>, k: u32) -> Result<(), OutOfMemory>
    ensures { OnOk result (input.new.items ≡ input.old.items ++ acceptor_lines k) }
{
    let acceptor = acceptor_line(alloc, k)?;
    input.extend_from_slice(acceptor.as_bytes())?;
    let key = key_line(alloc, k)?;
    input.extend_from_slice(key.as_bytes())?;
    Ok(())
}

/// Eight octets of zero, and the number.
fn confounder(j: u32) -> [u8; 16]
    ensures { result ≡ replicate 8 0 ++ to_be_bytes w64 j }
{
    u128::from(j).to_be_bytes()
}

/// Returns the token at `j` seconds and `j` microseconds after the start.
fn token_at(alloc: Global, client: &DemoClient, j: u32) -> Result<Octets, OutOfMemory>
    requires { j ≤ 10000 }
    ensures { IfOk result (λ token. token ≡ token_at j) }
{
    client.token(alloc, seconds(START + j), j.to_be_bytes(), confounder(j))
}

/// Each tenth event repeats the token before it.
fn sender(k: u32) -> u32
    requires { 1 ≤ k }
    ensures { result ≡ sender k }
{
    if k % 10 == 0 { k - 1 } else { k }
}

/// 64 octets of zero in hex.
#[tactic(auto, unfolding(crate::specs::Input::zeros))]
fn zeros() -> &'static str
    ensures { result.now ≡ zeros }
{
    ZEROS
}

fn event_line(alloc: Global, client: &DemoClient, k: u32) -> Result<String, OutOfMemory>
    requires some { 1 ≤ k }
    requires few { k ≤ 10000 }
    ensures { IfOk result (λ line. string_bytes line ≡ event_line k) }
{
    let token = token_at(alloc, client, sender(k))?;
    let digits = hex::encode(alloc, token.as_slice())?;
    let moment = u64::from(START + k) * 1_000_000;
    let random = zeros();
    let line = format!(in alloc; "event {k} {moment} {random} - token {digits}\n")?;
    Ok(line)
}

/// Adds the event of an acceptor.
fn add_event(
    alloc: Global,
    input: &mut Vec<u8>,
    client: &DemoClient,
    k: u32,
) -> Result<(), OutOfMemory>
    requires some { 1 ≤ k }
    requires few { k ≤ 10000 }
    ensures { OnOk result (input.new.items ≡ input.old.items ++ event_line k) }
{
    let line = event_line(alloc, client, k)?;
    input.extend_from_slice(line.as_bytes())?;
    Ok(())
}

fn add_acceptors(alloc: Global, input: &mut Vec<u8>, n: u32) -> Result<(), OutOfMemory>
    requires { n ≤ 10000 }
    ensures { OnOk result (input.new.items ≡ input.old.items ++ flat_map acceptor_lines (range_with_len 1 n)) }
{
    for k in 1..n + 1 {
        add_acceptor(alloc, input, k)?;
    }
    Ok(())
}

fn add_events(alloc: Global, input: &mut Vec<u8>, n: u32) -> Result<(), OutOfMemory>
    requires { n ≤ 10000 }
    ensures { OnOk result (input.new.items ≡ input.old.items ++ flat_map event_line (range_with_len 1 n)) }
{
    let client = DemoClient::new(alloc)?;
    for k in 1..n + 1 {
        add_event(alloc, input, &client, k)?;
    }
    Ok(())
}

/// The input of the demonstration with `n` acceptors, 1 to 10,000: `skew 300`; the acceptors 1 to `n`, each with its key;
/// and an event at each, whose moment is as many seconds after 2023-11-14T22:13:20Z as the acceptor's number. Its token is
/// of that second, save that each tenth event repeats the token before it.
#[tactic(auto, unfolding(crate::specs::Input::demonstration))]
pub fn demonstration(alloc: Global, n: u32) -> Result<Vec<u8>, OutOfMemory>
    requires some { 1 ≤ n }
    requires few { n ≤ 10000 }
    ensures { IfOk result (λ input. input.items ≡ demonstration n) }
{
    let room = SKEW.len() + n as usize * OCTETS_A_CONNECTION;
    let mut input = Vec::with_capacity(alloc, room)?;
    input.extend_from_slice(SKEW.as_bytes())?;
    add_acceptors(alloc, &mut input, n)?;
    add_events(alloc, &mut input, n)?;
    Ok(input)
}
