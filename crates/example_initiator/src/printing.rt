//! The output of the client.

use crate::network::Network;
use anyhow::{Result, anyhow};
use krb_client::NetworkRequest;
use krb_dialogue::{Error, Fault};

fn print_request(rt: &(impl Print + AllocGlobal), request: &NetworkRequest) -> Result<()> {
    let payload = hex::encode(rt.alloc(), request.payload.as_slice())?;
    println!(rt; "ask {} {payload}", request.url.as_str())?;
    Ok(())
}

/// Prints the requests to the network since the last call.
pub fn print_requests(rt: &(impl Print + AllocGlobal), network: &mut Network) -> Result<()> {
    for request in network.take_requests().iter() {
        print_request(rt, request)?;
    }
    Ok(())
}

/// Prints the check that failed first.
pub fn print_refusal(rt: &impl Print, error: &Error) -> Result<()> {
    println!(rt; "refused {error}")?;
    Ok(())
}

/// Prints the bytes in hex, a hyphen for none, or the check that failed first.
pub fn print_octets(
    rt: &(impl Print + AllocGlobal),
    word: &str,
    outcome: &std::result::Result<Vec<u8>, Fault>,
) -> Result<()> {
    match outcome {
        Ok(octets) if octets.is_empty() => println!(rt; "{word} -")?,
        Ok(octets) => println!(rt; "{word} {}", hex::encode(rt.alloc(), octets)?)?,
        Err(Fault::Refused(error)) => print_refusal(rt, error)?,
        Err(Fault::Room(length)) => return Err(anyhow!("no room for {length} octets")),
    }
    Ok(())
}

/// Prints that the password was changed, or the check that failed first.
pub fn print_change(rt: &impl Print, outcome: &std::result::Result<(), Error>) -> Result<()> {
    match outcome {
        Ok(()) => {
            println!(rt; "changed")?;
            Ok(())
        }
        Err(error) => print_refusal(rt, error),
    }
}
