//! A client between the checks before the book and its admission.

ghost use Rattle.std.specs.Prelude.{◌≡◌, true, Some, Ok, IfOk, IfErr, OnOk};
ghost use Rattle.std.specs.Option.{option_copied};
ghost use Rattle.sspi_core.specs.Checks.{Answers};
ghost use Rattle.sspi_core.specs.Kinds.{error_of};
ghost use Rattle.sspi_core.specs.declared.cause.Cause.TheVariants as causes;
ghost use Rattle.sspi_core.specs.declared.error.Place.TheVariants as places;
ghost use Rattle.krb_admission.specs.Halves.{AdmitsPrepared};
ghost use Rattle.krb_context.specs.Refusals.{Refuses};
ghost use Rattle.krb_replay.specs.Book.{Follows, StandsFor, IsUnchanged};
ghost use Rattle.krb_entrance.specs.Connections.{keyless};
ghost use Rattle.krb_entrance.specs.Candidates.{Checks, Passes, Stops, IsLetIn, TurnsAway, client_told};

use crate::connection::{keyless, waiting};
use crate::keys::Keys;
use krb_admission::judge_with;
use krb_context::KeptKey;
use krb_der::{Copier, boxed};
use krb_server::{
    Answer, AuthorizationData, Cause, Draw, Error, Judged, Kerberos, Octets, OutOfMemory,
    ReplayBook,
};
use krb_sessions::{Client, Order, Session};
use sspi_core::hold;
use std::alloc::Global;

/// A client whose token passed every check before the book, at a connection that waited for it. **It is not admitted yet.**
///
/// `judged` has the other facts of the token: the service's clear name, and how far the client's clock is off. The connection has no
/// key of a service.
#[derive(Drop)]
pub struct Candidate {
    pub judged: Judged,
    pub connection: Kerberos,
    /// The client, as the ticket and its authenticator name it.
    pub client: Box<Client>,
}

fn copied_data(
    copier: &mut Copier,
    elements: Option<&AuthorizationData>,
) -> Option<AuthorizationData>
    ensures { copier.new.has_all ≡ true → (copier.old.has_all ≡ true) × (result ≡ option_copied elements.entry) }
{
    match elements {
        Some(elements) => Some(copier.copy(elements)),
        None => None,
    }
}

/// Returns the client that the ticket and its authenticator name.
fn client_told(alloc: Global, judged: &Judged) -> Result<Client, OutOfMemory>
    ensures { IfOk result (λ client. client ≡ client_told judged.now.request) }
{
    let times = judged.ticket_times();
    let channel_hash = Octets::from_slice(alloc, judged.channel_hash())?;
    let tag = Octets::from_slice(alloc, judged.tag())?;
    let delegation = Octets::from_slice(alloc, judged.delegation())?;
    let mut copier = Copier::new(alloc);
    let client = Client {
        name: copier.copy(judged.client_name()),
        realm: copier.copy(judged.client_realm()),
        flags: copier.copy(judged.ticket_flags()),
        authtime: times.authtime,
        starttime: times.starttime,
        endtime: times.endtime,
        renew_till: times.renew_till,
        authorization_data: copied_data(&mut copier, judged.authorization_data()),
        gss_flags: judged.gss_flags(),
        channel_hash,
        tag,
        first_number: judged.first_number(),
        delegation,
    };
    copier.finish(client)
}

/// Runs the checks before the book, at a connection that waits: the token's length, and then those of an AP-REQ.
fn check(
    alloc: Global,
    keys: &Keys,
    kept: &mut KeptKey,
    connection: &Kerberos,
    token: &[u8],
    draw: &Draw,
) -> Result<Judged, Cause>
    ensures { Answers (Checks keys.now connection.now token.now draw.now) result }
{
    hold(token.len() <= keys.token_limit, Cause::Shape)?;
    judge_with(
        alloc,
        &keys.properties,
        kept,
        connection,
        false,
        token,
        draw,
    )
}

fn checked(
    alloc: Global,
    keys: &Keys,
    kept: &mut KeptKey,
    connection: &Kerberos,
    token: &[u8],
    draw: &Draw,
) -> Result<Judged, Error>
    ensures passes { IfOk result (λ judged. Checks keys.now connection.now token.now draw.now (Ok judged)) }
    ensures refused { IfErr result (Refuses places.Elsewhere (Checks keys.now connection.now token.now draw.now)) }
{
    match check(alloc, keys, kept, connection, token, draw) {
        Ok(judged) => Ok(judged),
        Err(cause) => Err(Error::from(cause)),
    }
}

/// Returns the judged token for the book, and its client. The connection has the service's name then. Nothing is copied before the
/// token has passed.
fn judge_at(
    alloc: Global,
    keys: &Keys,
    kept: &mut KeptKey,
    connection: &mut Kerberos,
    token: &[u8],
    draw: &Draw,
) -> Result<(Judged, Box<Client>), Error>
    ensures passes { IfOk result (λ told. Checks keys.now connection.old token.now draw.now (Ok told.0)) }
    ensures client { IfOk result (λ told. told.1.value ≡ client_told told.0.request) }
    ensures named { OnOk result (connection.new ≡ record connection.old { server = Some (keyless keys.now.properties) }) }
    ensures refused { IfErr result (Refuses places.Elsewhere (Checks keys.now connection.old token.now draw.now)) }
{
    let judged = boxed(alloc, checked(alloc, keys, kept, connection, token, draw)?)?;
    let client = boxed(alloc, client_told(alloc, &judged)?)?;
    connection.server = Some(keyless(alloc, &keys.properties)?);
    Ok((Box::into_inner(judged), client))
}

/// Judges a token without the book, at a new connection for it. What opens a ticket is kept in `kept`.
pub(crate) fn judge(
    alloc: Global,
    keys: &Keys,
    kept: &mut KeptKey,
    channel: Option<[u8; 16]>,
    token: &[u8],
    draw: &Draw,
) -> Result<Candidate, Error>
    ensures passes { IfOk result (λ candidate. Passes keys.now channel token.now draw.now candidate.judged candidate.connection) }
    ensures client { IfOk result (λ candidate. candidate.client.value ≡ client_told candidate.judged.request) }
    ensures refused { IfErr result (Refuses places.Elsewhere (Stops keys.now channel token.now draw.now)) }
{
    let mut connection = waiting(alloc, channel, draw)?;
    match judge_at(alloc, keys, kept, &mut connection, token, draw) {
        Ok((judged, client)) => Ok(Candidate {
            judged,
            connection,
            client,
        }),
        Err(error) => {
            drop(connection);
            Err(error)
        }
    }
}

fn admit_at(
    alloc: Global,
    judged: Judged,
    connection: &mut Kerberos,
    book: &mut ReplayBook,
) -> Result<Answer, Error>
    ensures admits { IfOk result (λ answer. AdmitsPrepared (Follows StandsFor) judged connection.old book.old (Ok answer) connection.new book.new) }
    ensures refused { IfErr result (Refuses places.Elsewhere
        (λ answer. AdmitsPrepared (Follows StandsFor) judged connection.old book.old answer connection.new book.new)) }
    ensures memory { IfErr result (λ error. error ≡ error_of causes.Memory → IsUnchanged book.old book.new) }
{
    match krb_server::admit(alloc, judged, connection, book) {
        Ok(answer) => Ok(answer),
        Err(error) => Err(error),
    }
}

/// Admits a candidate if the book does: the book is asked, and nothing after that allocates memory or uses a cipher. So threads may
/// share a book under a lock, and hold it for this call alone.
pub fn admit(alloc: Global, candidate: Candidate, book: &mut ReplayBook) -> Result<Session, Error>
    ensures admits { IfOk result (λ session. IsLetIn candidate book.old session book.new) }
    // A refusal is that of the first check that failed, and the book is as that check left it.
    ensures refused { IfErr result (Refuses places.Elsewhere (TurnsAway candidate book.old book.new)) }
    // If memory runs out the book is unchanged: the same token may be sent again.
    ensures memory { IfErr result (λ error. error ≡ error_of causes.Memory → IsUnchanged book.old book.new) }
{
    let Candidate {
        judged,
        mut connection,
        client,
    } = candidate;
    match admit_at(alloc, judged, &mut connection, book) {
        Ok(answer) => Ok(Session {
            answer: answer.token,
            connection,
            client: Some(client),
            order: Order::Any,
        }),
        Err(error) => {
            drop(connection);
            drop(client);
            Err(error)
        }
    }
}
