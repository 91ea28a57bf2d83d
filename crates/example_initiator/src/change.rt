//! A change of a password: a run of the library over a network.

ghost use Rattle.std.specs.Prelude.{◌≡◌, ◌<◌, ◌≤◌, ◌^◌, IfOk, length};
ghost use Rattle.sspi_generator.specs.Draws.{AreInRange};
ghost use Rattle.krb_password_change.specs.ChangeRuns.{IsNew, turns_left};

use crate::line::User;
use krb_client::{
    ChangePassword, ContextChange, Draw, Env, Error, Generator, GeneratorChangePassword, Kerberos,
    KerberosConfig, NetworkClient, OutOfMemory, Rules, Secret, Text, change_password,
};
use krb_der::boxed;
use std::alloc::Global;

/// Returns a context before its exchange, on the heap, since calls that can fail borrow it. It has the rules of the RFCs, so the KDC's
/// replies have to answer the requests of this run.
fn context_of(alloc: Global, user: &User, number: [u8; 4]) -> Result<Box<Kerberos>, OutOfMemory> {
    let machine = Text::from_str(alloc, user.machine)?;
    let config = KerberosConfig::new(alloc, user.kdc, machine)?;
    let mut context = Kerberos::new_client_from_config(config, number);
    context.rules = Rules::rfc();
    boxed(alloc, context)
}

/// Returns the request for the KDC.
fn change_of(alloc: Global, user: &User, password: &str) -> Result<ChangePassword, OutOfMemory>
    requires { length password.now ≤ 2 ^ 24 }
    ensures { IfOk result (λ change. length change.new_password ≤ 2 ^ 24) }
{
    let account_name = Text::from_str(alloc, user.name)?;
    let domain_name = Text::from_str(alloc, user.realm)?;
    let old_password = Text::from_str(alloc, user.password)?;
    let new_password = Text::from_str(alloc, password)?;
    Ok(ChangePassword {
        account_name,
        domain_name,
        old_password: Secret::new(old_password),
        new_password: Secret::new(new_password),
    })
}

/// Returns the run that changes a password, on the heap.
fn run_of(
    alloc: Global,
    context: &Kerberos,
    change: ChangePassword,
) -> Result<Box<GeneratorChangePassword>, Error>
    requires { length change.new_password ≤ 2 ^ 24 }
    ensures new { IfOk result (λ run. IsNew run.value) }
    ensures turns { IfOk result (λ run. turns_left run.value.phase ≡ 3) }
{
    match change_password(alloc, context, change, Env::new(alloc)) {
        Ok(run) => Ok(boxed(alloc, Generator::new(run))?),
        Err(error) => Err(error),
    }
}

/// Returns the result of the run. No context changes.
fn end_of(
    run: Box<GeneratorChangePassword>,
    network: &mut dyn NetworkClient,
    draws: &[Draw],
) -> Result<ContextChange, Error>
    requires new { IsNew run.value }
    requires turns { turns_left run.value.phase ≡ 3 }
    requires enough { 3 < length draws.now }
    requires in_range { AreInRange draws.now }
{
    let mut run = run;
    run.resolve_with_client(network, draws)
}

fn changed(
    alloc: Global,
    context: &Kerberos,
    change: ChangePassword,
    network: &mut dyn NetworkClient,
    draws: &[Draw],
) -> Result<ContextChange, Error>
    requires password { length change.new_password ≤ 2 ^ 24 }
    requires enough { 3 < length draws.now }
    requires in_range { AreInRange draws.now }
{
    match run_of(alloc, context, change) {
        Ok(run) => end_of(run, network, draws),
        Err(error) => Err(error),
    }
}

fn change_at(
    alloc: Global,
    context: &Kerberos,
    user: &User,
    password: &str,
    network: &mut dyn NetworkClient,
    draws: &[Draw],
) -> Result<(), Error>
    requires password { length password.now ≤ 2 ^ 24 }
    requires enough { 3 < length draws.now }
    requires in_range { AreInRange draws.now }
{
    let change = change_of(alloc, user, password)?;
    match changed(alloc, context, change, network, draws) {
        Ok(_) => Ok(()),
        Err(error) => Err(error),
    }
}

/// Changes the user's password at the KDC. The number is the first sequence number of this end, four random bytes. There is a
/// draw for each step.
pub fn change(
    alloc: Global,
    user: &User,
    number: [u8; 4],
    password: &str,
    network: &mut dyn NetworkClient,
    draws: &[Draw],
) -> Result<(), Error>
    requires password { length password.now ≤ 2 ^ 24 }
    requires enough { 3 < length draws.now }
    requires in_range { AreInRange draws.now }
{
    let context = context_of(alloc, user, number)?;
    change_at(alloc, &context, user, password, network, draws)
}
