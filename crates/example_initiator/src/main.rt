//! A client that embeds the initiator.
//!
//! It reads lines of standard input: a user at a machine, the draws of each step, the answers of a KDC and of a service, and the
//! commands. It writes the requests for the KDC, the tokens for the service, and the refusals. A client reads its clock, draws
//! random bytes and opens a socket; this one reads all three from its input, so that a recorded conversation can be repeated.
#![tactic(auto)]

mod change;
mod line;
mod login;
mod network;
mod printing;
mod steps;

use anyhow::{Context, Result, anyhow};
use krb_dialogue::{Dialogue, Error, Next, Session};
use line::{Line, User};
use network::Network;
use printing::{print_change, print_octets, print_refusal, print_requests};
use std::alloc::Global;
use std::io;
use steps::Steps;

/// The most bytes of a new password.
const MAX_PASSWORD: usize = 16_777_216;

/// The state of the client after the lines so far.
#[derive(Drop)]
struct Client<'a> {
    user: Option<User<'a>>,
    /// A log-in whose context is not established yet.
    login: Option<Box<Dialogue>>,
    /// The session of a context that is established.
    session: Option<Box<Session>>,
    steps: Steps,
    network: Network,
}

fn octets(alloc: Global, hex: &str) -> Result<Vec<u8>> {
    Ok(hex::decode(alloc, hex.as_bytes())?)
}

fn number_of(user: &User) -> Result<[u8; 4]> {
    let mut number = [0; 4];
    hex::decode_to_slice(user.number.as_bytes(), &mut number)?;
    Ok(number)
}

fn is_at(login: &Dialogue, target: &str) -> bool {
    match &login.options.target {
        Some(name) => name.as_slice() == target.as_bytes(),
        None => false,
    }
}

/// Prints the result of a step: the requests, and then the token for the service, or the refusal.
fn print_step(
    rt: &(impl Print + AllocGlobal),
    login: &Dialogue,
    outcome: &std::result::Result<Next, Error>,
    network: &mut Network,
) -> Result<()> {
    print_requests(rt, network)?;
    match outcome {
        Ok(Next::AskKdc) => Err(anyhow!("a reply has no step")),
        Ok(Next::SendToken) => print_octets(rt, "token", &login::token(rt.alloc(), login)),
        Ok(Next::Established) => {
            print_octets(rt, "established", &login::token(rt.alloc(), login))
        }
        Err(error) => print_refusal(rt, error),
    }
}

/// Begins a log-in and prints its first step.
fn log_in(
    rt: &(impl Print + AllocGlobal),
    user: &User,
    target: &str,
    network: &mut Network,
    steps: &Steps,
) -> Result<Box<Dialogue>> {
    let number = number_of(user)?;
    let draws = steps.for_login().context("a log-in without a step")?;
    let mut login = login::new_login(rt.alloc(), user, number, target)?;
    let outcome = login::start(rt.alloc(), &mut login, network, draws);
    print_step(rt, &login, &outcome, network)?;
    Ok(login)
}

/// Takes the service's answer and prints the step.
fn hear(
    rt: &(impl Print + AllocGlobal),
    login: Option<&mut Box<Dialogue>>,
    target: &str,
    token: &[u8],
    network: &mut Network,
    steps: &Steps,
) -> Result<()> {
    let login = login.context("no log-in")?;
    if !is_at(login, target) {
        return Err(anyhow!("a log-in at another service"));
    }
    let draws = steps.for_login().context("an answer without a step")?;
    let outcome = login::hear(rt.alloc(), login, token, network, draws);
    print_step(rt, login, &outcome, network)
}

fn change_password(
    rt: &(impl Print + AllocGlobal),
    user: &User,
    password: &str,
    network: &mut Network,
    steps: &Steps,
) -> Result<()> {
    if password.len() > MAX_PASSWORD {
        return Err(anyhow!("a password of more than 16777216 octets"));
    }
    let number = number_of(user)?;
    let draws = steps.for_change().context("a change without 4 steps")?;
    let outcome = change::change(rt.alloc(), user, number, password, network, &draws);
    print_requests(rt, network)?;
    print_change(rt, &outcome)
}

impl<'a> Client<'a> {
    fn new(alloc: Global) -> Client<'a> {
        Client {
            user: None,
            login: None,
            session: None,
            steps: Steps::new(alloc),
            network: Network::new(alloc),
        }
    }

    /// Logs the user in at a service.
    fn log_in(&mut self, rt: &(impl Print + AllocGlobal), target: &str) -> Result<()> {
        let user = self.user.context("no user")?;
        let steps = self.steps.take();
        self.login = Some(log_in(rt, &user, target, &mut self.network, &steps)?);
        Ok(())
    }

    /// Takes the service's answer. A log-in whose context is established then becomes a session.
    fn hear(&mut self, rt: &(impl Print + AllocGlobal), target: &str, token: &[u8]) -> Result<()> {
        let steps = self.steps.take();
        let login = self.login.as_mut();
        let outcome = hear(rt, login, target, token, &mut self.network, &steps);
        self.settle();
        outcome
    }

    fn settle(&mut self) {
        if let Some(login) = self.login.take() {
            match Dialogue::into_session(login) {
                Ok(session) => self.session = Some(session),
                Err(login) => self.login = Some(login),
            }
        }
    }

    /// Encrypts a message for the service and prints it.
    fn seal(
        &mut self,
        rt: &(impl Print + AllocGlobal),
        confounder: &str,
        text: &[u8],
    ) -> Result<()> {
        let mut random = [0; 16];
        hex::decode_to_slice(confounder.as_bytes(), &mut random)?;
        let session = self.session.as_mut().context("no session")?;
        let sealed = login::seal(rt.alloc(), session, text, random);
        print_octets(rt, "sealed", &sealed)
    }

    /// Changes the user's password.
    fn change(&mut self, rt: &(impl Print + AllocGlobal), password: &str) -> Result<()> {
        let user = self.user.context("no user")?;
        let steps = self.steps.take();
        change_password(rt, &user, password, &mut self.network, &steps)
    }

    /// Sets another user, and drops the log-in and the session.
    fn set_user(&mut self, user: User<'a>) {
        self.user = Some(user);
        self.login = None;
        self.session = None;
    }

    fn take_line(&mut self, rt: &(impl Print + AllocGlobal), line: Line<'a>) -> Result<()> {
        match line {
            Line::User(user) => {
                self.set_user(user);
                Ok(())
            }
            Line::Step { moment, random } => self.steps.add(moment, random),
            Line::Reply { octets } => self.network.add(octets),
            Line::Login { target } => self.log_in(rt, target),
            Line::Answer { target, token } => {
                let token = octets(rt.alloc(), token)?;
                self.hear(rt, target, &token)
            }
            Line::Seal { confounder, text } => {
                let text = octets(rt.alloc(), text)?;
                self.seal(rt, confounder, &text)
            }
            Line::Change { password } => self.change(rt, password),
        }
    }
}

fn answer_lines<'a>(
    rt: &(impl Print + AllocGlobal),
    client: &mut Client<'a>,
    text: &'a str,
) -> Result<()> {
    for line in text.lines() {
        match Line::parse(line) {
            Some(line) => client.take_line(rt, line)?,
            None => return Err(anyhow!("not a line of the initiator: {line}")),
        }
    }
    Ok(())
}

fn main(rt: HostRuntime) -> Result<()> {
    let text = io::read_to_string(rt.alloc(), rt.stdin())?;
    let mut client = Client::new(rt.alloc());
    answer_lines(&rt, &mut client, text.as_str())
}
