//! The text of the workers' replies.

ghost use Rattle.std.specs.Prelude.{◌≡◌, ◌≤◌, ◌++◌, ◌+◌, length, IfOk, OnOk, string_bytes};
ghost use Rattle.krb_machine.specs.Reply.{admissions};
ghost use Rattle.krb_machine.specs.Text.{end_line};
ghost use Rattle.krb_threads.specs.Answers.{worker_line, worker_text, verdict_name, entry_line, entries_text};

use crate::workers::Answers;
use krb_der::OutOfMemory;
use krb_machine::{Reply, end_line};
use krb_replay::Verdict;
use krb_shared::Entry;
use std::alloc::Global;
use std::thread::{Threads, join};

fn verdict_name(verdict: Verdict) -> &'static str
    ensures { result.now ≡ verdict_name verdict }
{
    match verdict {
        Verdict::Admitted => "Admitted",
        Verdict::Skew => "Skew",
        Verdict::NotYet => "NotYet",
        Verdict::Expired => "Expired",
        Verdict::Replayed => "Replayed",
    }
}

/// Appends one reply.
fn put_reply(
    alloc: Global,
    text: &mut String,
    worker: u32,
    number: u64,
    reply: &Reply,
) -> Result<(), OutOfMemory>
    ensures { OnOk result (string_bytes text.new ≡ string_bytes text.old ++ worker_line worker number reply.now) }
{
    let line = reply.line(alloc)?;
    let whole = format!(in alloc; "w {worker} {number} {line}")?;
    text.push_str(&whole)?;
    Ok(())
}

/// Appends a worker's replies, with the numbers of their events.
fn put_replies(
    alloc: Global,
    text: &mut String,
    worker: u32,
    numbers: &[u64],
    replies: &[Reply],
) -> Result<(), OutOfMemory>
    requires { length numbers.now ≡ length replies.now }
    ensures { OnOk result (string_bytes text.new ≡ string_bytes text.old ++ worker_text worker numbers.now replies.now) }
{
    for index in 0..replies.len() {
        put_reply(alloc, text, worker, numbers[index], &replies[index])?;
    }
    Ok(())
}

/// Returns a worker's replies as text.
fn replies_text(
    alloc: Global,
    worker: u32,
    numbers: &[u64],
    replies: &[Reply],
) -> Result<String, OutOfMemory>
    requires { length numbers.now ≡ length replies.now }
    ensures { IfOk result (λ text. string_bytes text ≡ worker_text worker numbers.now replies.now) }
{
    let mut text = String::new(alloc);
    put_replies(alloc, &mut text, worker, numbers, replies)?;
    Ok(text)
}

/// Returns the replies of both workers as text, each made in its own thread.
fn texts_in_threads<R: Threads>(
    rt: &R,
    alloc: Global,
    low: &[u64],
    high: &[u64],
    answers: &Answers,
) -> Result<(String, String), OutOfMemory>
    requires low { length low.now ≡ length answers.now.one.value.replies.items }
    requires high { length high.now ≡ length answers.now.two.value.replies.items }
    ensures first { IfOk result (λ texts. string_bytes texts.0 ≡ worker_text 0 low.now answers.now.one.value.replies.items) }
    ensures second { IfOk result (λ texts. string_bytes texts.1 ≡ worker_text 1 high.now answers.now.two.value.replies.items) }
{
    let (first, second) = join(
        rt,
        || -> Result<String, OutOfMemory>
            requires { length low.now ≡ length answers.now.one.value.replies.items }
            ensures { IfOk result (λ text. string_bytes text ≡ worker_text 0 low.entry.now answers.entry.now.one.value.replies.items) }
        { replies_text(alloc, 0, low, &answers.one.replies) },
        || -> Result<String, OutOfMemory>
            requires { length high.now ≡ length answers.now.two.value.replies.items }
            ensures { IfOk result (λ text. string_bytes text ≡ worker_text 1 high.entry.now answers.entry.now.two.value.replies.items) }
        { replies_text(alloc, 1, high, &answers.two.replies) },
    );
    let first = first?;
    Ok((first, second?))
}

/// Appends one entry of the journal.
fn put_entry(alloc: Global, text: &mut String, place: u64, entry: &Entry) -> Result<(), OutOfMemory>
    ensures { OnOk result (string_bytes text.new ≡ string_bytes text.old ++ entry_line place entry.now) }
{
    let seat = entry.seat;
    let call = entry.call;
    let verdict = verdict_name(entry.verdict);
    let whole = format!(in alloc; "j {place} {seat} {call} {verdict}\n")?;
    text.push_str(&whole)?;
    Ok(())
}

/// Appends the journal.
fn put_entries(alloc: Global, text: &mut String, entries: &[Entry]) -> Result<(), OutOfMemory>
    ensures { OnOk result (string_bytes text.new ≡ string_bytes text.old ++ entries_text 1 entries.now) }
{
    for index in 0..entries.len() {
        put_entry(alloc, text, index as u64 + 1, &entries[index])?;
    }
    Ok(())
}

/// Returns how many of the replies admit their peer.
fn admissions(replies: &[Reply]) -> u64
    ensures count { result ≡ admissions replies.now }
    ensures few { result ≤ length replies.now }
{
    let mut count = 0;
    for index in 0..replies.len() {
        if replies[index].admits_peer() {
            count += 1;
        }
    }
    count
}

/// Returns the whole text.
pub fn text_of<R: Threads>(
    rt: &R,
    alloc: Global,
    low: &[u64],
    high: &[u64],
    answers: &Answers,
) -> Result<String, OutOfMemory>
    requires low { length low.now ≡ length answers.now.one.value.replies.items }
    requires high { length high.now ≡ length answers.now.two.value.replies.items }
    ensures { IfOk result (λ text. string_bytes text
        ≡ worker_text 0 low.now answers.now.one.value.replies.items ++ worker_text 1 high.now answers.now.two.value.replies.items ++ entries_text 1 answers.now.journal.entries
        ++ end_line (admissions answers.now.one.value.replies.items + admissions answers.now.two.value.replies.items) answers.now.journal.kept) }
{
    let (mut text, second) = texts_in_threads(rt, alloc, low, high, answers)?;
    text.push_str(&second)?;
    put_entries(alloc, &mut text, answers.journal.entries.as_slice())?;
    let admitted = admissions(&answers.one.replies) + admissions(&answers.two.replies);
    text.push_str(end_line(admitted, answers.journal.kept).as_str())?;
    Ok(text)
}
