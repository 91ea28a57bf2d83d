//! The events of an input, split between two workers.

ghost use Rattle.std.specs.Prelude.{◌≡◌, IfOk};
ghost use Rattle.krb_input.specs.Parted.{events_of, numbers_of};

use krb_der::OutOfMemory;
use krb_script::Event;
use std::alloc::Global;

/// Returns the events of worker 0 and those of worker 1, each in their order.
pub fn parted(alloc: Global, events: Vec<Event>) -> Result<(Vec<Event>, Vec<Event>), OutOfMemory>
    ensures low { IfOk result (λ parts. parts.0.items ≡ events_of 0 events.items) }
    ensures high { IfOk result (λ parts. parts.1.items ≡ events_of 1 events.items) }
{
    let mut low = Vec::new(alloc);
    let mut high = Vec::new(alloc);
    for event in events {
        if event.connection % 2 == 0 {
            low.push(event)?;
        } else {
            high.push(event)?;
        }
    }
    Ok((low, high))
}

/// Returns the numbers of a worker's events, counted from 1 over all events.
pub fn numbers(alloc: Global, events: &[Event], worker: u32) -> Result<Vec<u64>, OutOfMemory>
    ensures { IfOk result (λ numbers. numbers.items ≡ numbers_of worker events.now) }
{
    let mut numbers = Vec::new(alloc);
    for index in 0..events.len() {
        if events[index].connection % 2 == worker {
            numbers.push(index as u64 + 1)?;
        }
    }
    Ok(numbers)
}
