//! What is told at the end of a script.
use channel::{Open, Role};
use cipher::BlockCipher;
use lookup::KeyLookup;
use runs::{FobSide, MixerSide};
use simulation::{Entry, Event, Run};
use std::alloc::{AllocError, Global};

/// Tells what came through in each direction, and what each end holds.
pub(crate) fn show<C: BlockCipher, K: KeyLookup + Drop, L: KeyLookup + Drop>(
    rt: &HostRuntime,
    run: &Run<C, K, L>,
    passed: Option<u64>,
) -> anyhow::Result<()> {
    println!(rt; "at the end:")?;
    print!(rt; "  fob to mixer: ")?;
    show_direction(rt, run.log(), Role::Fob)?;
    print!(rt; "  mixer to fob: ")?;
    show_direction(rt, run.log(), Role::Mixer)?;
    if let Some(passed) = passed {
        println!(rt; "  passed back and forth: {passed} packets, which are not among these")?;
    }
    show_end(rt, "fob", fob_state(run.fob()))?;
    show_end(rt, "mixer", mixer_state(run.mixer()))
}

/// The payloads that went one way: as one end sealed them, and as the other unsealed them.
#[derive(Drop)]
struct Direction<'a> {
    sealed: Vec<&'a [u8]>,
    unsealed: Vec<&'a [u8]>,
}

impl<'a> Direction<'a> {
    /// What the log tells of the payloads from this end.
    fn new(heap: Global, log: &'a [Entry], from: Role) -> Result<Direction<'a>, AllocError> {
        let mut sealed = Vec::new(heap);
        let mut unsealed = Vec::new(heap);
        for Entry { role, event } in log {
            match event {
                Event::Seals { payload, .. } if *role == from => sealed.push(payload.as_slice())?,
                Event::Unseals { payload, .. } if *role != from => {
                    unsealed.push(payload.as_slice())?
                }
                _ => {}
            }
        }
        Ok(Direction { sealed, unsealed })
    }

    /// Whether the payloads that came out are those that were sealed, one by one and in order.
    fn order(&self) -> &'static str {
        if !self.sealed.as_slice().starts_with(self.unsealed.as_slice()) {
            return "NOT in order";
        }
        match self.sealed.len().saturating_sub(self.unsealed.len()) {
            0 => "all",
            1 => "all but the last",
            _ => "NOT in order",
        }
    }
}

/// Tells how many payloads went from one end to the other, and whether they came out in order.
fn show_direction(rt: &HostRuntime, log: &[Entry], from: Role) -> anyhow::Result<()> {
    let direction = Direction::new(rt.alloc(), log, from)?;
    let (m, n) = (direction.sealed.len(), direction.unsealed.len());
    let order = direction.order();
    println!(rt; "{m} sealed, {n} unsealed: {order}")?;
    Ok(())
}

/// The fob where it is open, else the word for where its session is.
fn fob_state<C, K>(fob: &FobSide<C, K>) -> Result<&Open<C, K>, &'static str> {
    match fob {
        FobSide::Fresh(_, _) => Err("fresh"),
        FobSide::Invited(_) => Err("invited"),
        FobSide::Proved(_) => Err("proved"),
        FobSide::Open(end, _) => Ok(end),
        FobSide::Closed => Err("closed"),
    }
}

/// The mixer where it is open, else the word for where its session is.
fn mixer_state<C, L>(mixer: &MixerSide<C, L>) -> Result<&Open<C, L>, &'static str> {
    match mixer {
        MixerSide::Fresh(_, _) => Err("fresh"),
        MixerSide::Answered(_) => Err("answered"),
        MixerSide::Open(end, _) => Ok(end),
        MixerSide::Closed => Err("closed"),
    }
}

/// Tells what an end holds.
fn show_end<C: BlockCipher, K>(
    rt: &HostRuntime,
    name: &str,
    state: Result<&Open<C, K>, &'static str>,
) -> anyhow::Result<()> {
    match state {
        Ok(end) => {
            let (number, counter) = (end.number(), end.counter());
            println!(rt; "  {name}: open, number {number}, counter {counter:032x}")?;
        }
        Err(word) => println!(rt; "  {name}: {word}")?,
    }
    Ok(())
}
