//! The messages on the air.
use crate::changes::{Changes, Trouble};
use channel::Role;
use script::Source;
use std::alloc::Global;

/// A message as it was written.
#[derive(Drop)]
struct Written {
    /// the end that wrote it; none once the message is lost
    from: Option<Role>,
    octets: Vec<u8>,
}

/// All messages that were written, the first one first.
#[derive(Drop)]
pub(crate) struct Air {
    messages: Vec<Written>,
}

impl Air {
    /// No message yet.
    pub(crate) fn new(heap: Global) -> Air {
        Air {
            messages: Vec::new(heap),
        }
    }

    /// Takes a message that an end wrote, and gives its number, the first being 1.
    pub(crate) fn write(&mut self, by: Role, octets: Vec<u8>) -> Result<usize, Trouble> {
        self.messages.push(Written {
            from: Some(by),
            octets,
        })?;
        Ok(self.messages.len())
    }

    /// The message of this number.
    pub(crate) fn numbered(&self, number: usize) -> Option<&[u8]> {
        let place = number.checked_sub(1)?;
        let Written { octets, .. } = self.messages.get(place)?;
        Some(octets.as_slice())
    }

    /// The last message that was written is lost.
    pub(crate) fn lose_last(&mut self) -> Result<(), Trouble> {
        let last = self.messages.last_mut().ok_or(Trouble::NothingToLose)?;
        last.from = None;
        Ok(())
    }

    /// The last message that the other end wrote and that is not lost.
    fn last_for(&self, reader: Role) -> Option<&[u8]> {
        let mut latest_first = self.messages.iter().rev();
        let last = latest_first.find(|written| written.from.is_some_and(|by| by != reader))?;
        Some(last.octets.as_slice())
    }

    /// The message that a source stands for, as it arrives at its reader.
    pub(crate) fn deliver(
        &self,
        heap: Global,
        reader: Role,
        source: &Source,
        changes: &Changes,
    ) -> Result<Vec<u8>, Trouble> {
        let octets = match source {
            Source::Octets(octets) => octets.as_slice(),
            Source::Last => self.last_for(reader).ok_or(Trouble::NoLast)?,
            Source::Message(number) => {
                self.numbered(*number as usize).ok_or(Trouble::NoMessage)?
            }
        };
        changes.arrives(heap, octets)
    }
}
