//! What stands between the calls: the messages on the air, the nonces, and what is changed for the next call.
use crate::air::Air;
use crate::changes::{Changes, Trouble, buffer, counted};
use channel::Role;
use ends::Both;
use script::{Payload, Source, Statement, Who};
use simulation::{Call, Given};
use std::alloc::Global;
use std::mem;

/// Where the script has come to, besides the two ends.
#[derive(Drop)]
pub(crate) struct Stage {
    pub(crate) air: Air,
    changes: Changes,
    nonces: Both<[u8; 12]>,
    /// how many packets were passed back and forth, if any were to be
    pub(crate) passed: Option<u64>,
}

impl Stage {
    /// Nothing written, nothing changed, and the nonces of a script that gives none.
    pub(crate) fn new(heap: Global) -> Stage {
        Stage {
            air: Air::new(heap),
            changes: Changes::new(heap),
            nonces: Both {
                fob: [0x0a; 12],
                mixer: [0x0b; 12],
            },
            passed: None,
        }
    }

    /// Takes up a statement that makes no call. What sets an end up was taken up before.
    pub(crate) fn take_up(&mut self, statement: &Statement) -> Result<(), Trouble> {
        match statement {
            Statement::Nonce { who, octets } => match who {
                Who::Fob => self.nonces.fob = *octets,
                Who::Mixer => self.nonces.mixer = *octets,
            },
            Statement::Lose => self.air.lose_last()?,
            other => self.changes.take_up(other)?,
        }
        Ok(())
    }

    /// The changes for the call that is made now; the next one has none.
    pub(crate) fn take_changes(&mut self, heap: Global) -> Changes {
        mem::replace(&mut self.changes, Changes::new(heap))
    }

    /// A call of the script, with all that is handed to it and lent to it.
    pub(crate) fn prepare(
        &mut self,
        heap: Global,
        by: Role,
        call: &script::Call,
    ) -> Result<Call, Trouble> {
        let changes = self.take_changes(heap);
        let input = match source_of(call) {
            Some(source) => self.air.deliver(heap, by, source, &changes)?,
            None if changes.touch_message() => return Err(Trouble::GivenNone),
            None => payload_of(heap, call)?,
        };
        let workspace = buffer(heap, changes.workspace)?;
        let output = buffer(heap, changes.output)?;
        let given = Given {
            input,
            workspace,
            output,
        };
        Ok(self.hand_over(by, call, given))
    }

    /// The call with what it takes of all this.
    fn hand_over(&self, by: Role, call: &script::Call, given: Given) -> Call {
        match call {
            script::Call::Invite => Call::Invite {
                nonce: self.nonces.fob,
                output: given.output,
            },
            script::Call::Answer(_) => Call::Answer {
                nonce: self.nonces.mixer,
                given,
            },
            script::Call::Prove(_) => Call::Prove(given),
            script::Call::Confirm(_) => Call::Confirm(given),
            script::Call::Finish(_) => Call::Finish {
                message: given.input,
                workspace: given.workspace,
            },
            script::Call::Seal(_) => Call::Seal { by, given },
            script::Call::Unseal(_) => Call::Unseal { by, given },
            script::Call::Close => Call::Close { by },
        }
    }
}

/// The source of the message that a call is given, if it is given one.
fn source_of(call: &script::Call) -> Option<&Source> {
    match call {
        script::Call::Answer(source)
        | script::Call::Prove(source)
        | script::Call::Confirm(source)
        | script::Call::Finish(source)
        | script::Call::Unseal(source) => Some(source),
        script::Call::Invite | script::Call::Seal(_) | script::Call::Close => None,
    }
}

/// The octets that a call seals; none where it seals nothing.
fn payload_of(heap: Global, call: &script::Call) -> Result<Vec<u8>, Trouble> {
    let script::Call::Seal(payload) = call else {
        return Ok(Vec::new(heap));
    };
    match payload {
        Payload::Octets(octets) => Ok(Vec::from_slice(heap, octets.as_slice())?),
        Payload::Count(size) => counted(heap, *size),
    }
}
