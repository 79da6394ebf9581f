//! What is changed for the next call alone, and what can be wrong with a statement.
use script::Statement;
use std::alloc::{AllocError, AllocFailed, Global};
use std::fmt;

/// The size of a workspace, where the script gives none.
const WORKSPACE: u32 = cipher::WORKSPACE as u32;

/// The size of an output, where the script gives none: the longest packet.
const OUTPUT: u32 = message::PACKET as u32;

/// Why a statement cannot be carried out.
#[derive(Clone, Copy)]
pub(crate) enum Trouble {
    NoLast,
    NoMessage,
    NothingToLose,
    BeyondMessage,
    GivenNone,
    Memory,
}

impl fmt::Display for Trouble {
    fn fmt<W: fmt::Write>(&self, f: &mut fmt::Formatter<W>) -> fmt::Result {
        f.write_str(match self {
            Trouble::NoLast => "no message of the other end is on the air",
            Trouble::NoMessage => "no message of this number was written",
            Trouble::NothingToLose => "no message was written that could be lost",
            Trouble::BeyondMessage => "the place to alter is not in the message",
            Trouble::GivenNone => "this call is given no message that could be changed",
            Trouble::Memory => "not enough memory",
        })
    }
}

impl From<AllocError> for Trouble {
    fn from(_e: AllocError) -> Trouble {
        Trouble::Memory
    }
}

impl<T: Drop> From<AllocFailed<T>> for Trouble {
    fn from(_e: AllocFailed<T>) -> Trouble {
        Trouble::Memory
    }
}

/// One octet, put onto the octet at a place by exclusive or.
#[derive(Clone, Copy)]
pub(crate) struct Alter {
    pub(crate) place: u32,
    pub(crate) mask: u8,
}

/// What the next call is given in place of a whole message and of buffers of full size.
#[derive(Drop)]
pub(crate) struct Changes {
    pub(crate) cut: Option<u32>,
    pub(crate) alters: Vec<Alter>,
    pub(crate) append: Vec<u8>,
    pub(crate) workspace: u32,
    pub(crate) output: u32,
}

impl Changes {
    /// Nothing is changed.
    pub(crate) fn new(heap: Global) -> Changes {
        Changes {
            cut: None,
            alters: Vec::new(heap),
            append: Vec::new(heap),
            workspace: WORKSPACE,
            output: OUTPUT,
        }
    }

    /// Takes up a statement that changes what the next call is given.
    pub(crate) fn take_up(&mut self, statement: &Statement) -> Result<(), Trouble> {
        match statement {
            Statement::Cut(size) => self.cut = Some(*size),
            Statement::Alter { place, mask } => {
                let (place, mask) = (*place, *mask);
                self.alters.push(Alter { place, mask })?;
            }
            Statement::Append(octets) => self.append.extend_from_slice(octets.as_slice())?,
            Statement::Workspace(size) => self.workspace = *size,
            Statement::Output(size) => self.output = *size,
            _ => {}
        }
        Ok(())
    }

    /// Whether the message of the next call is changed.
    pub(crate) fn touch_message(&self) -> bool {
        self.cut.is_some() || !self.alters.is_empty() || !self.append.is_empty()
    }

    /// A message as it arrives: cut, then altered, then with octets added.
    pub(crate) fn arrives(&self, heap: Global, octets: &[u8]) -> Result<Vec<u8>, Trouble> {
        let mut message = Vec::from_slice(heap, octets)?;
        if let Some(size) = self.cut {
            message.truncate(size as usize);
        }
        for Alter { place, mask } in self.alters.iter() {
            put_on(message.as_mut_slice(), *place as usize, *mask)?;
        }
        message.extend_from_slice(self.append.as_slice())?;
        Ok(message)
    }
}

/// Puts a mask onto one octet.
fn put_on(message: &mut [u8], place: usize, mask: u8) -> Result<(), Trouble> {
    let octet = message.get_mut(place).ok_or(Trouble::BeyondMessage)?;
    *octet ^= mask;
    Ok(())
}

/// So many zeros, as a buffer to be lent.
pub(crate) fn buffer(heap: Global, size: u32) -> Result<Vec<u8>, Trouble> {
    Ok(vec![in heap; 0; size as usize]?)
}

/// So many octets 0, 1, 2 and so on, and after 255 from 0 again.
pub(crate) fn counted(heap: Global, size: u32) -> Result<Vec<u8>, Trouble> {
    let mut octets = buffer(heap, size)?;
    for (place, octet) in octets.iter_mut().enumerate() {
        *octet = (place % 256) as u8;
    }
    Ok(octets)
}
