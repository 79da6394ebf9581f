//! The lines of a script.
use anyhow::anyhow;
use script::Statement;
use text::ParseError;

/// A statement, and the number of its line.
#[derive(Drop)]
pub(crate) struct Numbered {
    pub(crate) line: u64,
    pub(crate) statement: Statement,
}

/// What was read so far, and how many lines could not be.
#[derive(Drop)]
struct Script {
    statements: Vec<Numbered>,
    unreadable: u64,
}

/// All statements of a script. Each line that cannot be read is told, and then no statement is given.
pub(crate) fn read(rt: &HostRuntime, text: &[u8]) -> anyhow::Result<Vec<Numbered>> {
    let mut script = Script {
        statements: Vec::new(rt.alloc()),
        unreadable: 0,
    };
    for (line, text) in (1u64..).zip(text.split(|b| *b == b'\n')) {
        script.add(rt, line, text)?;
    }
    let Script {
        statements,
        unreadable,
    } = script;
    match unreadable {
        0 => Ok(statements),
        1 => Err(anyhow!("\"one line was not understood: no call was made\"")),
        _ => Err(anyhow!("\"some lines were not understood: no call was made\"")),
    }
}

impl Script {
    /// Adds what a line holds, or tells that it cannot be read.
    fn add(&mut self, rt: &HostRuntime, line: u64, text: &[u8]) -> anyhow::Result<()> {
        match script::parse_line(rt.alloc(), text) {
            Ok(None) => {}
            Ok(Some(statement)) => self.statements.push(Numbered { line, statement })?,
            Err(ParseError::Unreadable(problem)) => {
                println!(rt; "line {line}: not understood, expected {problem}")?;
                self.unreadable = self.unreadable.saturating_add(1);
            }
            Err(ParseError::Memory(error)) => return Err(error.into()),
        }
        Ok(())
    }
}
