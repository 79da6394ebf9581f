//! A session, compared: its keys, its labels and secrets, and what both ends write and read.
use crate::replay::replay;
use crate::unreadable;
use aes::Aes;
use cipher::BlockCipher;
use recorded::{Session, Suite, Tally};
use speck::Speck;

/// A session that is compared, with its number in the file, and the tally that it goes into.
#[derive(Drop)]
pub(crate) struct Comparison<'a> {
    pub(crate) rt: &'a HostRuntime,
    pub(crate) number: usize,
    pub(crate) session: &'a Session,
    pub(crate) tally: &'a mut Tally,
}

impl Comparison<'_> {
    /// Compares the session under its cipher.
    pub(crate) fn run(&mut self) -> anyhow::Result<()> {
        match self.session.suite {
            Suite::Aes => self.run_under::<Aes>(),
            Suite::Speck => self.run_under::<Speck>(),
        }
    }

    fn run_under<C: BlockCipher>(&mut self) -> anyhow::Result<()> {
        self.report("keys", self.session.keys_agree::<C>())?;
        let labels = self.session.labels().map_err(unreadable)?;
        self.report("labels and secrets", self.session.secrets_agree(&labels))?;
        self.compare_ends::<C>()
    }

    /// Takes the session through both ends.
    fn compare_ends<C: BlockCipher>(&mut self) -> anyhow::Result<()> {
        if let Err(difference) = replay::<C>(self.session) {
            let what = format!(in self.rt.alloc(); "both ends, {difference}")?;
            return self.report(what.as_str(), false);
        }
        let packets = self.session.packets.len();
        let what = format!(in self.rt.alloc();
            "both ends, 4 handshake messages, {packets} packets"
        )?;
        self.report(what.as_str(), true)
    }

    /// Writes the line of what was compared.
    fn report(&mut self, what: &str, agrees: bool) -> anyhow::Result<()> {
        let number = self.number;
        let word = self.tally.count(agrees);
        println!(self.rt; "session {number} {what}: {word}")?;
        Ok(())
    }
}
