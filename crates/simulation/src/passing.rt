//! Packets that are passed between the two ends of a run and are not recorded, so that millions can pass.
ghost use Rattle.std.specs.Prelude.{◌≡◌, replicate};
ghost use Rattle.cipher.specs.Cipher.{E};
ghost use Rattle.simulation.specs.Passed.{passed_between};

use crate::run::Run;
use cipher::BlockCipher;
use runs::{FobSide, MixerSide};
use sessions::Pair;

impl<C: BlockCipher, K, L> Run<C, K, L> {
    /// Passes the same payload back and forth between two open ends, at most `count` times: how many times it came through.
    /// None of the packets is recorded. Where not both ends are open, nothing happens.
    pub fn pass(self, payload: &[u8], count: u32) -> (Run<C, K, L>, u32)
        ensures value { result.1 ≡ (passed_between C.BlockCipher.protocol (E C.BlockCipher.schedule C.BlockCipher.worked) self.fob self.mixer (replicate count payload.now)).count }
        ensures fob { result.0.fob ≡ (passed_between C.BlockCipher.protocol (E C.BlockCipher.schedule C.BlockCipher.worked) self.fob self.mixer (replicate count payload.now)).fob }
        ensures mixer { result.0.mixer ≡ (passed_between C.BlockCipher.protocol (E C.BlockCipher.schedule C.BlockCipher.worked) self.fob self.mixer (replicate count payload.now)).mixer }
        ensures log { result.0.log ≡ self.log }
    {
        let Run { fob, mixer, log } = self;
        match (fob, mixer) {
            (FobSide::Open(fob, fob_ticket), MixerSide::Open(mixer, mixer_ticket)) => {
                let mut pair = Pair {
                    fob,
                    fob_ticket,
                    mixer,
                    mixer_ticket,
                };
                let passed = pair.pass(payload, count);
                let Pair {
                    fob,
                    fob_ticket,
                    mixer,
                    mixer_ticket,
                } = pair;
                let run = Run {
                    fob: FobSide::Open(fob, fob_ticket),
                    mixer: MixerSide::Open(mixer, mixer_ticket),
                    log,
                };
                (run, passed)
            }
            (fob, mixer) => {
                let run = Run { fob, mixer, log };
                (run, 0)
            }
        }
    }
}
