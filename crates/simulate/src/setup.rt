//! What both ends are made with: the statements before the first call.
use crate::drive::drive;
use crate::lines::Numbered;
use aes::Aes;
use anyhow::anyhow;
use cipher::BlockCipher;
use ends::Both;
use fault::Fault;
use keyed::Identities;
use lookup::bench::BenchKey;
use lookup::chip::ChipRecord;
use lookup::either::EitherKey;
use script::{CipherName, KeyText, Statement, Who};
use speck::Speck;

/// The identities of both ends, where the script gives none.
const DEFAULT_IDENTITIES: Identities = Identities {
    fob: [1; 10],
    mixer: [2; 10],
};

/// The own key that a script gives.
fn own_key(key: &KeyText) -> Result<EitherKey<'_>, Fault> {
    Ok(match key {
        KeyText::Bench(number) => EitherKey::Bench(BenchKey::new(*number)?),
        KeyText::Chip(octets) => EitherKey::Chip(ChipRecord::new(octets.as_slice())?),
    })
}

/// Whether a statement makes a call.
fn calls(statement: &Statement) -> bool {
    matches!(statement, Statement::Call { .. } | Statement::Pass { .. })
}

/// Whether a statement sets an end up.
fn sets_up(statement: &Statement) -> bool {
    matches!(
        statement,
        Statement::Cipher(_) | Statement::Identities { .. } | Statement::Key { .. }
    )
}

/// Sets both ends up as the script says, and makes its calls.
pub(crate) fn start(rt: &HostRuntime, script: &[Numbered]) -> anyhow::Result<()> {
    check_order(rt, script)?;
    match cipher_of(script) {
        CipherName::Aes => start_under::<Aes>(rt, script),
        CipherName::Speck => start_under::<Speck>(rt, script),
    }
}

/// The same under a cipher.
fn start_under<C: BlockCipher>(rt: &HostRuntime, script: &[Numbered]) -> anyhow::Result<()> {
    let fob_key = key_of(rt, script, Who::Fob)?;
    let ids = Both {
        fob: identities_of(script, Who::Fob),
        mixer: identities_of(script, Who::Mixer),
    };
    let mixer_key = key_of(rt, script, Who::Mixer)?;
    drive::<C, EitherKey<'_>, EitherKey<'_>>(rt, script, ids, fob_key, mixer_key)
}

/// No statement after the first call may set an end up.
fn check_order(rt: &HostRuntime, script: &[Numbered]) -> anyhow::Result<()> {
    let misplaced = script
        .iter()
        .skip_while(|numbered| !calls(&numbered.statement))
        .find(|numbered| sets_up(&numbered.statement));
    if let Some(Numbered { line, .. }) = misplaced {
        println!(rt; "line {line}: cipher, identities and keys stand before the first call")?;
        return Err(anyhow!("\"a statement stands in the wrong place: no call was made\""));
    }
    Ok(())
}

/// The cipher that is named last; AES if none is.
fn cipher_of(script: &[Numbered]) -> CipherName {
    script
        .iter()
        .filter_map(|numbered| match &numbered.statement {
            Statement::Cipher(name) => Some(*name),
            _ => None,
        })
        .last()
        .unwrap_or(CipherName::Aes)
}

/// The two identities that this end is made with, as they are given last.
fn identities_of(script: &[Numbered], end: Who) -> Identities {
    script
        .iter()
        .filter_map(|numbered| match &numbered.statement {
            Statement::Identities { who, fob, mixer } if *who == end => Some(Identities {
                fob: *fob,
                mixer: *mixer,
            }),
            _ => None,
        })
        .last()
        .unwrap_or(DEFAULT_IDENTITIES)
}

/// The key of this end, as the script gives it last.
fn key_of<'a>(rt: &HostRuntime, script: &'a [Numbered], end: Who) -> anyhow::Result<EitherKey<'a>> {
    let given = script
        .iter()
        .filter_map(|numbered| match &numbered.statement {
            Statement::Key { who, key } if *who == end => Some((numbered.line, key)),
            _ => None,
        })
        .last();
    let Some((line, key)) = given else {
        println!(rt; "the {end} has no key")?;
        return Err(anyhow!("\"an end has no key: no call was made\""));
    };
    // Tried with `or_else`: the borrow check does not cover a closure whose result names a lifetime that its arguments do not.
    match own_key(key) {
        Ok(key) => Ok(key),
        Err(fault) => {
            println!(rt; "line {line}: key {end}: {fault}")?;
            Err(anyhow!("\"an own key cannot be made: no call was made\""))
        }
    }
}
