//! The calls of a script, made one after another.
use crate::changes::{Trouble, counted};
use crate::lines::Numbered;
use crate::report::{AtLine, Named};
use crate::stage::Stage;
use crate::{report, summary};
use channel::{Fob, Mixer};
use cipher::BlockCipher;
use ends::Both;
use keyed::Identities;
use lookup::KeyLookup;
use script::Statement;
use simulation::{Call, Outcome, Run};

/// Makes a fob and a mixer, goes through the script, and tells what both ends hold at its end.
pub(crate) fn drive<C: BlockCipher, K: KeyLookup + Drop, L: KeyLookup + Drop>(
    rt: &HostRuntime,
    script: &[Numbered],
    ids: Both<Identities>,
    fob_key: K,
    mixer_key: L,
) -> anyhow::Result<()> {
    let heap = rt.alloc();
    let fob = Fob::<C>::new(ids.fob);
    let mixer = Mixer::<C>::new(ids.mixer);
    let run = Run::new(heap, fob, fob_key, mixer, mixer_key);
    let mut stage = Stage::new(heap);
    let (run, gone) = go_through(rt, run, script, &mut stage);
    let shown = gone.and_then(|()| summary::show(rt, &run, stage.passed));
    let _log = run.end();
    shown
}

/// Goes through the statements, up to the first that cannot be carried out.
fn go_through<C: BlockCipher, K: KeyLookup + Drop, L: KeyLookup + Drop>(
    rt: &HostRuntime,
    mut run: Run<C, K, L>,
    script: &[Numbered],
    stage: &mut Stage,
) -> (Run<C, K, L>, anyhow::Result<()>) {
    for numbered in script {
        let (next, done) = carry_out(rt, run, numbered, stage);
        run = next;
        if done.is_err() {
            return (run, done);
        }
    }
    (run, Ok(()))
}

/// Carries out one statement.
fn carry_out<C: BlockCipher, K: KeyLookup + Drop, L: KeyLookup + Drop>(
    rt: &HostRuntime,
    run: Run<C, K, L>,
    numbered: &Numbered,
    stage: &mut Stage,
) -> (Run<C, K, L>, anyhow::Result<()>) {
    let line = numbered.line;
    match &numbered.statement {
        Statement::Call { who, call } => {
            let named = Named {
                line,
                end: *who,
                call,
            };
            one_call(rt, run, named, stage)
        }
        Statement::Pass { count, size } => pass(rt, run, line, *count, *size, stage),
        other => {
            let taken = stage.take_up(other);
            let done = taken.or_else(|trouble| report::stopped(rt, AtLine(line), trouble));
            (run, done)
        }
    }
}

/// Makes one call of the script and shows what it came to.
fn one_call<C: BlockCipher, K: KeyLookup + Drop, L: KeyLookup + Drop>(
    rt: &HostRuntime,
    run: Run<C, K, L>,
    named: Named<'_>,
    stage: &mut Stage,
) -> (Run<C, K, L>, anyhow::Result<()>) {
    let call = match stage.prepare(rt.alloc(), named.role(), named.call) {
        Ok(call) => call,
        Err(trouble) => return (run, report::stopped(rt, named, trouble)),
    };
    let before = run.log().len();
    let (run, made) = make(run, call);
    let done = match made {
        Ok(outcome) => {
            let entered = run.log().get(before..).unwrap_or(&[]);
            report::show(rt, named, outcome, entered, &mut stage.air)
        }
        Err(trouble) => report::stopped(rt, named, trouble),
    };
    (run, done)
}

/// Makes a call of the run, which is the only way that a script moves its two ends, but for `pass`.
fn make<C: BlockCipher, K: KeyLookup + Drop, L: KeyLookup + Drop>(
    run: Run<C, K, L>,
    call: Call,
) -> (Run<C, K, L>, Result<Outcome, Trouble>) {
    let (run, made) = run.make(call);
    (run, made.map_err(Trouble::from))
}

/// Passes packets back and forth and tells how many came through.
fn pass<C: BlockCipher, K: KeyLookup + Drop, L: KeyLookup + Drop>(
    rt: &HostRuntime,
    run: Run<C, K, L>,
    line: u64,
    count: u32,
    size: u32,
    stage: &mut Stage,
) -> (Run<C, K, L>, anyhow::Result<()>) {
    let _unused = stage.take_changes(rt.alloc());
    let payload = match counted(rt.alloc(), size) {
        Ok(payload) => payload,
        Err(trouble) => return (run, report::stopped(rt, AtLine(line), trouble)),
    };
    let (run, passed) = run.pass(payload.as_slice(), count);
    let before = stage.passed.unwrap_or(0);
    stage.passed = Some(before.saturating_add(u64::from(passed)));
    (run, report::show_passed(rt, line, passed, count, size))
}
