//! A script over a database whose index is a list.
use crate::command_line::Words;
use anyhow::{Context, Result, bail};
use legs::{Limits, ListIndex};
use outputs::CountedOutput;
use std::hash::RandomState;
use std::{fs, io, mem};
use trajdb::{Core, Files};

/// The files that the words name.
fn files(rt: &HostRuntime, mut words: Words) -> Result<Files> {
    let mut files = Files::new(rt.alloc());
    for _ in 0..u64::MAX {
        let Some(name) = words.next() else {
            break;
        };
        let bytes = fs::read(rt, name.as_str())?;
        files.add(name.as_str(), bytes)?;
    }
    Ok(files)
}

/// A database without legs.
fn empty(rt: &HostRuntime) -> Result<Core<ListIndex>> {
    let alloc = rt.alloc();
    let Ok(keys) = RandomState::new(rt) else {
        bail!("no keys");
    };
    let limits = Limits::new(1 << 24, 1 << 20).context("no limits")?;
    let Ok(core) = Core::new(alloc, keys, ListIndex::new(alloc), limits, true) else {
        bail!("no memory");
    };
    Ok(core)
}

/// `SCRIPT FILES`: prints the answers.
pub(crate) fn run(rt: &HostRuntime, mut words: Words) -> Result<()> {
    let script = fs::read(rt, words.text("script")?.as_str())?;
    let files = files(rt, words)?;
    let mut core = empty(rt)?;
    let mut printer = io::writer(rt);
    let mut output = CountedOutput::new(&mut printer);
    core.run(rt.alloc(), script.as_slice(), &files, &mut output)?;
    mem::forget(core);
    Ok(())
}
