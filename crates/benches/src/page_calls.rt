//! Calls of `pages` and `pagecache`, many of one kind.
ghost use Rattle.std.specs.Prelude.{◌<◌};

use crate::command_line::Words;
use anyhow::{Result, bail};
use pagecache::PageCache;
use pages::{FileStore, Kind, MemStore, PageStore, Payload, seal, unseal};
use sha2::{Digest, Sha256};
use std::alloc::Global;
use std::fs::File;
use std::rt::Files;

const FILE: &str = "pages.mftb";

fn payload() -> Payload {
    let mut payload = Payload::zero(Kind::Leaf);
    payload.bytes[100] = 7;
    payload
}

fn digests(count: u32) -> u64 {
    let page = seal(5, &payload());
    let mut sum = 0u64;
    for _ in 0..count {
        let (front, _) = page.split_at(4064);
        let digest: [u8; 32] = Sha256::digest(front);
        sum = sum.wrapping_add(u64::from(digest[0]));
    }
    sum
}

fn seals(count: u32) -> u64 {
    let payload = payload();
    let mut sum = 0u64;
    for number in 0..count {
        sum = sum.wrapping_add(u64::from(seal(number, &payload)[4095]));
    }
    sum
}

fn unseals(count: u32) -> u64 {
    let page = seal(5, &payload());
    let mut sum = 0u64;
    for _ in 0..count {
        if let Ok(payload) = unseal(5, &page) {
            sum = sum.wrapping_add(u64::from(payload.bytes[100]));
        }
    }
    sum
}

fn file_writes<R: Files<File = File>>(rt: &R, count: u32) -> Result<u64> {
    let mut store = FileStore::open(rt, FILE)?;
    let page = seal(5, &payload());
    for number in 0..count {
        let number = number % 10_000;
        if number <= store.len() && number < store.most() {
            store.write(number, &page)?;
        }
    }
    Ok(u64::from(store.len()))
}

fn file_reads<R: Files<File = File>>(rt: &R, count: u32) -> Result<u64> {
    let mut store = FileStore::open(rt, FILE)?;
    let mut page = [0; 4096];
    let mut sum = 0u64;
    for number in 0..count {
        let number = number % 10_000;
        if number < store.len() {
            store.read(number, &mut page)?;
            sum = sum.wrapping_add(u64::from(page[108]));
        }
    }
    Ok(sum)
}

/// A cache of some pages in memory over a store of some pages in memory.
fn cache(alloc: Global, capacity: usize, pages: u32) -> Result<PageCache<MemStore>>
    requires { 0 < capacity }
{
    let Ok(mut cache) = PageCache::new(alloc, MemStore::new(alloc, u32::MAX), capacity) else {
        bail!("out of memory");
    };
    for _ in 0..pages {
        cache.add_page(Kind::Leaf)?;
    }
    cache.flush()?;
    Ok(cache)
}

/// Asks for pages in turn.
fn asks(alloc: Global, capacity: usize, pages: u32, count: u32) -> Result<u64>
    requires some { 0 < capacity }
    requires turn { 0 < pages }
{
    let mut cache = cache(alloc, capacity, pages)?;
    let mut sum = 0u64;
    for number in 0..count {
        sum = sum.wrapping_add(u64::from(cache.page(number % pages)?.bytes[100]));
    }
    Ok(sum.wrapping_add(cache.asked()))
}

/// Writes to pages in turn.
fn writes(alloc: Global, capacity: usize, pages: u32, count: u32) -> Result<u64>
    requires some { 0 < capacity }
    requires turn { 0 < pages }
{
    let mut cache = cache(alloc, capacity, pages)?;
    for number in 0..count {
        cache.page_mut(number % pages)?.bytes[100] = 9;
    }
    Ok(cache.asked())
}

/// Adds pages.
fn adds(alloc: Global, count: u32) -> Result<u64> {
    Ok(u64::from(cache(alloc, 16, count)?.count()))
}

fn measured<R: Files<File = File>>(rt: &R, alloc: Global, kind: &str, count: u32) -> Result<u64> {
    match kind {
        "digest" => Ok(digests(count)),
        "seal" => Ok(seals(count)),
        "unseal" => Ok(unseals(count)),
        "file-write" => file_writes(rt, count),
        "file-read" => file_reads(rt, count),
        "same" => asks(alloc, 16, 1, count),
        "held" => asks(alloc, 16, 16, count),
        "held-256" => asks(alloc, 256, 256, count),
        "missed" => asks(alloc, 1, 2, count),
        "held-mut" => writes(alloc, 16, 16, count),
        "written-back" => writes(alloc, 1, 2, count),
        "added" => adds(alloc, count),
        _ => bail!("no such kind"),
    }
}

/// `CALL COUNT`: prints a sum of bytes that the calls gave.
pub(crate) fn run(rt: &HostRuntime, mut words: Words) -> Result<()> {
    let kind = words.text("call")?;
    let count = words.number("count")?;
    let sum = measured(rt, rt.alloc(), kind.as_str(), count)?;
    println!(rt; "{sum}")?;
    Ok(())
}
