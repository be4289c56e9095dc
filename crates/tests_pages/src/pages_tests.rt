//! Worked pages, their digests from another program; stores that fail; files.
use pages::*;
use std::alloc::{AllocError, Global};
use std::test::Fail;
use std::{fs, io};

/// The SHA-256 of the first 4,064 bytes of `worked_page`, as Python's `hashlib` gives it.
const DIGEST: [u8; 32] = [
    0x0b, 0x20, 0xfc, 0x0d, 0x33, 0x58, 0xab, 0x83, 0x6c, 0x74, 0x50, 0xa1, 0x22, 0x38, 0x99, 0x5e,
    0x90, 0x89, 0x85, 0x15, 0x81, 0x41, 0xa5, 0x76, 0xa0, 0xd9, 0xf9, 0x5f, 0xf0, 0x0e, 0xcb, 0x0f,
];

/// The payload of a leaf whose first two bytes are 1 and 2, and whose last one is 255.
fn worked_payload() -> Payload {
    let mut payload = Payload::zero(Kind::Leaf);
    payload.bytes[0] = 1;
    payload.bytes[1] = 2;
    payload.bytes[4055] = 255;
    payload
}

/// That payload as page 5, written by hand from the layout.
fn worked_page() -> [u8; 4096] {
    let mut page = [0; 4096];
    page[3] = 5;
    page[4] = 2;
    page[8] = 1;
    page[9] = 2;
    page[4063] = 255;
    page[4064..].copy_from_slice(&DIGEST);
    page
}

#[test]
fn a_page_is_its_layout(rt: HostRuntime) {
    assert!(rt; seal(5, &worked_payload()) == worked_page());
    assert!(rt; unseal(5, &worked_page()) == Ok(worked_payload()));
    assert!(rt; unseal(6, &worked_page()) == Err(PageFault::Damaged(6)));
}

/// Whether a page with one of its bytes changed is refused, for each byte.
fn refuses_each_change(mut page: [u8; 4096]) -> bool {
    for place in 0..4096 {
        let byte = page[place];
        page[place] = byte ^ 1;
        if unseal(5, &page).is_ok() {
            return false;
        }
        page[place] = byte;
    }
    true
}

#[test]
fn each_byte_counts(rt: HostRuntime) {
    assert!(rt; refuses_each_change(worked_page()));
}

#[test]
fn faults_print_sentences(rt: HostRuntime) -> Result<(), Fail> {
    let store = StoreFault.to_string(rt.alloc())?;
    let page = PageFault::Damaged(7).to_string(rt.alloc())?;
    assert_eq!(rt; store.as_str(), "the page store failed");
    assert_eq!(rt; page.as_str(), "page 7 is damaged");
    Ok(())
}

/// Writes a page where the store has room for it, and says whether the store took it.
fn put<S: PageStore>(store: &mut S, number: u32, page: &[u8; 4096]) -> bool {
    number <= store.len() && number < store.most() && store.write(number, page).is_ok()
}

/// A page as it is read; `None` where it is not there or the store fails.
fn got<S: PageStore>(store: &mut S, number: u32) -> Option<[u8; 4096]> {
    let mut page = [0; 4096];
    if number < store.len() && store.read(number, &mut page).is_ok() {
        Some(page)
    } else {
        None
    }
}

/// Which of four calls a fuse passes: a write of page 0, which is there, a write of page 1, a read
/// of page 0, and a `sync`.
fn passes(alloc: Global, calls: u64, once: bool) -> [bool; 4] {
    let mut store = MemStore::new(alloc, 3);
    let page = worked_page();
    let _ = put(&mut store, 0, &page);
    let mut fuse = Fuse::new(store, calls, once);
    let first = put(&mut fuse, 0, &page);
    let second = put(&mut fuse, 1, &page);
    let third = got(&mut fuse, 0).is_some();
    [first, second, third, fuse.sync().is_ok()]
}

/// How many calls pass, whether one alone fails, and which of the four pass.
const PASSES: [(u64, bool, [bool; 4]); 6] = [
    (0, true, [false, true, true, true]),
    (1, true, [true, false, true, true]),
    (2, true, [true, true, false, true]),
    (0, false, [false, false, false, false]),
    (1, false, [true, false, false, false]),
    (2, false, [true, true, false, false]),
];

#[test]
fn a_fuse_fails_after_some_calls(rt: HostRuntime) {
    for (calls, once, wanted) in PASSES {
        let passed = passes(rt.alloc(), calls, once);
        assert!(rt; passed == wanted, "{calls}, {once}: {passed:?}");
    }
}

#[test]
fn no_sync_is_answered_once_one_failed(rt: HostRuntime) {
    let mut fuse = Fuse::new(MemStore::new(rt.alloc(), 3), 1, true);
    assert!(rt; fuse.sync() == Ok(()));
    assert!(rt; fuse.sync() == Err(StoreFault));
    assert!(rt; put(&mut fuse, 0, &worked_page()));
    assert!(rt; fuse.sync() == Err(StoreFault));
}

#[test]
fn a_write_that_a_fuse_fails_leaves_zero_bytes(rt: HostRuntime) {
    let mut store = MemStore::new(rt.alloc(), 3);
    assert!(rt; put(&mut store, 0, &worked_page()));
    let mut fuse = Fuse::new(store, 0, true);
    assert!(rt; !put(&mut fuse, 0, &worked_page()));
    assert!(rt; got(&mut fuse, 0) == Some([0; 4096]));
    let mut again = Fuse::new(fuse.into_inner(), 0, true);
    assert!(rt; !put(&mut again, 1, &worked_page()));
    assert!(rt; again.len() == 1 && again.most() == 3);
    assert!(rt; put(&mut again, 1, &worked_page()));
    assert!(rt; again.len() == 2);
}

/// Writes three sealed pages into a store without a page.
fn fill<F: ByteFile + Drop>(store: &mut FileStore<F>) -> bool {
    for number in 0..3u32 {
        let page = seal(number, &worked_payload());
        if store.len() != number || !put(store, number, &page) {
            return false;
        }
    }
    store.sync().is_ok()
}

/// Whether these pages are what a store holds.
fn holds<F: ByteFile + Drop>(store: &mut FileStore<F>) -> bool {
    for number in 0..3u32 {
        let page = got(store, number).unwrap_or([0; 4096]);
        if unseal(number, &page) != Ok(worked_payload()) {
            return false;
        }
    }
    store.len() == 3 && store.most() == u32::MAX
}

#[test]
fn pages_are_kept_in_a_file(rt: HostRuntime) -> Result<(), Fail> {
    let mut store = FileStore::open(&rt, "pages.mftb")?;
    assert!(rt; fill(&mut store));
    drop(store);
    let mut again = FileStore::open(&rt, "pages.mftb")?;
    assert!(rt; holds(&mut again));
    assert!(rt; FileStore::open(&rt, "no/such/folder").is_err());
    Ok(())
}

/// Two pages and a rest of 100 bytes.
fn two_and_a_rest(alloc: Global) -> Result<Vec<u8>, AllocError> {
    vec![in alloc; 7; 4096 * 2 + 100]
}

#[test]
fn a_rest_is_no_page(rt: HostRuntime) -> Result<(), Fail> {
    let bytes = two_and_a_rest(rt.alloc())?;
    fs::write(&rt, "rest.mftb", bytes.as_slice())?;
    let mut store = FileStore::open(&rt, "rest.mftb")?;
    assert!(rt; store.len() == 2);
    assert!(rt; put(&mut store, 2, &worked_page()));
    assert!(rt; store.len() == 3);
    assert!(rt; got(&mut store, 1) == Some([7; 4096]));
    assert!(rt; got(&mut store, 2) == Some(worked_page()));
    fs::write(&rt, "rest.mftb", bytes.as_slice())?;
    assert!(rt; got(&mut store, 2).is_none() && store.len() == 3);
    let store = FileStore::new(MemFile::new(bytes))?;
    assert!(rt; store.len() == 2);
    Ok(())
}

/// A file of that many bytes which fails each call but `len`.
#[derive(Drop)]
struct Broken {
    len: u64,
    refusals: Refusals,
}

ghost use Rattle.std.specs.Prelude.{IsErr};

/// A refusal.
fn refusal() -> io::Result<()>
    ensures { IsErr result }
{
    Err(io::Error::from(io::ErrorKind::Other))
}

impl ByteFile for Broken {
    ghost use Rattle.std.specs.Prelude.{true, None};

    ghost bytes = { λ _. None };

    ghost is_synced = { λ _. true };

    ghost refusals = { λ f. f.refusals };

    ghost has_lost = { λ _. true };

    fn len(&mut self) -> io::Result<u64> {
        Ok(self.len)
    }

    fn read_at(&mut self, _place: u64, _buf: &mut [u8]) -> io::Result<()> {
        self.refusals.count(refusal())
    }

    fn write_at(&mut self, _place: u64, _buf: &[u8]) -> io::Result<()> {
        self.refusals.count(refusal())
    }

    fn sync(&mut self) -> io::Result<()> {
        self.refusals.count(refusal())
    }
}

#[test]
fn a_file_that_fails(rt: HostRuntime) -> Result<(), Fail> {
    let mut store = FileStore::new(Broken {
        len: 4096,
        refusals: Refusals::none(),
    })?;
    assert!(rt; got(&mut store, 0).is_none());
    assert!(rt; !put(&mut store, 1, &worked_page()));
    assert!(rt; store.sync() == Err(StoreFault));
    assert!(rt; store.len() == 1);
    Ok(())
}
