//! How long a file may be, the lines of faults, and a session over a store that fails.
use legs::Limits;
use outputs::CountedOutput;
use pages::{Fuse, MemStore};
use querylang::LineCode;
use sessions::{
    Cause, Fault, MOST_BYTES, MOST_FEATURES, MOST_LEGS, Named, Opening, RectsFault, answer,
    database, read_named,
};
use std::fs;
use std::hash::RandomState;
use std::test::Fail;
use trajdb::{Files, OpenFault, RunFault};

/// A file of one leg.
const WALK: &str = "\
@stboundedby,local,2D,,,2024-01-01T00:00:00Z,,sec
@columns,mfidref,trajectory
a,0,10,0 0 10 0
";

#[test]
fn a_file_that_is_too_long_is_not_read(rt: HostRuntime) -> Result<(), Fail> {
    fs::write(&rt, "five.txt", "12345")?;
    assert!(rt; read_named(&rt, Named::Script, "five.txt", 5)?.as_slice() == b"12345".as_slice());
    let too_long = Fault::CannotRead(Named::Script, Cause::TooLong);
    assert!(rt; read_named(&rt, Named::Script, "five.txt", 4).err() == Some(too_long));
    assert_eq!(rt; MOST_BYTES, 1_073_741_824);
    Ok(())
}

/// Faults, and the line of each.
const FAULTS: [(Fault, &str); 18] = [
    (Fault::Run(RunFault::Memory), "memory"),
    (Fault::Run(RunFault::Store), "store"),
    (Fault::Run(RunFault::Damaged(7)), "page 7 damaged"),
    (Fault::Run(RunFault::StoreFull), "store full"),
    (Fault::Run(RunFault::Failed), "failed"),
    (Fault::Run(RunFault::Output), "output"),
    (Fault::Open(OpenFault::Memory), "memory"),
    (Fault::Open(OpenFault::Store), "store"),
    (Fault::Open(OpenFault::Damaged(7)), "page 7 damaged"),
    (Fault::Open(OpenFault::StoreFull), "store full"),
    (Fault::Open(OpenFault::Unfinished), "store unfinished"),
    (Fault::Open(OpenFault::Version), "store version"),
    (Fault::Open(OpenFault::Malformed), "store malformed"),
    (
        Fault::CannotRead(Named::File(0), Cause::Absent),
        "cannot read",
    ),
    (Fault::NotEmpty, "new store not empty"),
    (Fault::InUse, "store in use"),
    (
        Fault::OtherLimits(5, 3),
        "other limits: the store takes 5 legs and 3 features",
    ),
    (
        Fault::Rects(3, RectsFault::Corner(LineCode::Q6)),
        "record 3 of the rectangles: X1 is above X2, or Y1 above Y2",
    ),
];

#[test]
fn each_fault_has_its_line(rt: HostRuntime) -> Result<(), Fail> {
    for (fault, line) in &FAULTS {
        let said = format!(in rt.alloc(); "{fault}")?;
        assert_eq!(rt; said.as_str(), *line);
    }
    Ok(())
}

#[test]
fn the_first_fault_is_said(rt: HostRuntime) -> Result<(), Fail> {
    let (alloc, keys) = (rt.alloc(), RandomState::new(&rt)?);
    let mut files = Files::new(alloc);
    files.add("walk.csv", Vec::from_slice(alloc, WALK.as_bytes())?)?;
    // Page 0 is written and made to last, and the third call fails: the load, and then the closing.
    let store = Fuse::new(MemStore::new(alloc, 100), 2, false);
    let how = Opening {
        alloc,
        keys,
        is_new: true,
        limits: Limits::new(MOST_LEGS, MOST_FEATURES).unwrap(),
        cache_pages: 1,
    };
    let opened = database(&how, store);
    let mut taken = Vec::new(alloc);
    let mut out = CountedOutput::new(&mut taken);
    let (_, ended) = answer(alloc, opened, b"load walk.csv".as_slice(), &files, &mut out);
    assert!(rt; ended.ran == Err(Fault::Run(RunFault::Store)) && taken.is_empty());
    assert!(rt; ended.kept == Err(Fault::Run(RunFault::Failed)));
    Ok(())
}
