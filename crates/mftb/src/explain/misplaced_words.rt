//! What is said of words of `mftb zones` that stand in the place of others, and of zone files of another form.
use crate::explain::saying::tell;
use crate::system::stored::look_at;
use arguments::Zones;
use reasons::{Sentence, Shown, say_zone_source};
use std::fs::File;
use std::io::Eprint;
use std::rt::Files;
use timebase::read_instant;

/// The order of the words.
const ORDER: &str = "the words are STORE ZONES T1 T2";

/// Says of a zone file of another form which form that is.
fn tell_source<R: Eprint + AllocGlobal>(rt: &R, name: &str, bytes: &[u8]) {
    let mut said = Sentence::new(rt.alloc());
    say_zone_source(&mut said, name, bytes);
    tell(rt, said);
}

/// Says of a zone file that is a store that it is one, and whether the store is one.
fn tell_store<R: Files<File = File> + Eprint>(rt: &R, task: &Zones<'_>) {
    let (store, zones, order) = (Shown(task.store), Shown(task.zones), ORDER);
    let _ = if look_at(rt, task.store).is_some() {
        eprintln!(rt; "mftb: {zones} is a store and no zone file; {order}")
    } else {
        eprintln!(rt; "mftb: {zones} is a store, and {store} is none; {order}")
    };
}

/// Says of a zone file that was refused that it is a store, or of which other form it is.
pub(crate) fn tell_form<R: Files<File = File> + Eprint + AllocGlobal>(
    rt: &R,
    task: &Zones<'_>,
    bytes: &[u8],
) {
    if look_at(rt, task.zones).is_some() {
        tell_store(rt, task);
    } else {
        tell_source(rt, task.zones, bytes);
    }
}

/// Says of a word of that name that is an instant that the words are exchanged.
fn tell_instant<R: Eprint>(rt: &R, name: &str, word: &str) {
    if read_instant(word).is_ok() {
        let (word, order) = (Shown(word), ORDER);
        let _ = eprintln!(rt; "mftb: {name} '{word}' is an instant; {order}");
    }
}

/// Says of a store or a zone file of which the name is an instant that the words are exchanged.
pub(crate) fn tell_instants<R: Eprint>(rt: &R, task: &Zones<'_>) {
    tell_instant(rt, "STORE", task.store);
    tell_instant(rt, "ZONES", task.zones);
}
