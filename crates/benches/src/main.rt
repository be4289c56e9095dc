//! What `bench` measures below the program: `benches KIND WORDS` makes many calls of one kind, and
//! prints what it saw of them.
//!
//! - `pages CALL COUNT`: calls of `pages` and `pagecache`;
//! - `nodes CALL COUNT`: calls of `tbnode`;
//! - `insertions FEATURES CAPACITY LEGS`: legs of features in turn, put into a tree;
//! - `retrievals QUESTION CACHE COUNT`: the legs of features of a tree;
//! - `searches INDEX LEGS FEATURES THOUSANDTHS COUNT`: the legs in a box;
//! - `script SCRIPT FILES`: a script over a database whose index is a list.
#![tactic(auto)]

mod command_line;
mod feed;
mod insertions;
mod node_calls;
mod page_calls;
mod retrievals;
mod scripts;
mod searches;

use anyhow::{Result, bail};
use command_line::Words;
use std::env;

fn main(rt: HostRuntime) -> Result<()> {
    let mut words = Words::new(env::args(&rt)?);
    words.text("program")?;
    let kind = words.text("kind")?;
    match kind.as_str() {
        "pages" => page_calls::run(&rt, words),
        "nodes" => node_calls::run(&rt, words),
        "insertions" => insertions::run(&rt, words),
        "retrievals" => retrievals::run(&rt, words),
        "searches" => searches::run(&rt, words),
        "script" => scripts::run(&rt, words),
        _ => bail!("no such kind"),
    }
}
