//! What zone files read as, of several files on standard input with a line `====` behind each.
//!
//! A file is answered by a line for each zone, with all of its corners in units of 10^-7; or by the first fault.
#![tactic(auto)]

use std::alloc::Global;
use std::io::{self, Read};
use zone_files::{Shape, Zone, read_zones};
use zones::{GridPoint, Ring};

/// What stands behind each file.
const END: &[u8] = b"====";

fn print_position(rt: &impl Print, position: &GridPoint) -> io::Result<()> {
    print!(rt; " {} {}", position.x, position.y)
}

fn print_ring(rt: &impl Print, ring: &Ring) -> io::Result<()> {
    print!(rt; " (")?;
    for corner in ring.corners() {
        print_position(rt, corner)?;
    }
    print!(rt; " )")
}

fn print_shape(rt: &impl Print, shape: &Shape) -> io::Result<()> {
    match shape {
        Shape::Polygon(rings) => {
            print!(rt; " polygon")?;
            for ring in rings {
                print_ring(rt, ring)?;
            }
            println!(rt; "")
        }
        Shape::Gate(gate) => {
            print!(rt; " gate")?;
            print_position(rt, &gate.from)?;
            print_position(rt, &gate.to)?;
            println!(rt; "")
        }
    }
}

fn print_zone(rt: &impl Print, zone: &Zone) -> io::Result<()> {
    print!(rt; "{}", zone.name)?;
    print_shape(rt, &zone.shape)
}

/// Prints what one file reads as.
fn print_file(rt: &impl Print, alloc: Global, bytes: &[u8]) -> io::Result<()> {
    match read_zones(alloc, bytes) {
        Ok(file) => {
            for zone in &file.zones {
                print_zone(rt, zone)?;
            }
            println!(rt; "{} zones", file.zones.len())
        }
        Err(fault) => println!(rt; "{fault}"),
    }
}

fn main(rt: HostRuntime) -> io::Result<()> {
    let alloc = rt.alloc();
    let mut bytes = Vec::new(alloc);
    rt.reader().read_to_end(&mut bytes)?;
    let mut file = Vec::new(alloc);
    for line in bytes.split(|byte| *byte == b'\n') {
        if line == END {
            print_file(&rt, alloc, &file)?;
            file.clear();
        } else {
            file.extend_from_slice(line)?;
            file.push(b'\n')?;
        }
    }
    Ok(())
}
