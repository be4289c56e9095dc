//! Worked values: a course past a square with a hole, at its corners and along its edges.
ghost use Rattle.std.specs.Prelude.{◌≤◌, unsigned_abs};

use fractions::Fraction;
use std::alloc::{AllocError, Global};
use std::process::Abort;
use std::test::Fail;
use zones::{GridPoint, Ring, Segment, is_inside};

fn box_of(alloc: Global, low: i64, high: i64) -> Result<Ring, AllocError>
    requires low { unsigned_abs low ≤ 1000 }
    requires high { unsigned_abs high ≤ 1000 }
{
    let mut corners = Vec::new(alloc);
    corners.push(GridPoint { x: low, y: low })?;
    corners.push(GridPoint { x: high, y: low })?;
    corners.push(GridPoint { x: high, y: high })?;
    corners.push(GridPoint { x: low, y: high })?;
    Ok(Ring::new(corners))
}

#[test]
fn a_square_with_a_hole(rt: HostRuntime) -> Result<(), Fail> {
    let mut rings = Vec::new(rt.alloc());
    rings.push(box_of(rt.alloc(), 0, 10)?)?;
    rings.push(box_of(rt.alloc(), 3, 7)?)?;
    // From (-10, -10) to (20, 20): it is at a corner of the square at 1/3 and 2/3, of the hole at 13/30 and 17/30.
    let course = Segment {
        x0: -10,
        y0: -10,
        x1: 20,
        y1: 20,
    };
    assert!(rt;
        !is_inside(
            &rings,
            &course,
            Fraction {
                num: 333,
                den: 1000
            }
        )
    );
    assert!(rt; is_inside(&rings, &course, Fraction { num: 1, den: 3 }));
    assert!(rt; is_inside(&rings, &course, Fraction { num: 13, den: 30 }));
    assert!(rt; !is_inside(&rings, &course, Fraction { num: 1, den: 2 }));
    assert!(rt; is_inside(&rings, &course, Fraction { num: 34, den: 60 }));
    assert!(rt; is_inside(&rings, &course, Fraction { num: 2, den: 3 }));
    assert!(rt;
        !is_inside(
            &rings,
            &course,
            Fraction {
                num: 667,
                den: 1000
            }
        )
    );
    Ok(())
}
