//! The cases that the lines give.
use crate::numbers::Numbers;
use std::alloc::{AllocError, Global};
use zones::{CoursePlace, GridPoint, Ring, Segment};

/// A course, the part of it that is asked for, and a zone.
#[derive(Drop)]
pub struct Case {
    pub course: Segment,
    pub first: CoursePlace,
    pub last: CoursePlace,
    pub rings: Vec<Ring>,
}

pub fn position(numbers: &mut Numbers) -> Option<GridPoint> {
    let x = numbers.take()?;
    let y = numbers.take()?;
    GridPoint::new(x, y)
}

fn place(numbers: &mut Numbers) -> Option<CoursePlace> {
    let num = numbers.take()?;
    let den = numbers.take()?;
    CoursePlace::new(num as i128, den as i128)
}

fn ring(alloc: Global, numbers: &mut Numbers) -> Result<Option<Ring>, AllocError> {
    let mut corners = Vec::new(alloc);
    let Some(count) = numbers.take() else {
        return Ok(None);
    };
    for _ in 0..count {
        match position(numbers) {
            Some(corner) => corners.push(corner)?,
            None => return Ok(None),
        }
    }
    Ok(Some(Ring::new(corners)))
}

pub fn rings(alloc: Global, numbers: &mut Numbers) -> Result<Option<Vec<Ring>>, AllocError> {
    let mut rings = Vec::new(alloc);
    for _ in 0..1000 {
        if numbers.is_done() {
            return Ok(Some(rings));
        }
        match ring(alloc, numbers)? {
            Some(ring) => rings.push(ring)?,
            None => return Ok(None),
        }
    }
    Ok(None)
}

#[derive(Drop)]
struct Asked {
    course: Segment,
    first: CoursePlace,
    last: CoursePlace,
}

fn asked_of(numbers: &mut Numbers) -> Option<Asked> {
    let from = position(numbers)?;
    let to = position(numbers)?;
    let first = place(numbers)?;
    let last = place(numbers)?;
    Some(Asked {
        course: Segment::new(from, to),
        first,
        last,
    })
}

/// The case of a line; `None` where it gives none.
pub fn read_case(alloc: Global, line: &str) -> Result<Option<Case>, AllocError> {
    let mut numbers = Numbers::of_line(alloc, line)?;
    let Some(asked) = asked_of(&mut numbers) else {
        return Ok(None);
    };
    let Some(rings) = rings(alloc, &mut numbers)? else {
        return Ok(None);
    };
    Ok(Some(Case {
        course: asked.course,
        first: asked.first,
        last: asked.last,
        rings,
    }))
}
