//! Tests of what makes a large commit.
use btr_base::Point;
use btr_engine::{Alone, Crew, Maker};
use std::alloc::{AllocError, Global};
use std::test::Fail;

/// A thousand points.
fn thousand(alloc: Global) -> Result<Vec<Point>, AllocError> {
    let mut points = Vec::new(alloc);
    for index in 0..1_000u32 {
        points.push(Point {
            time: i64::from(index),
            value: 7,
        })?;
    }
    Ok(points)
}

/// In how many parts a maker makes the bytes of points, and these.
fn made<M: Maker>(
    maker: &M,
    alloc: Global,
    points: &[Point],
) -> Result<(usize, Vec<u8>), AllocError>
    requires { M.can_make }
{
    let parts = maker.points(alloc, points)?;
    let mut bytes = Vec::new(alloc);
    for part in parts.as_slices() {
        bytes.extend_from_slice(part)?;
    }
    Ok((parts.as_slices().len(), bytes))
}

#[test]
fn a_crew_makes_in_parts_what_one_thread_makes(rt: HostRuntime) -> Result<(), Fail> {
    let points = thousand(rt.alloc())?;
    let (one, alone) = made(&Alone, rt.alloc(), &points)?;
    let crew = Crew {
        rt: &rt,
        threads: 3,
    };
    let (three, shared) = made(&crew, rt.alloc(), &points)?;
    assert!(rt; (one, three, alone.len()) == (1, 3, 16_000));
    assert!(rt; alone.as_slice() == shared.as_slice());
    Ok(())
}
