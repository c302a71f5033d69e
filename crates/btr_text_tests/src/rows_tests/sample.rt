//! Samples.
use crate::fixture::{Row, all_hold};
use btr_rows::{StreamRows, read_rows, sample_csv};
use std::alloc::Global;
use std::test::Fail;

/// The number of a sample, its streams, the points of each, and its text.
struct Sample(u32, u32, u32, &'static str);

impl Row for Sample {
    fn holds(&self, alloc: Global) -> Result<bool, Fail> {
        let text = sample_csv(alloc, self.0, self.1, self.2)?;
        Ok(text.as_slice() == self.3.as_bytes())
    }
}

const SAMPLES: &[Sample] = &[
    Sample(
        1,
        1,
        3,
        "00000000-0000-0000-0000-000000000001,1000000838,-170\n\
         00000000-0000-0000-0000-000000000001,1000001758,756\n\
         00000000-0000-0000-0000-000000000001,1000002113,-892\n",
    ),
    Sample(
        1,
        2,
        2,
        "00000000-0000-0000-0000-000000000001,1000000838,-170\n\
         00000000-0000-0000-0000-000000000002,1000000758,756\n\
         00000000-0000-0000-0000-000000000001,1000001113,-892\n\
         00000000-0000-0000-0000-000000000002,1000001515,507\n",
    ),
    Sample(
        0,
        1,
        1,
        "00000000-0000-0000-0000-000000000001,1000000000,-1000\n",
    ),
    Sample(
        2147483647,
        1,
        1,
        "00000000-0000-0000-0000-000000000001,1000000929,922\n",
    ),
    Sample(1, 0, 3, ""),
    Sample(1, 3, 0, ""),
];

/// The last rows of a sample of 17 streams.
const WIDE_END: &[u8] = b"00000000-0000-0000-0000-00000000000f,1000000749,-251\n\
    00000000-0000-0000-0000-000000000010,1000000322,-678\n\
    00000000-0000-0000-0000-000000000011,1000000185,-822\n";

#[test]
fn the_text_of_samples(rt: HostRuntime) -> Result<(), Fail> {
    all_hold(rt.alloc(), SAMPLES)
}

#[test]
fn the_end_of_a_wide_sample(rt: HostRuntime) -> Result<(), Fail> {
    let wide = sample_csv(rt.alloc(), 7, 17, 1)?;
    assert!(rt; wide.as_slice().ends_with(WIDE_END));
    Ok(())
}

/// Whether streams have the ids from 1 on, and this number of points each.
fn are_streams(streams: &[StreamRows], points: usize) -> bool {
    let mut id = 0u128;
    for stream in streams {
        id = id.wrapping_add(1);
        if stream.id() != id || stream.points().len() != points {
            return false;
        }
    }
    true
}

#[test]
fn a_sample_is_read_back(rt: HostRuntime) -> Result<(), Fail> {
    let text = sample_csv(rt.alloc(), 1, 4, 250)?;
    let list = read_rows(rt.alloc(), text.as_slice())?;
    assert!(rt; (list.refused().len(), list.streams().len()) == (0, 4));
    assert!(rt; are_streams(list.streams(), 250));
    Ok(())
}
