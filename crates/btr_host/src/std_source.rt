//! A reader of the system as a source.
ghost use Rattle.std.specs.Prelude.{◌≡◌, ◌≤◌, [], length, IfOk};

use crate::count::raise;
use btr_io::{Failed, Source};
use std::io;
use std::io::{ErrorKind, Read};

/// A reader of the system as a source: `StdSource::new(rt.stdin())` is standard input. The bytes that
/// are left are not observable. A read that is repeated after a signal is one call.
#[derive(Drop)]
pub struct StdSource<R> {
    reader: R,
    calls: u64,
    faults: u64,
}

impl<R: Read> StdSource<R> {
    /// A source over this reader, with no call and no fault counted.
    pub fn new(reader: R) -> StdSource<R>
        ensures calls { result.calls ≡ 0 }
        ensures faults { result.faults ≡ 0 }
    {
        StdSource {
            reader,
            calls: 0,
            faults: 0,
        }
    }
}

impl<R: Read> Source for StdSource<R> {
    ghost is_observable = { ⊥ };

    ghost left = { λ source. [] };

    ghost calls = { λ source. source.calls };

    ghost faults = { λ source. source.faults };

    fn read(&mut self, buf: &mut [u8]) -> Result<usize, Failed> {
        raise(&mut self.calls);
        match read_some(&mut self.reader, buf) {
            Ok(n) => Ok(n),
            Err(_) => {
                raise(&mut self.faults);
                Err(Failed)
            }
        }
    }
}

/// One read, which is repeated if a signal interrupts it.
fn read_some<R: Read>(reader: &mut R, buf: &mut [u8]) -> io::Result<usize>
    ensures { IfOk result (λ n. n ≤ length buf.old) }
{
    for _ in 0..u64::MAX {
        match reader.read(buf) {
            Err(error) if error.kind() == ErrorKind::Interrupted => {}
            answer => return answer,
        }
    }
    Err(io::Error::from(ErrorKind::Interrupted))
}
