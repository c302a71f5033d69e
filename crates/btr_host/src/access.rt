//! What a run does with its device.

/// What a run does with its device, and so how the file is opened and locked.
#[derive(Clone, Copy, PartialEq, Eq)]
pub enum Access {
    /// It reads. Other processes may read at the same time. The file is opened for reading alone.
    Read,

    /// It may write. No other process has the device open for either at the same time.
    Write,
}
