//! Kernels over points: what a distiller computes at each time, in the manner of DISTIL (Andersen et al., SmartGridComm 2015).
//!
//! [`eval`] computes the value at one anchor from the windows of the inputs. [`run_over`] computes all points of an output in
//! some ranges of time from the trees of its inputs, in one sweep. [`anchors`] are the times at which an output may have a point,
//! and [`point_at`] is its point at one time. [`Eval`] is the law that all rest on: a kernel looks at nothing but the windows that
//! end with its anchor. Kernels of aligned windows are another kind: they have no value at an anchor.
#![tactic(auto)]

// a kernel at one anchor
mod eval_at;
mod latest;
mod law;
mod numbers;
mod places;
// a sweep over anchors
mod anchor_times;
mod sliding;
mod sweep;
mod window;
// an output in some ranges
mod gather;
mod output;

pub use anchor_times::anchors;
pub use eval_at::eval;
pub use law::Eval;
pub use output::{point_at, run_over};
