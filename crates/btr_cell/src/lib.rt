//! Kernels of aligned windows: one value of each window of `2^p` ns, whole. The windows are those of BTrDB (Andersen and Culler,
//! FAST 2016), and a stream of their values is a distiller's output in the manner of DISTIL (Andersen et al., SmartGridComm 2015).
//!
//! [`value`] is the value of a window, from its aggregate. [`widen`] gives the windows that a set of times meets: if an input
//! changes at these times, the values of no other windows change.
#![tactic(auto)]

mod widening;
mod window_value;

pub use widening::widen;
pub use window_value::value;
