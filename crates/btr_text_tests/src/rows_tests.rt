//! Rows as users write them, and samples as they read them.
mod fixture;
mod good;
mod records;
mod refused;
mod repeated;
mod sample;
