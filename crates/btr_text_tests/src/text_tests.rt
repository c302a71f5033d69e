//! Lines as users type them, and replies as they read them.
mod fixture;
mod lines;
mod outputs;
mod questions;
mod replies;
