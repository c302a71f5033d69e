//! Tests of the log, of an opening, of the engine and of the machine and the gate over it.
#![tactic(auto)]

#[cfg(test)]
mod checkpoint_tests;
#[cfg(test)]
mod core_tests;
#[cfg(test)]
mod damage_tests;
#[cfg(test)]
mod engine_tests;
#[cfg(test)]
mod fixture;
#[cfg(test)]
mod gate_tests;
#[cfg(test)]
mod log_tests;
#[cfg(test)]
mod maker_tests;
#[cfg(test)]
mod open_tests;
#[cfg(test)]
mod plan_tests;
#[cfg(test)]
mod replace_tests;
#[cfg(test)]
mod shelf_tests;
#[cfg(test)]
mod start_tests;
#[cfg(test)]
mod super_tests;
