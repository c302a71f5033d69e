//! Tests of sessions, jobs, loads, lanes and refreshes, over a device in memory, and of the lines of reports.
#![tactic(auto)]

#[cfg(test)]
mod admission_tests;
#[cfg(test)]
mod bulk_tests;
#[cfg(test)]
mod fixture;
#[cfg(test)]
mod hall_tests;
#[cfg(test)]
mod jobs_tests;
#[cfg(test)]
mod live_tests;
#[cfg(test)]
mod load_tests;
#[cfg(test)]
mod report_tests;
#[cfg(test)]
mod work_tests;
