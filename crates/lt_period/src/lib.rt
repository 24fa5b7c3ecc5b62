//! Periods: four hours, a day or a week, by how far back a timestamp lies. All times are microseconds since the Unix epoch.
#![tactic(auto)]

mod of_moment;

pub use of_moment::period_of;
