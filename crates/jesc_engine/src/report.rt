//! The lines of a report.

mod counts;
mod duty;
mod place;
mod source;
mod warning;

pub(crate) use counts::put_last_line;
pub(crate) use duty::{duty_name, is_verified, put_duty};
pub(crate) use place::{put_count, put_place};
pub(crate) use source::Source;
