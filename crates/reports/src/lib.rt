//! What is printed of a fabric: refused begins, violations, and what each domain holds.
#![tactic(auto)]

mod report;
mod rows;

pub use report::{
    status_name, write_counts, write_domain, write_domains, write_frames, write_holding,
    write_refusal, write_violations,
};
