//! A worker without the ends of its rings.

use crate::job::Job;
use thread_crew::WorkerId;

/// Which worker it is, and its work.
#[derive(Drop)]
pub struct Post {
    /// Which worker it is.
    pub id: WorkerId,
    /// Its work.
    pub job: Job,
}
