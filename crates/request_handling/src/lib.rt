//! What becomes of one packet, by its bytes and its domain's share of the layout.
#![tactic(auto)]

mod answers;
mod carriage;
mod data_reply;
mod disposition;
mod fate;
mod handling;
mod heads;
mod page;
mod refusal;
mod requests;
mod taker;

pub use carriage::{access_of, carriage_up};
pub use data_reply::DataReply;
pub use disposition::Disposition;
pub use fate::Fate;
pub use handling::{Effect, Handling, Made, Reply, discarded};
pub use heads::{head_of, target_for, well_formed_head};
pub use page::{function_of, place};
pub use refusal::{refusal_of, refusal_of_completion};
pub use requests::{at_port, request_at_function, request_at_host};
pub use taker::{Taker, taker_of};
