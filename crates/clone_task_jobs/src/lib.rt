//! The two jobs of a copying task. A serve job takes the ends of the connections that wait for its
//! task at the donor's side, one after the other, and serves each; a fetch job is the requester's
//! side. Both run in threads of their own, and hand back the seats by which they made their calls.
#![tactic(auto)]

mod desk;
mod fetching;
mod serving;

pub use fetching::{FetchJob, FetchJobEnd};
pub use serving::{ServeJob, ServeJobEnd};
