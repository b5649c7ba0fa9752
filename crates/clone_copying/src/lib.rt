//! The job of a copying task of the requester. It connects, makes its steps at a recipient that
//! several tasks share, sends what they put out and lets them take what comes, and connects anew
//! after a loss, until the clone has ended.
#![tactic(auto)]

mod caller;
mod desk;
mod fetch_end;
mod fetcher;
mod pause;
mod recipient;
mod talk;
mod turn;
mod watch;

pub use caller::Caller;
pub use fetch_end::FetchEnd;
pub use fetcher::Fetcher;
