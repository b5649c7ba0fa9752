//! A follower: how a recipient whose clone is complete takes the commits that its donor makes from
//! then on, and the three frames by which both speak of them. A frame is a code of 1 byte, the
//! length of its payload in 4 bytes, and the payload. All numbers are big-endian.
#![tactic(auto)]

mod commit;
mod donor;
mod encoding;
mod fault;
mod fields;
mod follower;
mod frame;
mod laws;
mod limits;
mod numbers;
mod payloads;
mod reading;
mod writing;

pub use commit::SentCommit;
pub use donor::{answer, commit_at};
pub use encoding::encode;
pub use fault::FrameRefusal;
pub use follower::{FollowRefusal, FollowTook, Follower};
pub use frame::FollowFrame;
pub use laws::{each_once, in_turn, one_answer, one_spelling, opens_again, spells_back};
pub use limits::{CHANGE_FIELDS, COMMIT_FIELDS, HEAD_BYTES, MOST_CHANGE};
pub use reading::decode;
