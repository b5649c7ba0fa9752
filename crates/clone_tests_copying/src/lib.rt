//! The tests of a copying task, over connections at whose other end a donor answers by rote. They
//! stand apart, since a crate with tests is proved twice. The clock is there without tests too, since
//! the crate's definitions name its types.
#![tactic(auto)]

mod clock;
#[cfg(test)]
mod copying;
#[cfg(test)]
mod donor;
#[cfg(test)]
mod net;
#[cfg(test)]
mod stuck;
