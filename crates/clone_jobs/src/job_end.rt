use crate::ending::Ending;
use clone_machine::DonorMachine;
use clone_outside::PageDisk;
use clone_turn::Seat;

/// What a job hands back: its seat, and how it ended.
#[derive(Drop)]
pub struct JobEnd<D: PageDisk + Send + Drop> {
    pub seat: Seat<DonorMachine<D>>,
    pub ending: Ending,
}
