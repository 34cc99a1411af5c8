// What `next` and `next_named` answer.
use flow::Refusal;

// How many numbers were listed, and how many states were entered.
#[derive(Clone, Copy)]
pub struct Found {
    pub length: u32,
    pub count: u32,
}

#[derive(Clone, Copy)]
pub enum Next {
    Listed(Found),
    Undecided(Found),
    Refused(Refusal),
}
