// The transmit-list session (module 6), once for every machine: a trait of memory, the calls over it, and the machine of a helm.
#![tactic(auto)]

mod answers;
mod arrays;
pub mod calls;
mod entry;
pub mod laws;
mod lent;
mod lent_arrays;
mod machines;
pub mod memory;
pub mod moment;
mod parts;
mod reading;
mod sessions;
mod steps;
pub mod stored;
mod tested;
mod ticks;
pub mod words;

pub use lent::Lent;
pub use lent_arrays::LentArrays;
pub use machines::Helm;
pub use memory::{Arrays, Memory};
pub use sessions::Session;
