// A response: its bytes in the slot of our own index, and its publishing, with whether to notify the guest.
// Of guest bytes it reads rsp_event alone, once: `publishing::publish`.
#![tactic(auto)]

mod page;
mod write;

pub use page::respond;
