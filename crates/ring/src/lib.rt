// A port's ring: its indices, where its slots lie, what its header says, and how it is armed. Guest bytes are read in
// two places here, each once: `page::req_prod` reads the four bytes of req_prod, `slot::copy_slot` those of a request.
// The crate `publishing` reads the four of rsp_event, and nothing else reads any.
#![tactic(auto)]

mod index;
mod page;
mod slot;

pub use index::{distance, index_after, next_index};
pub use page::{arm, req_prod};
pub use slot::{copy_bytes, copy_slot, slot_at};
