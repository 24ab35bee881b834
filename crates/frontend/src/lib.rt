// The guest's half of a one-page ring with the 64-bit layout (section 16 of docs/RULES.md): it puts requests and collects responses. It knows the page and
// its own memory, and nothing of a backend.
// Of the page's bytes a put reads req_event alone, a collect rsp_prod and at most one response, each byte once (rule 16.20).
#![tactic(auto)]

mod collecting;
mod putting;

pub use collecting::collect;
pub use putting::put;
