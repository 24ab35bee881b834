// The publishing of responses that stand in their slots, one or several, and whether to notify the guest.
// Of guest bytes it reads rsp_event alone, once: `publish`.
#![tactic(auto)]

ghost use Rattle.std.specs.Prelude.{◌≡◌, ◌≤◌, length};
ghost use Rattle.wire.specs.LittleEndian.{store};
ghost use Rattle.model.specs.Ring.{header_size, rsp_prod_at};
ghost use Rattle.publishing.specs.Promise.{Published};

use layout::{RSP_EVENT, RSP_PROD};
use wire::Integer;

// rsp_prod is our own number; what the page had there is never read.
fn put_rsp_prod(page: &mut [u8], v: u32)
    requires { header_size ≤ length page.old }
    ensures { page.new ≡ store 4 page.old rsp_prod_at v }
{
    u32::store(page, RSP_PROD, v);
}

// rsp_prod goes up by the n responses that stand behind our index, and only then is rsp_event read, once, as in ring.h.
// That is the order of the source: no fence stands between. The answer is whether to notify the guest.
pub fn publish(page: &mut [u8], produced: u32, n: u32) -> bool
    requires { header_size ≤ length page.old }
    ensures { Published page.old produced n page.new result }
{
    let next = ring::index_after(produced, n);
    put_rsp_prod(page, next);
    ring::distance(next, u32::load(page, RSP_EVENT)) < n
}
