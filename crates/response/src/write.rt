// A response written into a ring's pages, and published.
ghost use Rattle.std.specs.Prelude.{◌≡◌, length};
ghost use Rattle.model.specs.Ring.{ring_for};
ghost use Rattle.response.specs.Promise.{Responded};

use model::{Format, Pair, Status};
use publishing::publish;
use response_bytes::put_response;

// A response into the page: its bytes, then rsp_prod from our own index. The answer is whether to notify the guest.
// Reads rsp_event, once.
#[tactic(auto, using(crate::proofs::Responses::header_fits))]
pub fn write_response(
    page: &mut [u8],
    format: Format,
    produced: u32,
    pair: Pair,
    status: Status,
) -> bool
    requires { length page.old ≡ (ring_for format.abi format.pages).bytes }
    ensures { Responded (ring_for format.abi format.pages) page.old produced pair status page.new result }
{
    put_response(page, format, produced, pair, status);
    publish(page, produced, 1)
}
