// The node sheet: what it says of a port, or why it is refused.
// The sheet is read in place and in one pass over its bodies; the table of contents, at most 9 entries, is walked more
// than once.
#![tactic(auto)]

ghost use Rattle.std.specs.Prelude.{◌≡◌, get_or};
ghost use Rattle.model.specs.NodeSheet.{sector_size_of, abi_for, pages_for, params_of, has_required, sheet_of};
ghost use Rattle.contents.specs.Contents.{entries_in};

use crate::bodies::read_bodies;
use contents::{Table, well_formed};
use model::node::{
    BARRIER, DISCARD, DISCARD_SECURE, FLUSH, MODE, PLACES, PROTOCOL, RING_PAGE_ORDER, SECTOR_SIZE,
    SECTORS,
};
use model::{Abi, Pages, Params, Refusal, SectorSize};

mod bodies;

fn sector_size(v: u64) -> SectorSize
    ensures { result ≡ sector_size_of v }
{
    match v {
        1024 => SectorSize::Bytes1024,
        2048 => SectorSize::Bytes2048,
        4096 => SectorSize::Bytes4096,
        _ => SectorSize::Bytes512,
    }
}

// The layout of a protocol.
fn abi_for(v: u64) -> Abi
    ensures { result ≡ abi_for v }
{
    match v {
        1 => Abi::Bits32,
        _ => Abi::Bits64,
    }
}

// The pages of a page order.
fn pages_for(v: u64) -> Pages
    ensures { result ≡ pages_for v }
{
    match v {
        1 => Pages::Two,
        _ => Pages::One,
    }
}

// What the values of the nodes say of a port.
#[tactic(auto, unfolding(model::specs::NodeSheet::params_of))]
fn params_of(values: [u64; PLACES]) -> Params
    ensures { result ≡ params_of (λ node. get_or values node 0) }
{
    Params {
        writable: values[MODE] == 1,
        barrier: values[BARRIER] == 1,
        flush: values[FLUSH] == 1,
        discard: values[DISCARD] == 1,
        secure: values[DISCARD_SECURE] == 1,
        sector: sector_size(values[SECTOR_SIZE]),
        sectors: values[SECTORS],
        abi: abi_for(values[PROTOCOL]),
        pages: pages_for(values[RING_PAGE_ORDER]),
    }
}

// Whether the nodes that must be present are.
#[tactic(auto, unfolding(model::specs::NodeSheet::has_required))]
fn has_required(table: &Table) -> bool
    ensures { result ≡ has_required (entries_in table.now.entries.now table.now.bodies.now) }
{
    table.has_node(MODE) && table.has_node(SECTOR_SIZE) && table.has_node(SECTORS)
}

// The whole sheet, at any length and content: 11 over all of it, then 12 over all entries, then the bodies in turn,
// then 15.
pub fn read_sheet(sheet: &[u8]) -> Result<Params, Refusal>
    ensures { result ≡ sheet_of sheet.now }
{
    if !well_formed(sheet) {
        return Err(Refusal::SheetShape);
    }
    let table = Table::of(sheet);
    if !table.nodes_rise() {
        return Err(Refusal::SheetNodes);
    }
    let values = read_bodies(&table)?;
    if !has_required(&table) {
        return Err(Refusal::SheetMissing);
    }
    Ok(params_of(values))
}
