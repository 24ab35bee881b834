// The texts of the bodies, each with its value or its refusal (rules 3.5 and 3.9).
#![tactic(auto)]

ghost use Rattle.std.specs.Prelude.{◌≡◌};
ghost use Rattle.model.specs.Base.{same};
ghost use Rattle.model.specs.NodeSheet.{choice_body, is_sector_size, number_body, is_allowed, number_of, body_of};

use decimal::read_number;
use model::Refusal;
use model::node::{DISCARD_SECURE, MODE, PROTOCOL, SECTOR_SIZE, SECTORS};

// Whether a text is the one asked for. By `==` of slices the archive would have a function of the library's beside its
// own.
#[inline(always)]
fn is_text(text: &[u8], asked: &[u8]) -> bool
    ensures { result ≡ same text.now asked.now }
{
    if text.len() != asked.len() {
        return false;
    }
    for i in 0..text.len() {
        if text[i] != asked[i] {
            return false;
        }
    }
    true
}

// One of two texts, for 0 and for 1.
#[tactic(auto, unfolding(model::specs::NodeSheet::choice_body))]
#[inline(always)]
fn choice_body(text: &[u8], off: &[u8], on: &[u8]) -> Result<u64, Refusal>
    ensures { result ≡ choice_body text.now off.now on.now }
{
    if is_text(text, off) {
        Ok(0)
    } else if is_text(text, on) {
        Ok(1)
    } else {
        Err(Refusal::SheetText)
    }
}

#[tactic(auto, unfolding(model::specs::NodeSheet::is_sector_size))]
fn is_sector_size(v: u64) -> bool
    ensures { result ≡ is_sector_size v }
{
    matches!(v, 512 | 1024 | 2048 | 4096)
}

// Whether a number may stand at a node: a sector size, any number of sectors, or a page order of 0 or 1.
#[tactic(auto, unfolding(model::specs::NodeSheet::is_allowed))]
fn is_allowed(node: usize, v: u64) -> bool
    ensures { result ≡ is_allowed node v }
{
    match node {
        SECTOR_SIZE => is_sector_size(v),
        SECTORS => true,
        _ => v <= 1,
    }
}

// A number that the node allows.
#[tactic(auto, unfolding(model::specs::NodeSheet::number_body))]
fn number_body(node: usize, text: &[u8]) -> Result<u64, Refusal>
    ensures { result ≡ number_body (is_allowed node) (number_of text.now) }
{
    let v = read_number(text)?;
    if is_allowed(node, v) {
        Ok(v)
    } else {
        Err(Refusal::SheetNumber)
    }
}

// The body of a node.
#[tactic(auto, unfolding(model::specs::NodeSheet::body_of))]
pub fn read_body(node: usize, text: &[u8]) -> Result<u64, Refusal>
    ensures { result ≡ body_of node text.now }
{
    match node {
        MODE => choice_body(text, b"r", b"w"),
        0..=DISCARD_SECURE => choice_body(text, b"0", b"1"),
        PROTOCOL => choice_body(text, b"x86_64-abi", b"x86_32-abi"),
        _ => number_body(node, text),
    }
}
