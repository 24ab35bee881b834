// The table of contents of a sheet: whether refusal 11 or 12 is due, and what it says of each entry.
#![tactic(auto)]

ghost use Rattle.std.specs.Prelude.{◌≡◌, ◌+◌, ◌<◌, ◌≤◌, ℕ, length, get_or, sum_by, []};
ghost use Rattle.model.specs.Base.{all};
ghost use Rattle.model.specs.NodeSheet.{entry_at, entry_count, entries_of, bodies_end, well_formed, rising, present};
ghost use Rattle.contents.specs.Contents.{Contents, is_clear, length_of, entries_in};

use model::node::RING_PAGE_ORDER;
use wire::Integer;

// The entries begin after the byte that counts them, and have four bytes each: the node, one that is reserved, and two
// of the body's length.
pub const ENTRIES: usize = 1;

pub const ENTRY: usize = 4;

const NODE: usize = 0;

const RESERVED: usize = 1;

const LENGTH: usize = 2;

const MOST_ENTRIES: usize = RING_PAGE_ORDER;

// A sheet that has its table of contents: the entries, and the bodies behind them.
#[derive(Clone, Copy)]
pub struct Table<'a> {
    pub entries: &'a [[u8; ENTRY]],
    pub bodies: &'a [u8],
    ghost few: { length entries.now ≤ 9 },
}

// The node of an entry.
pub fn node_of(entry: &[u8; ENTRY]) -> usize
    ensures { result ≡ get_or entry.now 0 0 }
{
    usize::from(entry[NODE])
}

// The length of an entry's body.
pub fn length_of(entry: &[u8; ENTRY]) -> usize
    ensures value { result ≡ length_of entry.now }
    ensures below { result < 65536 }
{
    usize::from(u16::load(entry, LENGTH))
}

// How many entries the sheet says it has.
fn entry_count(sheet: &[u8]) -> usize
    requires { 0 < length sheet.now }
    ensures { result ≡ entry_count sheet.now }
{
    usize::from(sheet[0])
}

impl<'a> Table<'a> {
    pub fn of(sheet: &'a [u8]) -> Table<'a>
        requires { Contents sheet.now }
        ensures entries { entries_in result.entries.now result.bodies.now ≡ entries_of sheet.now }
        ensures end { entry_at (entry_count sheet.now) + sum_by length_of result.entries.now
            ≡ bodies_end (entry_count sheet.now) sheet.now 0 (entry_at (entry_count sheet.now)) }
        ensures bytes { (i j : ℕ) → i < entry_count sheet.now → j < 4 → get_or (get_or result.entries.now i []) j 0 ≡ get_or sheet.now (entry_at i + j) 0 }
        ensures whole { entry_at (entry_count sheet.now) + length result.bodies.now ≡ length sheet.now }
    {
        let (table, bodies) = sheet[ENTRIES..].split_at(ENTRY * entry_count(sheet));
        let (entries, _) = table.as_chunks::<ENTRY>();
        Table { entries, bodies }
    }

    // Whether no entry has a reserved byte set.
    fn reserved_clear(&self) -> bool
        ensures { result ≡ all is_clear (entries_in self.now.entries.now self.now.bodies.now) }
    {
        self.entries.iter().all(|entry| entry[RESERVED] == 0)
    }

    // How long the bodies are, if they have the lengths that the entries say.
    fn total_length(&self) -> usize
        ensures { result ≡ sum_by length_of self.now.entries.now }
    {
        self.entries.iter().map(length_of).sum()
    }

    // Refusal 12 is due where this is false.
    #[tactic(auto, using(crate::proofs::Entries::rises))]
    pub fn nodes_rise(&self) -> bool
        ensures { result ≡ rising 0 (entries_in self.now.entries.now self.now.bodies.now) }
    {
        let mut before = 0;
        for entry in self.entries {
            let node = node_of(entry);
            if node <= before || node > RING_PAGE_ORDER {
                return false;
            }
            before = node;
        }
        true
    }

    // Whether a node has an entry.
    pub fn has_node(&self, node: usize) -> bool
        ensures { result ≡ present node (entries_in self.now.entries.now self.now.bodies.now) }
    {
        self.entries.iter().any(|entry| node_of(entry) == node)
    }
}

// Refusal 11 is due where this is false. A table of contents that is cut short is a wrong total length.
#[tactic(auto, using(crate::proofs::Entries::formed))]
pub fn well_formed(sheet: &[u8]) -> bool
    ensures { result ≡ well_formed sheet.now }
{
    if sheet.is_empty() || entry_count(sheet) > MOST_ENTRIES {
        return false;
    }
    if sheet.len() < ENTRIES + ENTRY * entry_count(sheet) {
        return false;
    }
    let table = Table::of(sheet);
    table.reserved_clear() && table.total_length() == table.bodies.len()
}
