// The plan of each kind of request, and a discard's secure mark.
#![tactic(auto)]

ghost use Rattle.std.specs.Prelude.{◌&&◌, ◌≡◌, ◌%◌, eqb};
ghost use Rattle.plans.specs.Plans.{empty_plan, discard_plan, data_plan};

use model::{Operation, Plan};

// The plan of a request that moves no sectors.
pub fn empty(operation: u8) -> Plan
    ensures { result ≡ empty_plan operation }
{
    data(operation, 0, 0, 0)
}

// The plan of a discard.
pub fn discard(start: u64, count: u64, secure: bool) -> Plan
    ensures { result ≡ discard_plan start count secure }
{
    Plan {
        operation: Operation::Discard as u8,
        start,
        count,
        secure,
        extents: 0,
    }
}

// The plan of a request with segments.
pub fn data(operation: u8, start: u64, count: u64, extents: u64) -> Plan
    ensures { result ≡ data_plan operation start count extents }
{
    Plan {
        operation,
        start,
        count,
        secure: false,
        extents,
    }
}

// A discard's secure mark: bit 0 of its flag, where the disk offers secure discards.
pub fn is_secure(flag: u8, offered: bool) -> bool
    ensures { result ≡ (eqb (flag % 2) 1 && offered) }
{
    flag % 2 == 1 && offered
}
