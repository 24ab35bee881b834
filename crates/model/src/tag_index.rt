// A tag that there is: a mark and a record stand for it.
ghost use Rattle.std.specs.Prelude.{◌≡◌, ◌<◌};
ghost use Rattle.model.specs.Port.{busy_bits};

use crate::TagId;

// 0 to 63, whatever its port's ring has room for (rule 4.7).
#[derive(Clone, Copy)]
pub struct TagIndex {
    index: u32,
    ghost in_range: { index < busy_bits },
}

impl TagIndex {
    ghost use Rattle.model.specs.Turn.{tag_id};

    // The tag of this number.
    pub fn new(index: u32) -> TagIndex
        requires { index < busy_bits }
        ensures { result.index ≡ index }
    {
        TagIndex { index }
    }

    // Its number.
    pub fn get(self) -> u32
        ensures { result ≡ self.index }
    {
        self.index
    }

    // The same, as the host is told it.
    pub fn id(self) -> TagId
        ensures { result ≡ tag_id self.index }
    {
        TagId(self.index)
    }
}
