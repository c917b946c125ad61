// Due items, which come off by the minute at which they fall due.
ghost use Rattle.shelf.specs.Due.{sooner};
ghost use Rattle.std.proofs.Common.{rules};

use crate::order::Order;

// An item that falls due, with the AREF of its record and the place where the record stands.
#[derive(Clone, Copy, Debug, PartialEq, Eq)]
pub struct Due {
    pub minute: u32,
    pub aref: u32,
    pub place: usize,
}

#[derive(Clone, Copy)]
pub struct ByMinute;

impl Order<Due> for ByMinute {
    ghost key = { λ _ item. item.aref };

    ghost ranked = { λ _ _. Unit {0} };

    ghost before = { λ _ one other. sooner one other };

    ghost total = { Prim.search rules };

    fn goes_before(&self, one: &Due, other: &Due) -> bool {
        (one.minute, one.aref) < (other.minute, other.aref)
    }
}
