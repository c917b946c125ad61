// Defenders, which come off in the turn of a rule sheet.
ghost use Rattle.sheets.specs.Laws.{Possible};
ghost use Rattle.std.proofs.Common.{rules};

use crate::order::Order;
use sheets::RuleSheet;
use terms::request::Standing;

// A record that may give way, with the place where it stands.
#[derive(Clone, Copy, Debug, PartialEq, Eq)]
pub struct Defender {
    pub standing: Standing,
    pub place: usize,
}

// A sheet's laws are asked only of records that can exist, so only those are ranked.
impl<S: RuleSheet> Order<Defender> for S {
    ghost key = { λ _ defender. defender.standing.request.aref };

    ghost ranked = { λ _ defender. Possible defender.standing.request };

    ghost before = { λ sheet one other. (S.rules sheet).gives_before one.standing other.standing };

    ghost total = { Prim.search rules };

    fn goes_before(&self, one: &Defender, other: &Defender) -> bool {
        self.gives_before(&one.standing, &other.standing)
    }
}
