ghost use Rattle.std.specs.Prelude.{◌≡◌};
ghost use Rattle.vmv_demands.specs.Back.{on_slot, on_operand, on_answer};

use crate::want::{Condition, Want};
use vmv_snapshot::{CodeOperand, SiteId, Slot};
use vmv_tree::Name;

/// Where the condition of a site leads, going back.
#[derive(Clone, Copy, Drop)]
pub(crate) enum Lead {
    /// To no condition on an answer.
    Nowhere,
    /// To this condition on the answers of an outside function.
    Asked(Name, Condition),
    /// To a variable, of which this is wanted.
    At(Slot, Want),
}

/// A site with where its condition leads.
#[derive(Clone, Copy, Drop)]
pub(crate) struct SiteLead {
    pub(crate) site: SiteId,
    pub(crate) lead: Lead,
}

/// A condition on the answers of an outside function that a site needs.
#[derive(Clone, Copy, Drop)]
pub(crate) struct Found {
    pub(crate) name: Name,
    pub(crate) cond: Condition,
    pub(crate) site: SiteId,
}

impl Lead {
    pub(crate) fn on_slot(slot: Slot, want: Option<Want>) -> Lead
        ensures { result ≡ on_slot slot want }
    {
        match want {
            Some(want) => Lead::At(slot, want),
            None => Lead::Nowhere,
        }
    }

    /// To the operand's variable; a literal stands for none.
    pub(crate) fn on_operand(operand: CodeOperand, want: Option<Want>) -> Lead
        ensures { result ≡ on_operand operand want }
    {
        match operand {
            CodeOperand::Var(slot) => Lead::on_slot(slot, want),
            CodeOperand::Lit(_) => Lead::Nowhere,
        }
    }

    /// To the answer of an outside function, where what is wanted is a condition on it.
    pub(crate) fn on_answer(name: Name, want: Want) -> Lead
        ensures { result ≡ on_answer name want }
    {
        match want {
            Want::Within { lo, hi } if lo == i64::MIN && hi == i64::MAX => Lead::Nowhere,
            Want::Within { lo, hi } => Lead::Asked(name, Condition::Range { lo, hi }),
            Want::Except(word) if word == 0 => Lead::Asked(name, Condition::Nonzero),
            Want::Except(_) => Lead::Nowhere,
        }
    }
}
