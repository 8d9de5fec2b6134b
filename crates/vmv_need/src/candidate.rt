ghost use Rattle.std.specs.Prelude.{◌≡◌, ◌++◌, ◌&&◌, pos, int_lt, IfOk, OnOk};
ghost use Rattle.std.specs.List.{flat_map};
ghost use Rattle.vmv_need.specs.Candidates.{only, of_demand, of_box, of_subject, candidates_of};

use crate::subject::{Scope, Subject};
use std::alloc::{AllocError, Global};
use vmv_cond::{Cond, Piece};
use vmv_demands::Demand;
use vmv_snapshot::{ParamBox, ProcId};
use vmv_tree::Name;

/// An exclusion that is looked at: for an entry and a box of its parameters, a piece of what a name may answer.
#[derive(Clone, Copy)]
pub struct Candidate {
    /// The entry.
    pub entry: ProcId,
    /// A box of the entry's parameters.
    pub within: ParamBox,
    /// The outside name.
    pub name: Name,
    /// The words that the name may not answer where the candidate acts.
    pub piece: Piece,
}

/// Whether the condition leaves out a 0 inside it.
fn leaves_out_zero(cond: Cond) -> bool
    ensures { result ≡ (cond.zero_out && (int_lt cond.lo (pos 0) && int_lt (pos 0) cond.hi)) }
{
    cond.zero_out() && cond.lo() < 0 && 0 < cond.hi()
}

/// Adds the candidate where the demand leaves the piece out.
fn add_where(
    candidates: &mut Vec<Candidate>,
    left_out: bool,
    candidate: Candidate,
) -> Result<(), AllocError>
    ensures { OnOk result (candidates.new.items ≡ candidates.old.items ++ only left_out candidate) }
{
    if left_out {
        candidates.push(candidate)?;
    }
    Ok(())
}

/// Adds a candidate for each piece of a demand.
fn add_demand(
    candidates: &mut Vec<Candidate>,
    entry: ProcId,
    within: &ParamBox,
    demand: &Demand,
) -> Result<(), AllocError>
    ensures { OnOk result (candidates.new.items ≡ candidates.old.items ++ of_demand entry within.now demand.now) }
{
    let within = *within;
    let name = demand.name;
    let cond = demand.cond;
    let below = Candidate {
        entry,
        within,
        name,
        piece: Piece::Below(cond.lo()),
    };
    let above = Candidate {
        entry,
        within,
        name,
        piece: Piece::Above(cond.hi()),
    };
    let zero = Candidate {
        entry,
        within,
        name,
        piece: Piece::Zero,
    };
    add_where(candidates, i64::MIN < cond.lo(), below)?;
    add_where(candidates, cond.hi() < i64::MAX, above)?;
    add_where(candidates, leaves_out_zero(cond), zero)?;
    Ok(())
}

/// Adds the candidates of an entry and a box.
fn add_box(
    candidates: &mut Vec<Candidate>,
    entry: ProcId,
    within: &ParamBox,
    demands: &[Demand],
) -> Result<(), AllocError>
    ensures { OnOk result (candidates.new.items ≡ candidates.old.items ++ of_box entry demands.now within.now) }
{
    for demand in demands {
        add_demand(candidates, entry, within, demand)?;
    }
    Ok(())
}

/// Adds the candidates of an entry.
fn add_subject(candidates: &mut Vec<Candidate>, subject: &Subject) -> Result<(), AllocError>
    ensures { OnOk result (candidates.new.items ≡ candidates.old.items ++ of_subject subject.now) }
{
    for within in subject.boxes.as_slice() {
        add_box(
            candidates,
            subject.entry,
            within,
            subject.demands.as_slice(),
        )?;
    }
    Ok(())
}

/// The candidates, by entry, box, demand and piece.
pub(crate) fn candidates_in(alloc: Global, scope: &Scope) -> Result<Vec<Candidate>, AllocError>
    ensures { IfOk result (λ candidates. candidates.items ≡ candidates_of scope.now) }
{
    let mut candidates = Vec::new(alloc);
    for subject in scope.subjects.as_slice() {
        add_subject(&mut candidates, subject)?;
    }
    Ok(candidates)
}
