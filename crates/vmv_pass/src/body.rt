ghost use Rattle.std.specs.Prelude.{◌≡◌, ◌+◌, ◌<◌, ◌≤◌, Option, List, IsTrue, IsFalse, length};
ghost use Rattle.vmv_tree.specs.Tree.{Item};
ghost use Rattle.vmv_snapshot.specs.declared.code.Code.{Code};
ghost use Rattle.vmv_snapshot.specs.Procs.{params_of};
ghost use Rattle.vmv_snapshot.specs.Resolution.{procs_of};
ghost use Rattle.vmv_zone.specs.declared.zone.Zone.{Zone};
ghost use Rattle.vmv_zone.specs.Zone.{vars_of};
ghost use Rattle.vmv_cert.specs.Tables.{IsAbove};
ghost use Rattle.vmv_pass.specs.Source.{Source, result_in};
ghost use Rattle.vmv_pass.specs.Holds.{Settles};
ghost use Rattle.vmv_pass.specs.Room.{rooms, ranks};
ghost use Rattle.vmv_pass.specs.Upper.{IsProc, AreScale, Fits, AreBelow, IsUnder, IsUpper};
ghost use Rattle.vmv_pass.specs.Moves.{stored_of};
ghost use Rattle.vmv_pass.specs.Told.{AreTold};

use crate::call::zone_operand;
use crate::place::{Mark, Passed, Place, Spare};
use crate::steps::Steps;
use crate::walk::pass_block;
use std::sync::ledger::Ledger;
use vmv_step::enter_into;
use vmv_zone::Zone;

/// One pass over a procedure: walks through it once from entering it with the input, and raises what is stored.
///
/// `keeps` has the state at each loop of the procedure, in text order. `inputs` has the input of each call of a helper, in
/// text order, `risen` a flag for each of these calls, which is set where the input is raised and else left as it is, and
/// `unproved` a flag for each site. The state at a loop is raised to the least threshold state above it and the states that
/// the walk comes to, an input to the norm of the join. The raising of a state at a loop is one step, the raising of an
/// input none. A pass that raises inputs alone leaves what is stored settled. The thresholds are in order, and have 0 and
/// the bounds that words keep. The spare states are those that the pass works in.
pub fn raise<L: Ledger>(
    at: &Place<'_>,
    keeps: &mut [Zone],
    inputs: &mut [Zone],
    risen: &mut [bool],
    unproved: &mut [bool],
    steps: &mut Steps<L>,
    spare: &mut Spare,
) -> Passed
    requires proc { at.now.proc.0 < length (procs_of at.now.snapshot.now) }
    requires scale { AreScale at.now.thresholds.now }
    requires input { (item : Item) (code : Code) → IsProc at.now.snapshot.now at.now.proc.0 item code → vars_of at.now.input.now ≡ length (params_of item) }
    requires fits { (item : Item) (code : Code) → IsProc at.now.snapshot.now at.now.proc.0 item code → Fits at.now.snapshot.now at.now.thresholds.now item code (stored_of at.now keeps.old inputs.old unproved.old) }
    ensures keeps_stay { IsFalse result.raised → keeps.new ≡ keeps.old }
    ensures inputs_stay { IsFalse result.raised → inputs.new ≡ inputs.old }
    ensures looped { IsFalse result.raised → IsFalse result.looped }
    ensures settled { IsFalse result.looped → (item : Item) (code : Code) → IsProc at.now.snapshot.now at.now.proc.0 item code → Settles (stored_of at.now keeps.new inputs.new unproved.new) item code at.now.input.now result.range }
    ensures fits { (item : Item) (code : Code) → IsProc at.now.snapshot.now at.now.proc.0 item code → Fits at.now.snapshot.now at.now.thresholds.now item code (stored_of at.now keeps.new inputs.new unproved.new) }
    ensures keeps_rise { AreBelow keeps.old keeps.new }
    ensures inputs_rise { AreBelow inputs.old inputs.new }
    ensures told { AreTold inputs.old risen.old inputs.new risen.new }
    ensures falls { IsTrue result.raised → rooms keeps.new + rooms inputs.new < rooms keeps.old + rooms inputs.old }
    ensures under { (source : Source) (item : Item) (code : Code) (e : Zone) (calls : List (Option Zone)) → IsUpper at.now.snapshot.now at.now.proc.0 at.now.thresholds.now at.now.input.now (stored_of at.now keeps.old inputs.old unproved.old) source item code e calls → IsUnder source calls (stored_of at.now keeps.old inputs.old unproved.old) → IsUnder source calls (stored_of at.now keeps.new inputs.new unproved.new) × IsAbove (result_in source) result.range }
    ensures steps_rise { steps.old ≤ steps.new }
    ensures counted { steps.new ≡ steps.old → keeps.new ≡ keeps.old }
    ensures cost { steps.new + ranks at.now.thresholds.now keeps.old ≤ steps.old + ranks at.now.thresholds.now keeps.new }
{
    let _program = at.snapshot.program();
    let code = at.snapshot.code(at.proc);
    enter_into(at.snapshot, at.proc, at.input, &mut spare.walked);
    let mut mark = Mark {
        keep: 0,
        call: 0,
        raised: false,
        looped: false,
    };
    pass_block(
        at,
        code.block.as_slice(),
        keeps,
        inputs,
        risen,
        unproved,
        &mut mark,
        steps,
        &mut spare.passed,
        &mut spare.walked,
    );
    Passed {
        range: spare.walked.range_normed(zone_operand(code.result)),
        raised: mark.raised,
        looped: mark.looped,
    }
}
