ghost use Rattle.std.specs.Prelude.{◌≡◌};
ghost use Rattle.vmv_demands.specs.declared.want.Want.{Want as Wanted};
ghost use Rattle.vmv_demands.specs.Shifts.{IsOfWords, shifted};
ghost use Rattle.vmv_demands.specs.Sources.{led_to, led_some};

use crate::lead::Lead;
use crate::shift::Shift;
use crate::want::Want;
use vmv_snapshot::Slot;
use vmv_tree::Name;

/// What a variable holds behind statements, as far as conditions on it are led back to their start.
#[derive(Clone, Copy, Drop)]
pub(crate) enum Source {
    /// What conditions aren't led back from.
    Unknown,
    /// What a variable held at the start.
    Start(Slot),
    /// An answer of an outside function.
    Answer(Name),
    /// What a variable held at the start, moved by sums with literals.
    StartMoved(Slot, Shift),
    /// An answer of an outside function, moved by sums with literals.
    AnswerMoved(Name, Shift),
}

impl Source {
    /// Where this leads that is wanted of what the variable holds.
    pub(crate) fn lead(self, want: Want) -> Lead
        ensures { result ≡ led_to self want }
    {
        match self {
            Source::Unknown => Lead::Nowhere,
            Source::Start(slot) => Lead::At(slot, want),
            Source::Answer(name) => Lead::on_answer(name, want),
            Source::StartMoved(slot, shift) => Lead::on_slot(slot, shift.want(want)),
            Source::AnswerMoved(name, shift) => match shift.want(want) {
                Some(before) => Lead::on_answer(name, before),
                None => Lead::Nowhere,
            },
        }
    }

    /// What a variable holds that gets this value moved.
    pub(crate) fn moved(self, shift: Shift) -> Source
        ensures { (want : Wanted) → IsOfWords want → led_to result want ≡ led_some self (shifted shift want) }
    {
        match self {
            Source::Unknown => Source::Unknown,
            Source::Start(slot) => Source::StartMoved(slot, shift),
            Source::Answer(name) => Source::AnswerMoved(name, shift),
            Source::StartMoved(slot, first) => match shift.behind(first) {
                Some(both) => Source::StartMoved(slot, both),
                None => Source::Unknown,
            },
            Source::AnswerMoved(name, first) => match shift.behind(first) {
                Some(both) => Source::AnswerMoved(name, both),
                None => Source::Unknown,
            },
        }
    }
}
