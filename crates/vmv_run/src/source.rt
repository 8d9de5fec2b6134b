ghost use Rattle.std.specs.Prelude.{◌≡◌, length, IfSome};
ghost use Rattle.vmv_run.specs.Replay.{pairs};
ghost use Rattle.vmv_run.specs.Constant.{word_of};
ghost use Rattle.vmv_run.specs.Source.{Answered, taken_of, IsSound};

use crate::answer::{Answer, Answers};
use vmv_tree::Name;

/// Where the answers of outside calls come from.
#[derive(Drop)]
pub(crate) enum Source<'a> {
    /// These answers in order, so many of which were used.
    Given {
        answers: &'a [Answer],
        used: usize,
    },
    /// Each name always answers its value, the values standing in the order of the names. The answers are kept.
    Constant {
        names: &'a [Name],
        values: &'a [i64],
        taken: Answers,
    },
}

/// The value of a name, and 0 for a name that has none.
fn value_of(names: &[Name], values: &[i64], name: &Name) -> i64
    ensures { result ≡ word_of names.now values.now name.now }
{
    for i in 0..names.len().min(values.len()) {
        if names[i].bytes() == name.bytes() {
            return values[i];
        }
    }
    0
}

impl Source<'_> {
    /// The answer to a call of this name. `None` where there is none, or no memory to keep it.
    pub(crate) fn answer(&mut self, name: &Name) -> Option<i64>
        ensures { Answered self.old self.new name.now result }
    {
        match self {
            Source::Given { answers, used } => {
                let answer = answers.get(*used)?;
                if answer.name.bytes() != name.bytes() {
                    return None;
                }
                *used += 1;
                Some(answer.value)
            }
            Source::Constant {
                names,
                values,
                taken,
            } => {
                let value = value_of(names, values, name);
                let answer = Answer { name: *name, value };
                match taken.push(answer) {
                    Ok(()) => Some(value),
                    Err(_) => None,
                }
            }
        }
    }

    /// How many answers were taken.
    pub(crate) fn used(&self) -> usize
        ensures { IsSound self.now → result ≡ length (taken_of self.now) }
    {
        match self {
            Source::Given { used, .. } => *used,
            Source::Constant { taken, .. } => taken.len(),
        }
    }

    /// The answers that were taken, where they were kept.
    pub(crate) fn into_taken(self) -> Option<Answers>
        ensures { IfSome result (λ taken. pairs taken ≡ taken_of self.entry) }
    {
        match self {
            Source::Given { .. } => None,
            Source::Constant { taken, .. } => Some(taken),
        }
    }
}
