ghost use Rattle.std.specs.Prelude.{◌≡◌, ◌∷◌, IfSome, IfNone};
ghost use Rattle.vmv_report.specs.Work.{IsNext, IsPassed, IsToldBy};

use crate::class::Class;
use crate::proving::is_same;
use vmv_tree::NamedSite;

/// What is left of an entry's lists, as its sites are gone through in order.
#[derive(Drop)]
pub(crate) struct Ahead<'a> {
    /// Of the sites that aren't always provable.
    pub(crate) always: &'a [NamedSite],
    /// Of those that aren't relatively provable.
    pub(crate) relative: &'a [NamedSite],
}

/// What is left behind the site, where that comes next.
fn behind<'a>(ahead: &'a [NamedSite], site: &NamedSite) -> Option<&'a [NamedSite]>
    ensures some { IfSome result (λ rest. ahead.now ≡ site.now ∷ rest.now) }
    ensures none { IfNone result (¬ IsNext ahead.now site.now) }
{
    match ahead {
        [first, rest @ ..] if is_same(first, site) => Some(rest),
        _ => None,
    }
}

impl Ahead<'_> {
    /// Passes the site, and answers its class; none of a site that isn't provable in either way.
    pub(crate) fn class_of(&mut self, site: &NamedSite) -> Option<Class>
        ensures class { IsToldBy (IsNext self.old.always.now site.now) (IsNext self.old.relative.now site.now) result }
        ensures always { IsPassed self.old.always.now site.now self.new.always.now }
        ensures relative { IsPassed self.old.relative.now site.now self.new.relative.now }
    {
        let always = behind(self.always, site);
        let relative = behind(self.relative, site);
        if let Some(rest) = always {
            self.always = rest;
        }
        if let Some(rest) = relative {
            self.relative = rest;
        }
        match (always, relative) {
            (None, _) => Some(Class::Clean),
            (Some(_), None) => Some(Class::Hidden),
            (Some(_), Some(_)) => None,
        }
    }
}
