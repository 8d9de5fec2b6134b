ghost use Rattle.std.specs.Prelude.{◌≡◌, ◌↔◌, IsTrue};
ghost use Rattle.std.specs.List.{Contains};

use vmv_tree::{Name, NamedSite};

/// Whether two names are the same.
pub(crate) fn is_same(name: &Name, other: &Name) -> bool
    ensures { IsTrue result ↔ (name.now ≡ other.now) }
{
    name.bytes() == other.bytes()
}

/// Whether two sites are the same.
pub(crate) fn is_same_site(site: &NamedSite, other: &NamedSite) -> bool
    ensures { IsTrue result ↔ (site.now ≡ other.now) }
{
    site.index == other.index && is_same(&site.proc, &other.proc)
}

/// Whether the sites have this one.
pub(crate) fn is_among(sites: &[NamedSite], site: &NamedSite) -> bool
    ensures { IsTrue result ↔ Contains sites.now site.now }
{
    for other in sites {
        if is_same_site(other, site) {
            return true;
        }
    }
    false
}
