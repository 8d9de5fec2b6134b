ghost use Rattle.std.specs.Prelude.{◌≡◌};
ghost use Rattle.vmv_valid.specs.Names.{is_among};

use vmv_tree::Name;

/// Whether a name is one of these.
pub fn is_among(names: &[Name], name: &Name) -> bool
    ensures { result ≡ is_among names.now name.now }
{
    for other in names {
        if name.bytes() == other.bytes() {
            return true;
        }
    }
    false
}
