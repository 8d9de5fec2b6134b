ghost use Rattle.std.specs.Prelude.{◌≡◌, ◌≤◌, length};
ghost use Rattle.vmv_back.specs.Boxes.{full_box};

use vmv_snapshot::ParamBox;
use vmv_tree::Param;

/// The box of the whole ranges of parameters: for each parameter its own range, in order. An entry has at most 16.
pub fn full_box(params: &[Param]) -> ParamBox
    requires { length params.now ≤ 16 }
    ensures { result ≡ full_box params.now }
{
    let mut full = ParamBox::new();
    for param in params {
        full.push(param.lo, param.hi);
    }
    full
}
