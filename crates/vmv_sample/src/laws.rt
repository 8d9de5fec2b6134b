ghost use Rattle.std.specs.Prelude.{◌≤◌, ℕ, length};
ghost use Rattle.vmv_print.specs.Canonical.{canonical};
ghost use Rattle.vmv_sample.specs.Sample.{sample_program};

/// The texts of the samples' programs have no more bytes than a text may have.
pub fn sample_texts_are_short()
    ensures { (more : ℕ) → more ≤ 2 → length (canonical (sample_program more)) ≤ 1048576 }
{}
