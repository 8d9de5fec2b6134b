ghost use Rattle.std.specs.Prelude.{◌≡◌, ℕ, List};
ghost use Rattle.vmv_disk.specs.State.{Moment, MayLeave};
ghost use Rattle.vmv_disk.specs.Effects.{begun_at, synced_as};

/// A law, with nothing to do: from an Ok sync on, and until a write begins, a crash leaves what was synced.
pub fn synced_bytes_are_left()
    ensures { (bytes left : List ℕ) → MayLeave (synced_as bytes) left → left ≡ bytes }
{}

/// A law, with nothing to do: what a crash may leave it may still leave once a write has begun.
pub fn writes_take_nothing_back()
    ensures { (at size : ℕ) (moment : Moment) (left : List ℕ) → MayLeave moment left → MayLeave (begun_at at size moment) left }
{}
