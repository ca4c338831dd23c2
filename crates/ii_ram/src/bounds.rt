ghost use Rattle.ii_ram.specs.TrueBounds.{OpensTrueBounds};

/// States that files whose blocks have true bounds open as such an index. `write_index` writes such files.
pub fn opens_true_bounds()
    ensures { OpensTrueBounds }
{}
