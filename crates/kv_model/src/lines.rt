//! Laws of lines of versions.

ghost use Rattle.kv_model.specs.LineLaws.{LinesDescend};

/// The standing versions of a key are sorted by name, newest first.
pub fn lines_descend()
    ensures { LinesDescend }
{}
