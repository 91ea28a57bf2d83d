//! Laws over all values.

ghost use Rattle.std.specs.Prelude.{◌≡◌};
ghost use Rattle.krb_text.specs.declared.cutter.LineCutter.TheInside.{Inside};

/// A cutter holds its line, the flag that the line is ready, and the number of bytes that it took, and nothing else: its size is
/// bounded by the longest line.
pub fn cutters_hold_nothing_else()
    ensures { (a b : Inside) → a.line ≡ b.line → a.is_ready ≡ b.is_ready → a.taken ≡ b.taken → a ≡ b }
{}
