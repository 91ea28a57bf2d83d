//! Laws over all values.

ghost use Rattle.std.specs.Prelude.{◌≡◌, ◌<◌, ◌-◌, ◌^◌, ◌++◌, [], ◌∷◌, List, ℕ, true, is_some, Some, None, min, length, option_map};
ghost use Rattle.std.specs.List.{concat};
ghost use Rattle.krb_text.specs.Lines.{cut};
ghost use Rattle.krb_script.specs.Script.{Declared, declare_line, reading_of};
ghost use Rattle.krb_script.specs.declared.stop.Stop.TheVariants.{Bad, Whole};
ghost use Rattle.krb_reasons.specs.BadLines.{after_lines, first_bad_in, first_bad_of, number_of};
ghost use Rattle.krb_reasons.specs.Judged.{nothing_judged, judged_of, after};
ghost use Rattle.krb_reasons.specs.Kept.{kept_of, KeepsLines};

/// A judge takes exactly the lines that an input may have, whatever came before.
pub fn lines_are_judged_as_declared()
    ensures { (so_far : Declared) (line : List ℕ) → option_map judged_of (declare_line so_far line) ≡ after (judged_of so_far) line }
{}

/// In the kept part of an input, however the input comes in pieces, the head represents the lines before the tail.
pub fn lines_are_kept_or_counted()
    ensures { (pieces : List (List ℕ)) → KeepsLines (concat pieces) (kept_of pieces) }
{}

/// If each line that ended before the last piece is allowed, the first bad line of what is kept is that of the whole input.
pub fn the_first_bad_line_is_that_of_the_input()
    ensures { (pieces : List (List ℕ)) (last : List ℕ) → is_some (after_lines nothing_judged (cut (concat pieces)).whole) ≡ true
        → first_bad_of (kept_of (pieces ++ last ∷ [])) ≡ first_bad_in (concat (pieces ++ last ∷ [])) }
{}

/// If reading an input stops at a bad line of its last piece, or at its end without a skew, the first bad line of what is kept has
/// that line's number.
pub fn the_first_bad_line_is_where_reading_stops()
    ensures bad { (pieces : List (List ℕ)) (last : List ℕ)
        → length (cut (concat pieces)).whole < (reading_of (concat (pieces ++ last ∷ []))).number
        → (reading_of (concat (pieces ++ last ∷ []))).stop ≡ Bad
        → number_of (first_bad_of (kept_of (pieces ++ last ∷ []))) ≡ Some (min (reading_of (concat (pieces ++ last ∷ []))).number (2 ^ 64 - 1)) }
    ensures skew { (pieces : List (List ℕ)) (last : List ℕ)
        → (reading_of (concat (pieces ++ last ∷ []))).stop ≡ Whole
        → (reading_of (concat (pieces ++ last ∷ []))).so_far.setup.skew ≡ None
        → number_of (first_bad_of (kept_of (pieces ++ last ∷ []))) ≡ Some (min (reading_of (concat (pieces ++ last ∷ []))).number (2 ^ 64 - 1)) }
{}
