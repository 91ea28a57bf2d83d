//! Laws of the printed lines, for all values.

ghost use Rattle.std.specs.Prelude.{◌≡◌, ◌<◌, ◌^◌, ℕ, List, length};
ghost use Rattle.krb_script.specs.Script.{Declared};
ghost use Rattle.krb_threads.specs.Answers.{IsAnswer};

/// The printed lines determine the journal: two runs over the same declarations, of fewer than 2^64 events, whose texts are equal have
/// equal journals, with the asks of the calls. Their replies are equal too.
pub fn texts_tell_the_journal()
    ensures journal { (so_far : Declared) (text : List ℕ) (one other : IsAnswer so_far text) → length so_far.events < 2 ^ 64
        → one.journal ≡ other.journal }
    ensures replies { (so_far : Declared) (text : List ℕ) (one other : IsAnswer so_far text) → length so_far.events < 2 ^ 64
        → (one.first ≡ other.first) × (one.second ≡ other.second) }
{}
