// What the grammar means.
ghost use Rattle.std.specs.Prelude.{◌≡◌, List, ℕ};
ghost use Rattle.config_text.specs.Grammar.{Pair, AreItems};

/// A text has one list of items at most.
pub fn a_text_has_one_list_of_items()
    ensures { (text : List ℕ) (items others : List Pair) → AreItems items text → AreItems others text → items ≡ others }
{}
