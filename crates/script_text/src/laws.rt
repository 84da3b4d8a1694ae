// What the grammar means.
ghost use Rattle.std.specs.Prelude.{◌≡◌, ◌↔◌, List, ℕ};
ghost use Rattle.script_text.specs.Words.{words_of, AreWordsOf};
ghost use Rattle.script_text.specs.Grammar.{IsLine};
ghost use Rattle.script_text.specs.declared.line.Line.{Line};

/// A line asks for one thing at most.
pub fn a_line_asks_for_one_thing()
    ensures { (bytes : List ℕ) (asked other : Line) → IsLine bytes asked → IsLine bytes other → asked ≡ other }
{}

/// The words of a text are those that stand between its single spaces, and no others.
pub fn words_stand_between_single_spaces()
    ensures { (text : List ℕ) (words : List (List ℕ)) → (words_of text ≡ words) ↔ AreWordsOf words text }
{}
