// What the grammar means.
ghost use Rattle.std.specs.Prelude.{◌≡◌, ◌++◌, ◌∷◌, [], List, ℕ};
ghost use Rattle.dump_text.specs.Grammar.{Dump, IsDump, Row};
ghost use Rattle.dump_text.specs.Lines.{HasWhole, Reads, ReadsNone, first_reader};
ghost use Rattle.dump_text.specs.Runs.{HasRead, IsOneLine, IsRowOf, Tells};
ghost use Rattle.dump_text.specs.Written.{dump_lines, row_lines, text_of};
ghost use Rattle.item.specs.declared.formats.Formats.{Formats};
ghost use Rattle.std.specs.List.{AllByRecursion};
ghost use Rattle.dump_text.specs.declared.form.Form.{Form};
ghost use Rattle.dump_text.specs.declared.reader.DumpReader.{DumpReader};
ghost use Rattle.dump_text.specs.declared.reader.Step.{Step};

/// Lines are of one dump at most.
pub fn lines_are_of_one_dump()
    ensures { (lines : List (List ℕ)) (dump other : Dump) → IsDump dump lines → IsDump other lines → dump ≡ other }
{}

/// A new reader has read no line.
pub fn a_new_reader_has_read_nothing()
    ensures { HasRead [] first_reader [] }
{}

/// A reader that has read lines and takes one more has read that one too.
pub fn a_line_is_read_behind_others()
    ensures { (lines : List (List ℕ)) (line : List ℕ) (old new : DumpReader) (said : List Step) (last : Step) → HasRead lines old said → Reads old line new last → HasRead (lines ++ line ∷ []) new (said ++ last ∷ []) }
{}

/// A reader that has read a whole dump and nothing else told that dump.
pub fn a_dump_is_read_whole()
    ensures { (lines : List (List ℕ)) (reader : DumpReader) (said : List Step) (dump : Dump) → HasRead lines reader said → IsDump dump lines → HasWhole reader × Tells dump said }
{}

/// A line that a reader refuses stands in no dump behind the lines before it.
pub fn a_line_that_is_refused_is_wrong()
    ensures { (lines more : List (List ℕ)) (line : List ℕ) (reader : DumpReader) (said : List Step) (dump : Dump) → HasRead lines reader said → ReadsNone reader line → IsDump dump (lines ++ line ∷ more) → ⊥ }
{}

/// Lines that a reader takes as a whole are a dump, and what it says of them tells that dump.
pub fn what_is_read_is_a_dump()
    ensures { (lines : List (List ℕ)) (reader : DumpReader) (said : List Step) → HasRead lines reader said → HasWhole reader → (dump : Dump) × IsDump dump lines × Tells dump said }
{}

/// Lines that a reader takes are the first lines of a dump: so the first line that it refuses is the
/// first that is wrong.
pub fn lines_that_are_read_go_on_to_be_a_dump()
    ensures { (lines : List (List ℕ)) (reader : DumpReader) (said : List Step) → HasRead lines reader said → (more : List (List ℕ)) × (dump : Dump) × IsDump dump (lines ++ more) }
{}

/// What is written of a table and its rows is a dump that tells the same.
pub fn what_is_written_is_a_dump()
    ensures { (form : Form) (name : List ℕ) (formats : Formats) (rows : List Row) → AllByRecursion (IsRowOf formats) rows → IsDump (record { form = form; name = name; formats = formats; rows = rows }) (dump_lines form name formats rows) }
{}

/// A reader that has read the lines that are written of a table and its rows, and nothing else, told
/// that table and those rows.
pub fn what_is_written_is_read()
    ensures { (form : Form) (name : List ℕ) (formats : Formats) (rows : List Row) (reader : DumpReader) (said : List Step) → AllByRecursion (IsRowOf formats) rows → HasRead (dump_lines form name formats rows) reader said
        → HasWhole reader × Tells (record { form = form; name = name; formats = formats; rows = rows }) said }
{}

/// A row's lines behind the text of a dump are the text of the dump with that row.
pub fn rows_are_written_one_behind_the_other()
    ensures { (form : Form) (name : List ℕ) (formats : Formats) (rows : List Row) (row : Row) → text_of (dump_lines form name formats rows) ++ text_of (row_lines form row) ≡ text_of (dump_lines form name formats (rows ++ row ∷ [])) }
{}

/// No line that is written has a newline in it, where the table's name has none.
pub fn what_is_written_has_its_lines()
    ensures { (form : Form) (name : List ℕ) (formats : Formats) (rows : List Row) → IsOneLine name → AllByRecursion IsOneLine (dump_lines form name formats rows) }
{}

/// A text parts into lines in one way.
pub fn a_text_has_one_list_of_lines()
    ensures { (lines others : List (List ℕ)) → AllByRecursion IsOneLine lines → AllByRecursion IsOneLine others → text_of lines ≡ text_of others → lines ≡ others }
{}
