// What the definition says without `clap`'s words.
ghost use Rattle.std.specs.Prelude.{◌≡◌, ◌∷◌, [], Some, None, codes, false, List, true};
ghost use Rattle.clap.specs.Walk.{Text};
ghost use Rattle.wt_line.specs.Line.{command_of, create, dump, list, load, read, script, verify, write_of};
ghost use Rattle.wt_line.specs.Plain.{IsPlain, HasItems, HasPlainItems, create_words, write_words, read_words, dashed};

/// Words that do not begin with a hyphen are items, in their order: behind a command's name the
/// table, then its keys, or its keys and values by turns. The words are fewer than 2^64. Behind
/// `list`, `script` and `load` there is none, behind `verify` a table or none, behind `dump` a table,
/// and one flag or none before it. Behind the flag `-r` of `load` there is the name of a table.
pub fn plain_words_are_items()
    ensures create { (uri : Text) → IsPlain uri → command_of (codes "create" ∷ uri ∷ []) ≡ Some (create None uri) }
    ensures configured { (config uri : Text) → IsPlain config → IsPlain uri → command_of (create_words config uri) ≡ Some (create (Some config) uri) }
    ensures write { (uri : Text) (items : List Text) → HasPlainItems uri items → command_of (write_words false uri items) ≡ write_of false uri items }
    ensures overwrite { (uri : Text) (items : List Text) → HasPlainItems uri items → command_of (write_words true uri items) ≡ write_of true uri items }
    ensures read { (uri : Text) (items : List Text) → HasPlainItems uri items → command_of (read_words uri items) ≡ Some (read uri items) }
    ensures list { command_of (codes "list" ∷ []) ≡ Some list }
    ensures verify { command_of (codes "verify" ∷ []) ≡ Some (verify None) }
    ensures one { (uri : Text) → IsPlain uri → command_of (codes "verify" ∷ uri ∷ []) ≡ Some (verify (Some uri)) }
    ensures script { command_of (codes "script" ∷ []) ≡ Some script }
    ensures dump { (uri : Text) → IsPlain uri → command_of (codes "dump" ∷ uri ∷ []) ≡ Some (dump false false uri) }
    ensures hex { (uri : Text) → IsPlain uri → command_of (codes "dump" ∷ codes "-x" ∷ uri ∷ []) ≡ Some (dump true false uri) }
    ensures reverse { (uri : Text) → IsPlain uri → command_of (codes "dump" ∷ codes "-r" ∷ uri ∷ []) ≡ Some (dump false true uri) }
    ensures load { command_of (codes "load" ∷ []) ≡ Some (load false None) }
    ensures kept { command_of (codes "load" ∷ codes "-n" ∷ []) ≡ Some (load true None) }
    ensures renamed { (name : Text) → IsPlain name → command_of (codes "load" ∷ codes "-r" ∷ name ∷ []) ≡ Some (load false (Some name)) }
    ensures both { (name : Text) → IsPlain name → command_of (codes "load" ∷ codes "-n" ∷ codes "-r" ∷ name ∷ []) ≡ Some (load true (Some name)) }
{}

/// Behind `--` each word is an item, whatever it begins with.
pub fn words_behind_two_hyphens_are_items()
    ensures create { (uri : Text) → command_of (codes "create" ∷ codes "--" ∷ uri ∷ []) ≡ Some (create None uri) }
    ensures verify { (uri : Text) → command_of (codes "verify" ∷ codes "--" ∷ uri ∷ []) ≡ Some (verify (Some uri)) }
    ensures dump { (uri : Text) → command_of (codes "dump" ∷ codes "--" ∷ uri ∷ []) ≡ Some (dump false false uri) }
    ensures write { (uri : Text) (items : List Text) → HasItems uri items → command_of (write_words false uri (dashed items)) ≡ write_of false uri items }
    ensures read { (uri : Text) (items : List Text) → HasItems uri items → command_of (read_words uri (dashed items)) ≡ Some (read uri items) }
{}
