// A command, from what `clap` found.
ghost use Rattle.std.specs.Prelude.{◌≡◌, IfOk, IfErr, Some, None, map};
ghost use Rattle.std.specs.Option.{option_map};
ghost use Rattle.clap.specs.Words.{all_of, first_of, found_of, rows_of};
ghost use Rattle.wt_line.specs.Line.{is_set, as_create, as_dump, as_load, as_read, as_verify, as_write, as_command, meaning, pairs_of, pair_texts};
ghost use Rattle.wt_line.specs.declared.line.LineFault.TheVariants.{Usage};

use crate::line::LineFault;
use clap::ArgMatches;
use std::alloc::Global;

/// A command, with the words that it has. `meaning` of `specs/Line` is what contracts see.
#[derive(Debug, Drop)]
pub enum Command<'a> {
    /// Makes a table.
    Create {
        /// The table's configuration, where one is given.
        config: Option<&'a str>,
        /// The table.
        uri: &'a str,
    },
    /// Puts values under keys.
    Write {
        /// Whether a key may be present.
        overwrite: bool,
        /// The table.
        uri: &'a str,
        /// Each key with its value, one pair or more.
        pairs: Vec<(&'a str, &'a str)>,
    },
    /// Gives the values under keys.
    Read {
        /// The table.
        uri: &'a str,
        /// The keys, one or more.
        keys: Vec<&'a str>,
    },
    /// Gives the names of all tables.
    List,
    /// Reads the whole device.
    Verify {
        /// A table that has to be there.
        uri: Option<&'a str>,
    },
    /// Runs the script on the standard input.
    Script,
    /// Gives the rows of a table.
    Dump {
        /// Whether items are written as hexadecimal.
        hex: bool,
        /// Whether the last row comes first.
        reverse: bool,
        /// The table.
        uri: &'a str,
    },
    /// Makes a table, and puts the rows of the dump on the standard input.
    Load {
        /// Whether a key that is present is refused.
        no_overwrite: bool,
        /// The table, where it is another one than the dump tells.
        name: Option<&'a str>,
    },
}

// The command of this name, of what was found for it.
pub(crate) fn command_in<'a>(
    alloc: Global,
    name: &str,
    found: &ArgMatches<'a>,
) -> Result<Command<'a>, LineFault>
    ensures command { IfOk result (λ c. as_command (name.now, rows_of (found_of found.now)) ≡ Some (meaning c)) }
    ensures usage { IfErr result (λ e. e ≡ Usage → as_command (name.now, rows_of (found_of found.now)) ≡ None) }
{
    if name == "create" {
        create_in(found)
    } else if name == "write" {
        write_in(alloc, found)
    } else if name == "read" {
        read_in(alloc, found)
    } else if name == "list" {
        Ok(Command::List)
    } else if name == "verify" {
        Ok(verify_in(found))
    } else if name == "script" {
        Ok(Command::Script)
    } else if name == "dump" {
        dump_in(found)
    } else if name == "load" {
        Ok(load_in(found))
    } else {
        Err(LineFault::Usage)
    }
}

fn create_in<'a>(found: &ArgMatches<'a>) -> Result<Command<'a>, LineFault>
    ensures command { IfOk result (λ c. as_create (rows_of (found_of found.now)) ≡ Some (meaning c)) }
    ensures usage { IfErr result (λ e. e ≡ Usage → as_create (rows_of (found_of found.now)) ≡ None) }
{
    match text_in(found, "uri") {
        Some(uri) => Ok(Command::Create {
            config: text_in(found, "config"),
            uri,
        }),
        None => Err(LineFault::Usage),
    }
}

fn write_in<'a>(alloc: Global, found: &ArgMatches<'a>) -> Result<Command<'a>, LineFault>
    ensures command { IfOk result (λ c. as_write (rows_of (found_of found.now)) ≡ Some (meaning c)) }
    ensures usage { IfErr result (λ e. e ≡ Usage → as_write (rows_of (found_of found.now)) ≡ None) }
{
    let Some(uri) = text_in(found, "uri") else {
        return Err(LineFault::Usage);
    };
    let Some(items) = texts_in(found, "items") else {
        return Err(LineFault::Usage);
    };
    let pairs = pairs_in(alloc, items)?;
    let overwrite = is_set(found, "overwrite");
    Ok(Command::Write {
        overwrite,
        uri,
        pairs,
    })
}

fn read_in<'a>(alloc: Global, found: &ArgMatches<'a>) -> Result<Command<'a>, LineFault>
    ensures command { IfOk result (λ c. as_read (rows_of (found_of found.now)) ≡ Some (meaning c)) }
    ensures usage { IfErr result (λ e. e ≡ Usage → as_read (rows_of (found_of found.now)) ≡ None) }
{
    let Some(uri) = text_in(found, "uri") else {
        return Err(LineFault::Usage);
    };
    let Some(items) = texts_in(found, "items") else {
        return Err(LineFault::Usage);
    };
    let keys = Vec::from_slice(alloc, items)?;
    Ok(Command::Read { uri, keys })
}

fn verify_in<'a>(found: &ArgMatches<'a>) -> Command<'a>
    ensures { as_verify (rows_of (found_of found.now)) ≡ Some (meaning result) }
{
    Command::Verify {
        uri: text_in(found, "uri"),
    }
}

fn dump_in<'a>(found: &ArgMatches<'a>) -> Result<Command<'a>, LineFault>
    ensures command { IfOk result (λ c. as_dump (rows_of (found_of found.now)) ≡ Some (meaning c)) }
    ensures usage { IfErr result (λ e. e ≡ Usage → as_dump (rows_of (found_of found.now)) ≡ None) }
{
    let Some(uri) = text_in(found, "uri") else {
        return Err(LineFault::Usage);
    };
    Ok(Command::Dump {
        hex: is_set(found, "hex"),
        reverse: is_set(found, "reverse"),
        uri,
    })
}

fn load_in<'a>(found: &ArgMatches<'a>) -> Command<'a>
    ensures { as_load (rows_of (found_of found.now)) ≡ Some (meaning result) }
{
    Command::Load {
        no_overwrite: is_set(found, "no_overwrite"),
        name: text_in(found, "name"),
    }
}

// The first word of an argument.
fn text_in<'a>(found: &ArgMatches<'a>, id: &str) -> Option<&'a str>
    ensures { option_map (λ s. s.now) result ≡ first_of id.now (rows_of (found_of found.now)) }
{
    found.get_str(id)
}

// The words of an argument.
fn texts_in<'b, 'a>(found: &'b ArgMatches<'a>, id: &str) -> Option<&'b [&'a str]>
    ensures { option_map (λ s. map (λ v. v.now) s.now) result ≡ all_of id.now (rows_of (found_of found.now)) }
{
    found.get_strs(id)
}

// Whether a flag was used.
fn is_set(found: &ArgMatches<'_>, id: &str) -> bool
    ensures { result ≡ is_set id.now (rows_of (found_of found.now)) }
{
    match text_in(found, id) {
        Some(text) => text == "true",
        None => false,
    }
}

// The words two by two. An odd number of them is no command. O(words).
fn pairs_in<'a>(alloc: Global, items: &[&'a str]) -> Result<Vec<(&'a str, &'a str)>, LineFault>
    ensures pairs { IfOk result (λ ps. pairs_of (map (λ s. s.now) items.now) ≡ Some (pair_texts ps.items)) }
    ensures usage { IfErr result (λ e. e ≡ Usage → pairs_of (map (λ s. s.now) items.now) ≡ None) }
{
    let mut pairs = Vec::new(alloc);
    let mut rest = items;
    while let [key, value, after @ ..] = rest {
        pairs.push((*key, *value))?;
        rest = after;
    }
    if rest.is_empty() {
        Ok(pairs)
    } else {
        Err(LineFault::Usage)
    }
}
