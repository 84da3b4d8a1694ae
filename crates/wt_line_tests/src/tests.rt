// What words that people type come to.
use std::alloc::Global;
use std::process::Abort;
use std::test::Fail;
use wt_line::{LineFault, home_of, parse};

fn owned(alloc: Global, words: &[&str]) -> Result<Vec<String>, Fail> {
    let mut all = Vec::new(alloc);
    for word in words {
        all.push(String::from_str(alloc, word)?)?;
    }
    Ok(all)
}

// The home and the command of the words, as text.
fn answer(alloc: Global, words: &[&str]) -> Result<String, Fail> {
    let words = owned(alloc, words)?;
    let home = home_of(words.as_slice());
    let text = match parse(alloc, words.as_slice()) {
        Ok(command) => format!(in alloc; "{home} {command:?}")?,
        Err(LineFault::Usage) => String::from_str(alloc, "usage")?,
        Err(LineFault::NoMemory) => String::from_str(alloc, "memory")?,
    };
    Ok(text)
}

// Each line is one list of words, with a bar between two words.
fn split<'a>(alloc: Global, line: &'a str) -> Result<Vec<&'a str>, Fail> {
    let mut words = Vec::new(alloc);
    for word in line.split('|') {
        words.push(word)?;
    }
    Ok(words)
}

// Each line comes to the text beside it.
fn come_to(rt: &impl Abort, alloc: Global, rows: &[(&str, &str)]) -> Result<(), Fail> {
    for (line, wanted) in rows {
        let words = split(alloc, line)?;
        let found = answer(alloc, words.as_slice())?;
        assert_eq!(rt; found.as_str(), *wanted, "at {line}");
    }
    Ok(())
}

#[test]
fn words_are_read_as_a_simple_command_s_are(rt: HostRuntime) -> Result<(), Fail> {
    let alloc = rt.alloc();
    let rows = [
        ("create|t", ". Create { config: None, uri: \"t\" }"),
        (
            "create|-c|k|t",
            ". Create { config: Some(\"k\"), uri: \"t\" }",
        ),
        (
            "create|t|-c|k",
            ". Create { config: Some(\"k\"), uri: \"t\" }",
        ),
        (
            "create|-ck|t",
            ". Create { config: Some(\"k\"), uri: \"t\" }",
        ),
        (
            "create|-c=k|t",
            ". Create { config: Some(\"k\"), uri: \"t\" }",
        ),
        (
            "create|-c=|t",
            ". Create { config: Some(\"\"), uri: \"t\" }",
        ),
        (
            "create|-c||t",
            ". Create { config: Some(\"\"), uri: \"t\" }",
        ),
        (
            "create|-c|-|t",
            ". Create { config: Some(\"-\"), uri: \"t\" }",
        ),
        (
            "create|-c-k|t",
            ". Create { config: Some(\"-k\"), uri: \"t\" }",
        ),
        ("create|", ". Create { config: None, uri: \"\" }"),
        ("create|-", ". Create { config: None, uri: \"-\" }"),
        ("create|--|-t", ". Create { config: None, uri: \"-t\" }"),
        ("create|--|--", ". Create { config: None, uri: \"--\" }"),
        ("create|help", ". Create { config: None, uri: \"help\" }"),
        (
            "write|t|k|v",
            ". Write { overwrite: false, uri: \"t\", pairs: [(\"k\", \"v\")] }",
        ),
        (
            "write|-o|t|k|v",
            ". Write { overwrite: true, uri: \"t\", pairs: [(\"k\", \"v\")] }",
        ),
        (
            "write|t|-o|k|v",
            ". Write { overwrite: true, uri: \"t\", pairs: [(\"k\", \"v\")] }",
        ),
        (
            "write|t|k|-o|v",
            ". Write { overwrite: true, uri: \"t\", pairs: [(\"k\", \"v\")] }",
        ),
        (
            "write|t|k|v|-o",
            ". Write { overwrite: true, uri: \"t\", pairs: [(\"k\", \"v\")] }",
        ),
        (
            "write|t|k|--|-v",
            ". Write { overwrite: false, uri: \"t\", pairs: [(\"k\", \"-v\")] }",
        ),
        (
            "write|t|k|--|--",
            ". Write { overwrite: false, uri: \"t\", pairs: [(\"k\", \"--\")] }",
        ),
        (
            "write|--|-o|k|v",
            ". Write { overwrite: false, uri: \"-o\", pairs: [(\"k\", \"v\")] }",
        ),
        (
            "write|t|k|v|l|w",
            ". Write { overwrite: false, uri: \"t\", pairs: [(\"k\", \"v\"), (\"l\", \"w\")] }",
        ),
        (
            "write|t||",
            ". Write { overwrite: false, uri: \"t\", pairs: [(\"\", \"\")] }",
        ),
        (
            "write|t|k|-",
            ". Write { overwrite: false, uri: \"t\", pairs: [(\"k\", \"-\")] }",
        ),
        ("read|t|a", ". Read { uri: \"t\", keys: [\"a\"] }"),
        (
            "read|t|a|b|a",
            ". Read { uri: \"t\", keys: [\"a\", \"b\", \"a\"] }",
        ),
        ("read|t|", ". Read { uri: \"t\", keys: [\"\"] }"),
        (
            "read|t|--|-a|b|--|c",
            ". Read { uri: \"t\", keys: [\"-a\", \"b\", \"--\", \"c\"] }",
        ),
        ("read|t|a=b", ". Read { uri: \"t\", keys: [\"a=b\"] }"),
        ("read|t|-", ". Read { uri: \"t\", keys: [\"-\"] }"),
        ("read|--|-t|-a", ". Read { uri: \"-t\", keys: [\"-a\"] }"),
        ("read|t|é", ". Read { uri: \"t\", keys: [\"é\"] }"),
        (
            "read|create|read",
            ". Read { uri: \"create\", keys: [\"read\"] }",
        ),
        (
            "-h|d|write|-o|t|k|v",
            "d Write { overwrite: true, uri: \"t\", pairs: [(\"k\", \"v\")] }",
        ),
        ("-h|d|create|t", "d Create { config: None, uri: \"t\" }"),
        ("-h||create|t", " Create { config: None, uri: \"t\" }"),
        ("-h|-x|create|t", "-x Create { config: None, uri: \"t\" }"),
        ("-h|-h|create|t", "-h Create { config: None, uri: \"t\" }"),
        ("list", ". List"),
        ("list|--", ". List"),
        ("-h|d|list", "d List"),
        ("verify", ". Verify { uri: None }"),
        ("verify|t", ". Verify { uri: Some(\"t\") }"),
        ("verify|--|-t", ". Verify { uri: Some(\"-t\") }"),
        ("script", ". Script"),
        ("script|--", ". Script"),
        ("-h|d|script", "d Script"),
        (
            "dump|t",
            ". Dump { hex: false, reverse: false, uri: \"t\" }",
        ),
        (
            "dump|-x|-r|t",
            ". Dump { hex: true, reverse: true, uri: \"t\" }",
        ),
        (
            "dump|t|-rx",
            ". Dump { hex: true, reverse: true, uri: \"t\" }",
        ),
        (
            "-h|d|dump|-r|t",
            "d Dump { hex: false, reverse: true, uri: \"t\" }",
        ),
        (
            "dump|--|-x",
            ". Dump { hex: false, reverse: false, uri: \"-x\" }",
        ),
        ("load", ". Load { no_overwrite: false, name: None }"),
        ("-h|d|load|--", "d Load { no_overwrite: false, name: None }"),
        (
            "load|-nr|u",
            ". Load { no_overwrite: true, name: Some(\"u\") }",
        ),
        (
            "load|-r|table:u|-n",
            ". Load { no_overwrite: true, name: Some(\"table:u\") }",
        ),
        (
            "load|-r=u",
            ". Load { no_overwrite: false, name: Some(\"u\") }",
        ),
    ];
    come_to(&rt, alloc, &rows)
}

#[test]
fn other_words_are_no_command(rt: HostRuntime) -> Result<(), Fail> {
    let alloc = rt.alloc();
    let none = answer(alloc, &[])?;
    assert_eq!(rt; none.as_str(), "usage");
    let rows = [
        "create|-c|-k|t",
        "create|-c|--|t",
        "create|-c|k|-c|l|t",
        "create|-ck|-cl|t",
        "create|-c|k",
        "create|t|-c",
        "create|-x|t",
        "create|--config|k|t",
        "create|t|u",
        "create",
        "create|-h",
        "create|--help",
        "create|-V",
        "write|t|k|v|--|-o",
        "write|-o|-o|t|k|v",
        "write|-oo|t|k|v",
        "write|-o=true|t|k|v",
        "write|-ox|t|k|v",
        "write|-oh|t|k|v",
        "write|t|k",
        "write|t|k|v|l",
        "write|t",
        "write|t|k|-1",
        "write|t|k|-v",
        "write|t|k|--v",
        "write|t|k|--=",
        "read|t",
        "read|t|--",
        "read|t|-a",
        "read|-ot|a",
        "read|-o|t|a",
        "",
        "-h",
        "-h|d",
        "-h|create|t",
        "-h|d|-h|e|create|t",
        "-hd|create|t",
        "create|-h|d|t",
        "create|t|-h|d",
        "--",
        "--|create|t",
        "help",
        "help|create",
        "help|nothing",
        "--help",
        "--version",
        "-V",
        "creat|t",
        "Create|t",
        "t|create",
        "list|t",
        "list|-o",
        "lists",
        "verify|t|u",
        "verify|-o",
        "script|t",
        "script|-o",
        "script|-h|d",
        "script|--|t",
        "scripts",
        "dump",
        "dump|-x",
        "dump|t|u",
        "dump|-x|-x|t",
        "dump|-xx|t",
        "dump|-n|t",
        "dump|-x=true|t",
        "dumps|t",
        "load|t",
        "load|-r",
        "load|-n|-n",
        "load|-r|t|-r|u",
        "load|-f|t",
        "loads",
    ];
    for line in &rows {
        let words = split(alloc, line)?;
        let found = answer(alloc, words.as_slice())?;
        assert_eq!(rt; found.as_str(), "usage", "at {line}");
    }
    Ok(())
}
