// Texts that people write, and what is read of them.
use config_text::{ConfigItem, get, table_formats, top_items};
use item::{Format, Formats};
use std::alloc::Global;
use std::test::*;
use wt_code::{Invalid, Refusal};

// The items, each with an equals sign before its value and a semicolon behind it; a dash for none.
fn shown(alloc: Global, text: &str) -> Result<String, Fail> {
    let mut out = String::new(alloc);
    let Some(items) = top_items(alloc, text.as_bytes())? else {
        out.push_str("-")?;
        return Ok(out);
    };
    for item in &items {
        let key = String::from_utf8_lossy(alloc, item.key)?;
        let value = String::from_utf8_lossy(alloc, item.value)?;
        out.push_str(key.as_str())?;
        out.push_str("=")?;
        out.push_str(value.as_str())?;
        out.push_str(";")?;
    }
    Ok(out)
}

#[test]
fn items_are_read_as_they_are_written(rt: HostRuntime) -> Result<(), Fail> {
    let rows = [
        ("", ""),
        ("a", "a=;"),
        ("a,b", "a=;b=;"),
        ("a=1,b=", "a=1;b=;"),
        (",,a,,b=2,", "a=;b=2;"),
        ("a=b=c", "a=b=c;"),
        ("a=\"x,y\",b", "a=x,y;b=;"),
        ("a=\"\"", "a=;"),
        ("a=()", "a=();"),
        (
            "app_metadata=(a,b=[c,d]),k=v",
            "app_metadata=(a,b=[c,d]);k=v;",
        ),
        ("a=[(),\")]\",()]", "a=[(),\")]\",()];"),
        ("=S", "-"),
        ("a,=", "-"),
        ("a=(S", "-"),
        ("a=\"S", "-"),
        ("a=(\")", "-"),
        ("a=([)]", "-"),
        ("a=)", "-"),
        ("a=(b)c", "-"),
        ("a=b(c)", "-"),
        ("a(b)", "-"),
    ];
    for (text, expected) in rows {
        assert_eq!(rt; shown(rt.alloc(), text)?.as_str(), expected);
    }
    Ok(())
}

#[test]
fn formats_are_named_by_the_last_of_equal_keys(rt: HostRuntime) -> Result<(), Fail> {
    let text = Formats {
        key: Format::S,
        value: Format::S,
    };
    let plain = Formats {
        key: Format::U,
        value: Format::U,
    };
    let refused = Err(Refusal::Invalid(Invalid::BadConfig));
    let rows = [
        ("", Ok(plain)),
        (
            "key_format=S,app_metadata=(a,b=[c,d]),value_format=S",
            Ok(text),
        ),
        (
            "app_metadata=,colgroups=,key_format=S,value_format=S",
            Ok(text),
        ),
        (
            "key_format=S,value_format=\"S\",key_format=u,key_format=S",
            Ok(text),
        ),
        ("key_format=S,key_format=u", Ok(plain)),
        ("key_format=(S", refused),
        ("=S", refused),
        ("key_format=Q", refused),
        ("value_format", refused),
    ];
    for (config, expected) in rows {
        assert!(rt; table_formats(rt.alloc(), config.as_bytes()) == expected);
    }
    let items = [
        ConfigItem {
            key: b"a",
            value: b"1",
        },
        ConfigItem {
            key: b"a",
            value: b"2",
        },
    ];
    assert!(rt; get(&items, b"a") == Some(b"2".as_slice()));
    assert!(rt; get(&items, b"b").is_none());
    Ok(())
}
