// One item of a configuration, and the items of a key.
ghost use Rattle.std.specs.Prelude.{◌≡◌, option_map};
ghost use Rattle.config_text.specs.Items.{last_value, pairs_of};

/// An item of a configuration, lent from its text.
#[derive(Clone, Copy, Debug)]
pub struct ConfigItem<'a> {
    /// The key: one byte or more.
    pub key: &'a [u8],
    /// The value: empty where the item is a key alone. Quotes around it are no part of it, brackets
    /// are.
    pub value: &'a [u8],
}

/// The value of a key: that of the last item that has it. `O(bytes of keys)`.
pub fn get<'a>(items: &[ConfigItem<'a>], key: &[u8]) -> Option<&'a [u8]>
    ensures { option_map (λ v. v.now) result ≡ last_value key.now (pairs_of items.now) }
{
    let mut found = None;
    for item in items {
        if item.key == key {
            found = Some(item.value);
        }
    }
    found
}
