// Names of tables.
ghost use Rattle.std.specs.Prelude.{◌≡◌};
ghost use Rattle.std.specs.List.{list_all};
ghost use Rattle.kv_model.specs.Decisions.{is_name, is_name_byte};

use limits::TABLE_NAME_MAX;

/// Whether a table may have this name: 1 to 128 bytes, no control byte, no space, no colon, no DEL.
pub fn is_name(name: &[u8]) -> bool
    ensures { result ≡ is_name name.now }
{
    !name.is_empty() && (name.len() <= TABLE_NAME_MAX && are_name_bytes(name))
}

fn are_name_bytes(bytes: &[u8]) -> bool
    ensures { result ≡ list_all is_name_byte bytes.now }
{
    bytes.iter().all(|b| is_name_byte(*b))
}

fn is_name_byte(b: u8) -> bool
    ensures { result ≡ is_name_byte b }
{
    32 < b && (b != 58 && b != 127)
}
