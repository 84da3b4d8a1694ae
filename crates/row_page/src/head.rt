// The head of a cell: its numbers.
ghost use Rattle.std.specs.Prelude.{◌≡◌, ◌≤◌, ◌+◌, length, take, drop};
ghost use Rattle.std.specs.Int.{w8, w16, w32, w64, from_le_bytes};
ghost use Rattle.le_codec.specs.Fields.{Gives};
ghost use Rattle.row_page.specs.Reading.{is_number, window_fits};
ghost use Rattle.row_page.specs.Heads.{head_of, head_at};

use le_codec::Reader;
use stamp::{Name, Window};

const NUMBERS_END: u64 = 1 << 62;

const LEN: usize = 39; // bytes

// The numbers of a cell. The key and the value stand behind them.
#[derive(Clone, Copy)]
pub(crate) struct Head {
    pub key_len: u16, // bytes
    pub code: u8,
    pub value_len: u32, // bytes
    pub window: Window,
}

fn u8_at(bytes: &[u8], at: usize) -> u8
    requires { at + 1 ≤ length bytes.now }
    ensures { result ≡ from_le_bytes w8 (take 1 (drop at bytes.now)) }
{
    let (_, bytes) = bytes.split_at(at);
    let (front, _) = bytes.split_at(1);
    front[0]
}

fn u16_at(bytes: &[u8], at: usize) -> u16
    requires { at + 2 ≤ length bytes.now }
    ensures { result ≡ from_le_bytes w16 (take 2 (drop at bytes.now)) }
{
    let (_, bytes) = bytes.split_at(at);
    let (front, _) = bytes.split_at(2);
    u16::from_le_bytes([front[0], front[1]])
}

fn u32_at(bytes: &[u8], at: usize) -> u32
    requires { at + 4 ≤ length bytes.now }
    ensures { result ≡ from_le_bytes w32 (take 4 (drop at bytes.now)) }
{
    let (_, bytes) = bytes.split_at(at);
    let (front, _) = bytes.split_at(4);
    u32::from_le_bytes([front[0], front[1], front[2], front[3]])
}

fn u64_at(bytes: &[u8], at: usize) -> u64
    requires { at + 8 ≤ length bytes.now }
    ensures { result ≡ from_le_bytes w64 (take 8 (drop at bytes.now)) }
{
    let (_, bytes) = bytes.split_at(at);
    let (front, _) = bytes.split_at(8);
    u64::from_le_bytes([
        front[0], front[1], front[2], front[3], front[4], front[5], front[6], front[7],
    ])
}

fn head_of(bytes: &[u8]) -> Head
    requires { 39 ≤ length bytes.now }
    ensures { result ≡ head_of bytes.now }
{
    Head {
        key_len: u16_at(bytes, 0),
        code: u8_at(bytes, 2),
        value_len: u32_at(bytes, 3),
        window: Window {
            name: Name {
                run: u64_at(bytes, 7),
                id: u64_at(bytes, 15),
            },
            commit: u64_at(bytes, 23),
            durable: u64_at(bytes, 31),
        },
    }
}

fn is_number(n: u64) -> bool
    ensures { result ≡ is_number n }
{
    1 <= n && n < NUMBERS_END
}

pub(crate) fn window_fits(w: &Window) -> bool
    ensures { result ≡ window_fits w.now }
{
    is_number(w.name.run) && is_number(w.name.id) && w.commit <= w.durable
}

// The numbers in front, where their window fits. One test of the length serves all of them.
pub(crate) fn head_at(reader: &mut Reader<'_>) -> Option<Head>
    ensures { Gives (λ h. h) result reader.new (head_at reader.old) }
{
    let bytes = reader.rest();
    let _ = reader.slice(LEN)?;
    let head = head_of(bytes);
    if window_fits(&head.window) {
        Some(head)
    } else {
        None
    }
}
