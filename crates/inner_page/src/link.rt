// A link, read and written.
ghost use Rattle.std.specs.Prelude.{◌≡◌, ◌++◌, OnOk};
ghost use Rattle.le_codec.specs.Fields.{Gives};
ghost use Rattle.stored.specs.Links.{link_text};
ghost use Rattle.stored.specs.Reading.{link_at};

use device_layout::{Addr, Link};
use failure::NoMemory;
use le_codec::{Reader, Writer};
use stamp::Name;

#[tactic(auto, unfolding(stored::specs::Reading::link_at, le_codec::specs::Combine::then_at, le_codec::specs::Combine::as_at))]
pub(crate) fn link_of(reader: &mut Reader<'_>) -> Option<Link>
    ensures { Gives (λ l. l) result reader.new (link_at reader.old) }
{
    let offset = reader.u64()?;
    let size = reader.u32()?;
    let sum = reader.u32()?;
    let run = reader.u64()?;
    let id = reader.u64()?;
    let durable = reader.u64()?;
    Some(Link {
        addr: Addr { offset, size, sum },
        greatest: Name { run, id },
        durable,
    })
}

pub(crate) fn put_link(out: &mut Writer, link: &Link) -> Result<(), NoMemory>
    ensures { OnOk result (out.new ≡ out.old ++ link_text link.now) }
{
    out.u64(link.addr.offset)?;
    out.u32(link.addr.size)?;
    out.u32(link.addr.sum)?;
    out.u64(link.greatest.run)?;
    out.u64(link.greatest.id)?;
    out.u64(link.durable)
}
