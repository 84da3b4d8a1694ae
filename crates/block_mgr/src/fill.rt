// An image as the bytes of a block.
ghost use Rattle.std.specs.Prelude.{◌≡◌, ◌≤◌, ◌^◌, IfOk, length};
ghost use Rattle.le_codec.specs.Images.{block_of, block_size};

use failure::NoMemory;

// The image, with zero bytes up to the next multiple of a unit. It takes memory only where the image
// has no room for them.
pub(crate) fn fill(image: Vec<u8>) -> Result<Vec<u8>, NoMemory>
    requires { length image.items ≤ 2 ^ 20 }
    ensures bytes { IfOk result (λ v. v.items ≡ block_of image.items) }
    ensures size { IfOk result (λ v. length v.items ≡ block_size (length image.items)) }
{
    let mut bytes = image;
    let size = (bytes.len() + 4095) / 4096 * 4096;
    bytes.resize(size, 0)?;
    Ok(bytes)
}
